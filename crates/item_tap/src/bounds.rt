//! The two choices of a window over events.

use crate::choice::Choice;

/// Where a window opens and closes.
#[derive(Clone, Copy, Debug, Drop)]
pub struct Bounds {
    /// It opens at events that meet this choice.
    pub first: Choice,
    /// It closes after events that meet this one.
    pub last: Choice,
}
