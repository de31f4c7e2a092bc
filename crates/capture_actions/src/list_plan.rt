//! What `show` is asked for.

use item_tap::{Bounds, Choices};
use source_events::Plan;

/// How a capture is read, and which of its events are listed: those that meet one of some choices, if there are any,
/// and are within a window, if there is one.
#[derive(Drop)]
pub struct ListPlan {
    pub plan: Plan,
    pub only: Option<Choices>,
    pub window: Option<Bounds>,
}
