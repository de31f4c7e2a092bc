//! The texts of the program's own.

/// A text that an action writes, whatever its input.
#[derive(Clone, Copy, Drop)]
pub enum Page {
    /// The actions, the commonest calls, and where to read on.
    Help,
    /// The program's name and its version.
    Version,
}
