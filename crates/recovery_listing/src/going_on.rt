//! What is asked of a capture that is read on after faults.

/// What is asked of a capture, and whether guesses are said: what a source that hunts after a fault may have said.
#[derive(Debug, Drop)]
pub struct GoingOn<P> {
    pub plan: P,
    pub guesses: bool,
}
