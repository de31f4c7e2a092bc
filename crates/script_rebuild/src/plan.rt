//! What a script is read by.

use script_text::LineFault;
use source_events::Plan;
use trace_funnel::Turns;

/// What the sources of a script send, and how it goes to the port.
#[derive(Drop)]
pub struct RebuildPlan {
    /// What is mapped. Its modes make no difference.
    pub plan: Plan,
    /// A full synchronisation is written before each frame whose number, from 0 on, is a multiple of this; none where
    /// it is 0.
    pub every: u32,
    /// How many half synchronisations, at most 8, are written in each gap of a frame.
    pub halves: u8,
    /// How the funnel takes turns through which all bytes pass before the port, if one is there.
    pub funnel: Option<Turns>,
}

/// The first fault of a script.
#[derive(Clone, Copy, Drop)]
pub struct ScriptFault {
    /// The number of its line, from 1 on.
    pub line: u64,
    /// What is wrong with it.
    pub fault: LineFault,
}
