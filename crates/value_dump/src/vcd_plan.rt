//! What `vcd` is asked for.

use source_events::Plan;

/// How a capture is read, and of how many Hz, at least one, the clock of the local timestamps of its first ITM source
/// is, if times are in nanoseconds. Without it one tick is one nanosecond.
#[derive(Drop)]
pub struct VcdPlan {
    pub plan: Plan,
    pub hz: Option<u64>,
}
