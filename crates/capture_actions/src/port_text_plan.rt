//! What `text` is asked for.

use source_events::Plan;

/// How a capture is read, and of which stimulus port of its first ITM source the values are written, 0 to 31.
#[derive(Drop)]
pub struct PortTextPlan {
    pub plan: Plan,
    pub port: u8,
}
