//! What `split` is asked for.

use trace_values::{FramesMode, SourceId};

/// How the port is read, and whose bytes are written.
#[derive(Clone, Copy, Drop)]
pub struct SplitPlan {
    pub frames: FramesMode,
    pub id: SourceId,
}
