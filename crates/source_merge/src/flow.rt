//! Whether a report goes on.

ghost use Rattle.std.specs.Prelude.{◌≡◌};
ghost use Rattle.source_merge.specs.Answering.{flow_to};

use source_events::Stop;

/// Whether a report goes on, or its fault has become certain.
#[derive(Clone, Copy, Debug, PartialEq, Eq, Drop)]
pub enum Flow {
    Going,
    Stopped(Stop),
}

/// What an engine took of a piece.
#[derive(Clone, Copy, Debug, PartialEq, Eq, Drop)]
pub struct Fed {
    /// How many bytes from its front, at least one.
    pub bytes: usize,
    /// The answer to the last of them.
    pub flow: Flow,
}

/// The answer of a report that has this fault by now, or none.
#[inline]
pub fn flow_of(stop: Option<Stop>) -> Flow
    ensures { result ≡ flow_to stop }
{
    match stop {
        None => Flow::Going,
        Some(stop) => Flow::Stopped(stop),
    }
}
