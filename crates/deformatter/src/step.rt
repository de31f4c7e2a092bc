//! What a deformatter answers to a byte.

use trace_values::Fault;

/// What a byte of a port ends.
#[derive(Clone, Copy, Debug, PartialEq, Eq, Drop)]
pub enum PortStep {
    /// Nothing.
    Quiet,
    /// A half synchronisation, between frames or inside one.
    Half,
    /// A full synchronisation.
    Full,
    /// A frame.
    Frame,
    /// The full synchronisation that was hunted. This many bytes are before it.
    Locked { skipped: u64 },
    /// The first fault of the port.
    Fault(Fault),
}
