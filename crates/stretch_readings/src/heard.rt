//! What a recovering source says.

use trace_values::Reason;

/// What a recovering source says beside its notices of locks.
#[derive(Debug, Drop)]
pub enum Heard<T> {
    /// An item.
    Read(T),
    /// A fault of the source, or of the port.
    Broken(Reason),
    /// An item that is read in a hunt, as if a packet began at the unit after a fault.
    Guessed(T),
    /// A fault of such a reading.
    Misread(Reason),
}
