//! What the sources of a capture and its port give, and what ends its report.

use crate::packet::Packet;
use crate::run_bytes::RunBytes;
use trace_values::{Fault, SourceId};

/// What a source gives.
#[derive(Debug, Drop)]
pub enum What<T> {
    /// Its reading begins here, after this many skipped units: bytes, and for an STP source nibbles.
    Locked(u64),
    /// A packet of a mapped source.
    Packet(T),
    /// The bytes of a run of a source that is not mapped.
    Raw(RunBytes),
    /// A byte of the trigger source, 125.
    Trigger(u8),
}

/// What a source or the port gives, and where: at the last unit of what gives it.
#[derive(Debug, Drop)]
pub struct Event<T> {
    /// The offset of its last byte in the capture.
    pub at: u64,
    /// The half of that byte: 0 for the low nibble, 1 for the high one, and 0 where the units are bytes.
    pub half: u8,
    /// Its source; none for the port.
    pub source: Option<SourceId>,
    pub what: What<T>,
}

/// The fault that ends a report.
#[derive(Clone, Copy, Debug, PartialEq, Eq, Drop)]
pub struct Stop {
    pub fault: Fault,
    /// The source whose packets have the fault; none where it is the port's.
    pub source: Option<SourceId>,
}

/// The default event only fills the unused places of a buffer.
impl Default for Event<Packet> {
    fn default() -> Event<Packet> {
        Event {
            at: 0,
            half: 0,
            source: None,
            what: What::Trigger(0),
        }
    }
}
