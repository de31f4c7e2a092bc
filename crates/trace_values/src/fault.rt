//! Faults, and why they are faults.

ghost use Rattle.std.specs.Prelude.{◌≡◌};
ghost use Rattle.trace_values.specs.Faults.{number_of, name_of};

/// Why no list of a grammar goes on with a unit.
#[derive(Clone, Copy, Debug, PartialEq, Eq, Drop)]
pub enum Reason {
    /// At the port, the bytes are not those of a synchronisation.
    BadSync = 1,
    /// At the port, a synchronisation is inside a frame.
    SyncInFrame = 2,
    /// No packet has this header.
    ReservedHeader = 3,
    /// A run of zero bytes that is no ITM synchronisation packet: too short, or ended by another byte than 80.
    BadItmSync = 4,
    /// A timestamp goes on after the last byte that it may have.
    LongStamp = 5,
    /// A timestamp ends before it has as many bytes as it must have.
    ShortStamp = 6,
    /// No STP packet has this opcode.
    Unsupported = 7,
    /// No STP timestamp has this size.
    StampSize = 8,
    /// A run of nibbles F that is no STP synchronisation packet: too short, or ended by another nibble than 0.
    BadAsync = 9,
}

impl Reason {
    /// The reason's number, as a fault line has it, 1 to 9.
    pub fn number(&self) -> u8
        ensures { result ≡ number_of self.now }
    {
        *self as u8
    }

    /// The reason's name, as a fault line has it.
    pub fn name(&self) -> &'static str
        ensures { result.now ≡ name_of self.now }
    {
        match self {
            Reason::BadSync => "BadSync",
            Reason::SyncInFrame => "SyncInFrame",
            Reason::ReservedHeader => "ReservedHeader",
            Reason::BadItmSync => "BadItmSync",
            Reason::LongStamp => "LongStamp",
            Reason::ShortStamp => "ShortStamp",
            Reason::Unsupported => "Unsupported",
            Reason::StampSize => "StampSize",
            Reason::BadAsync => "BadAsync",
        }
    }
}

/// A fault and its place.
#[derive(Clone, Copy, Debug, PartialEq, Eq, Drop)]
pub struct Fault {
    /// The offset of its byte in the capture.
    pub at: u64,
    /// The half of that byte: 0 for the low nibble, 1 for the high one, and 0 where the units are bytes.
    pub half: u8,
    /// Why it is one.
    pub reason: Reason,
}
