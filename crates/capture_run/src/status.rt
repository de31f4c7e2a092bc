//! How a run ends.

ghost use Rattle.std.specs.Prelude.{◌≡◌};
ghost use Rattle.capture_run.specs.Statuses.{number_of};

/// How a run ended. A failed write comes before a fault, a fault before a failed read, and that before
/// the limit.
#[derive(Clone, Copy, Debug, PartialEq, Eq, Drop)]
pub enum Status {
    /// All of the input was read, and its whole text was written; or the task reads nothing, and its text was written.
    Done = 0,
    /// The words are no call. Nothing was read.
    Usage = 2,
    /// The reading of the bytes within the limit has a fault.
    CaptureFault = 3,
    /// A read failed.
    ReadFault = 4,
    /// A write failed.
    WriteFault = 5,
    /// There was no memory to begin with. Nothing was read or written.
    NoMemory = 6,
    /// A line of the script has a fault.
    ScriptFault = 7,
    /// The input has more bytes than the limit.
    Limit = 8,
    /// All of the input was read, and its whole text was written, which tells the faults that the capture has.
    Recovered = 9,
    /// The input is no image: it has fewer or more bytes than the trace buffer.
    BadImage = 10,
}

impl Status {
    /// The status of the process.
    pub fn number(&self) -> u8
        ensures { result ≡ number_of self.now }
    {
        *self as u8
    }
}
