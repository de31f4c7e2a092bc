//! How a run ends.

/// Why a run ended. A failed write comes before all others.
#[derive(Clone, Copy, Debug, PartialEq, Eq)]
pub enum Outcome {
    /// The input ended within the limit, and its reading has no fault.
    AtEnd,
    /// The reading has a fault. No byte after it was fed.
    FaultFound,
    /// The source failed. All text of the bytes before is written.
    ReadFailed,
    /// The sink failed.
    WriteFailed,
    /// The input has more bytes than the limit, and the reading of those within it has no fault.
    OverLimit,
}
