//! Source IDs, and the data bytes of frames.

ghost use Rattle.std.specs.Prelude.{◌≡◌, ◌≤◌, ℕ};
ghost use Rattle.trace_values.specs.Cells.{source_id};

use std::marker::Model;

/// The ID of a trace source, 0 to 126.
///
/// The default one is the null source, 0. It only fills the unused places of a buffer.
#[derive(Clone, Copy, Debug, Default, PartialEq, Eq, Drop)]
pub struct SourceId {
    number: u8,
}

impl Model for SourceId {
    ghost Value = { ℕ };

    ghost view = { λ s. s.number };

    ghost invariant = { λ s. s.number ≤ 126 };

    ghost inverse = { λ n. record { number = n } };
}

impl SourceId {
    /// The source of this number. None over 126: an ID has seven bits, and 127 is never used.
    pub fn new(number: u8) -> Option<SourceId>
        ensures { result ≡ source_id number }
    {
        if number <= 126 {
            Some(SourceId { number })
        } else {
            None
        }
    }

    /// The source's number, 0 to 126.
    pub fn number(&self) -> u8
        ensures value { result ≡ self.now }
        ensures in_range { result ≤ 126 }
    {
        self.number
    }
}

/// A data byte of a frame.
///
/// The default one only fills the unused places of a buffer.
#[derive(Clone, Copy, Debug, Default, PartialEq, Eq, Drop)]
pub struct Cell {
    /// Its offset in the capture.
    pub at: u64,
    /// Its source; none before the first ID takes effect, where the byte is unattributed.
    pub id: Option<SourceId>,
    /// How many IDs its frame has named up to it, 0 to 8. Cells of one run have one ID.
    pub run: u8,
    /// The byte itself.
    pub byte: u8,
}
