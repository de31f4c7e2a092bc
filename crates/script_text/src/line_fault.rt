//! What is wrong with a line.

ghost use Rattle.std.specs.Prelude.{◌≡◌};
ghost use Rattle.script_text.specs.Faults.{number_of, name_of};

use thiserror::Error;

/// Why a line is none of a script (this project's profile). Of several that hold, a line has the first.
#[derive(Clone, Copy, Debug, PartialEq, Eq, Drop, Error)]
pub enum LineFault {
    /// It has more than 256 bytes.
    #[error("the line has more than 256 bytes")]
    LongLine = 1,
    /// It is not the words of an item after an ID: it has a byte that is not printable, words are not between single
    /// spaces, or a word that is no number is another than an item's text has there.
    #[error("the line is not the words of an item after an ID")]
    BadLine = 2,
    /// Its first word is not a number from 1 to 126.
    #[error("the ID is not a number from 1 to 126")]
    BadId = 3,
    /// A number is not in its spelling or its range, `hw` is used for a hardware packet that has a name, or `raw` has
    /// no whole bytes, or more than 100.
    #[error("a number is not in its spelling or its range")]
    BadNumber = 4,
    /// The item is one of an ITM or STP source, and the source is not mapped.
    #[error("the source is not mapped")]
    Unmapped = 5,
    /// The item is of another kind than its source.
    #[error("the item is of another kind than its source")]
    Mixed = 6,
    /// An STP item has a timestamp that the version of the protocol has not. `read_line` never answers this fault,
    /// since it depends on the lines before.
    #[error("the version of the protocol has no such timestamp")]
    Unfit = 7,
    /// It gives bytes of a source that has no place in the order of a funnel. `read_line` never answers this fault,
    /// since it comes only where the bytes go through a funnel.
    #[error("the source has no place in the order of the funnel")]
    Unrouted = 8,
}

impl LineFault {
    /// The fault's number, as its note has it, 1 to 8: of several that hold, a line has the one of the least number.
    pub fn number(&self) -> u8
        ensures { result ≡ number_of self.now }
    {
        *self as u8
    }

    /// The fault's name, as its note has it.
    pub fn name(&self) -> &'static str
        ensures { result.now ≡ name_of self.now }
    {
        match self {
            LineFault::LongLine => "LongLine",
            LineFault::BadLine => "BadLine",
            LineFault::BadId => "BadId",
            LineFault::BadNumber => "BadNumber",
            LineFault::Unmapped => "Unmapped",
            LineFault::Mixed => "Mixed",
            LineFault::Unfit => "Unfit",
            LineFault::Unrouted => "Unrouted",
        }
    }
}
