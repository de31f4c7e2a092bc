//! The times that STP timestamps tell under the protocol versions 3 and 4, in this project's profile of the
//! System Trace Protocol.

ghost use Rattle.std.specs.Prelude.{Bool};

use crate::gray::{from_gray, to_gray};
use crate::words::{least_stamp, word_after};

/// What the timestamps so far leave for the next one, which may carry only the low nibbles of its time.
#[derive(Clone, Copy, Drop)]
pub struct Stamps {
    /// Words are Gray numbers, as under version 4, and natural ones under version 3.
    gray: bool,
    /// The last word, or 0 before the first timestamp.
    last: u64,
}

impl Stamps {
    ghost use Rattle.std.specs.Prelude.{◌≡◌, List, [], ◌∷◌, ◌++◌};
    ghost use Rattle.trace_clock.specs.LastWord.{SizedWord, sized, WordFits, stamp_time, IsLeast};
    ghost use Rattle.trace_clock.specs.StampWords.{Stands, is_gray};

    /// Stamps before the first timestamp, whose words are Gray numbers or natural ones.
    pub fn new(gray: bool) -> Stamps
        ensures gray { is_gray result ≡ gray }
        ensures list { Stands result [] }
    {
        Stamps { gray, last: 0 }
    }

    /// Takes the next timestamp, of a size of at most 14 and a word that fits its nibbles (`word_fits`), and
    /// answers the time that it tells.
    ///
    /// The word replaces the low nibbles of the last word. The time is the new word, or the natural number of
    /// the whole new word where words are Gray.
    #[inline]
    pub fn apply(&mut self, size: u8, word: u64) -> u64
        requires fits { WordFits size word }
        ensures gray { is_gray self.new ≡ is_gray self.old }
        ensures list { (stamps : List SizedWord) → Stands self.old stamps →
            Stands self.new (stamps ++ sized size word ∷ []) }
        ensures time { (stamps : List SizedWord) → Stands self.old stamps →
            result ≡ stamp_time (is_gray self.old) (stamps ++ sized size word ∷ []) }
    {
        self.last = word_after(self.last, size, word);
        if self.gray {
            from_gray(self.last)
        } else {
            self.last
        }
    }

    /// The least size, and its word, after which `apply` answers this time.
    pub fn least(&self, time: u64) -> (u8, u64)
        ensures { (stamps : List SizedWord) → Stands self.now stamps →
            IsLeast (is_gray self.now) stamps time result.0 result.1 }
    {
        if self.gray {
            least_stamp(self.last, to_gray(time))
        } else {
            least_stamp(self.last, time)
        }
    }
}
