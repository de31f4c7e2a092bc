//! The ones at the two ends of a byte, and of eight bytes.

ghost use Rattle.std.specs.Prelude.{◌≡◌, ◌≤◌, ◌≢◌, ◌+◌, ◌∷◌, ◌++◌, ◌-◌, ◌/◌, ◌^◌, false, true, MatchOption, IfSome};
ghost use Rattle.port_slip.specs.Bits.{bits, bits_of, ones};
ghost use Rattle.port_slip.specs.Runs.{run_after, is_quiet, EndsAfter, RunsOn};
ghost use Rattle.port_slip.specs.Coming.{grown};

/// How many ones come first in a byte, from its low bit up.
fn ones_first(byte: u8) -> u8
    ensures most { result ≤ 8 }
    ensures parts { byte ≢ 255 → (result ≤ 7) ×
        (bits 8 byte ≡ ones result ++ (false ∷ bits (7 - result) (byte / 2 ^ (result + 1)))) }
{
    byte.trailing_ones() as u8
}

/// How many ones of this byte are of the pattern that ends in it, after a run of so many ones; none where no pattern
/// ends in it.
#[inline]
pub(crate) fn pattern_in(run: u8, byte: u8) -> Option<u8>
    requires { run ≤ 31 }
    ensures { MatchOption result (is_quiet run (bits 8 byte) ≡ true) (λ count. EndsAfter run byte count) }
{
    if run < 24 || byte == 0xFF {
        return None;
    }
    let count = ones_first(byte);
    if run + count < 31 {
        return None;
    }
    Some(count)
}

/// How many ones come last in it.
#[inline]
pub(crate) fn ones_last(byte: u8) -> u8
    ensures most { result ≤ 8 }
    ensures run { byte ≢ 255 → (result ≤ 7) × (run_after 0 (bits 8 byte) ≡ result) }
{
    byte.leading_ones() as u8
}

/// The run of ones at the end of bits after one more byte in which no pattern ends.
#[inline]
pub(crate) fn run_over(run: u8, byte: u8) -> u8
    requires { run ≤ 31 }
    ensures grown { result ≡ grown run byte }
    ensures few { result ≤ 31 }
    ensures most { result ≤ run + 8 }
{
    if byte != 0xFF {
        ones_last(byte)
    } else if run + 8 < 31 {
        run + 8
    } else {
        31
    }
}

/// The run of ones at the end of bits after eight more bytes, where a glance tells that no pattern ends in these: after
/// a short run, with no FF in an even place.
#[inline]
pub(crate) fn run_over_word(run: u8, word: &[u8; 8]) -> Option<u8>
    ensures { IfSome result (λ next. RunsOn run (bits_of word.now) next) }
{
    if run >= 24 || word[0] == 0xFF || word[2] == 0xFF || word[4] == 0xFF || word[6] == 0xFF {
        return None;
    }
    Some(run_over(ones_last(word[6]), word[7]))
}
