//! Tests of eight bytes at once, as one word.

ghost use Rattle.std.specs.Prelude.{◌≡◌, ◌≢◌, ◌<◌, ◌+◌, ◌*◌, ◌↔◌, ℕ, IsTrue, slice_index};
ghost use Rattle.frame_grammar.specs.Frame.{IsProperBelow};

/// The low byte of each halfword.
const EVENS: u64 = 0x00FF_00FF_00FF_00FF;

/// One in each halfword: added to an FF there, it carries into bit 8.
const ONES: u64 = 0x0001_0001_0001_0001;

/// Bit 8 of each halfword.
const CARRIES: u64 = 0x0100_0100_0100_0100;

/// What is looked at where a half synchronisation follows each of two halfwords: it, and the halfword's low byte.
const LOOKED_AT: u64 = 0xFFFF_00FF_FFFF_00FF;

/// One in each of those low bytes: added to an FF, it carries into bit 8 of the halfword.
const FIRSTS: u64 = 0x0000_0001_0000_0001;

/// The half synchronisations, and what is carried out of those low bytes.
const COMPARED: u64 = 0xFFFF_FF00_FFFF_FF00;

/// Two half synchronisations, and nothing carried.
const HALVES: u64 = 0x7FFF_0000_7FFF_0000;

/// None of the bytes at even indexes is FF.
#[inline(always)]
pub(crate) fn is_proper_half(half: &[u8; 8]) -> bool
    ensures { IsTrue result ↔ IsProperBelow 4 half.now }
{
    let evens = u64::from_le_bytes(*half) & EVENS;
    (evens + ONES) & CARRIES == 0
}

/// A half synchronisation follows each of two halfwords, neither of which begins with FF.
#[inline(always)]
pub(crate) fn is_spaced_word(word: &[u8; 8]) -> bool
    ensures words { IsTrue result → (k : ℕ) → k < 2 → slice_index word.now (4 * k) ≢ 255 }
    ensures gaps { IsTrue result → (k : ℕ) → k < 2 →
        (slice_index word.now (4 * k + 2) ≡ 255) × (slice_index word.now (4 * k + 3) ≡ 127) }
{
    let seen = u64::from_le_bytes(*word) & LOOKED_AT;
    (seen + FIRSTS) & COMPARED == HALVES
}
