//! The words of STP timestamps, in this project's profile of the System Trace Protocol.
//!
//! A timestamp is a size nibble and its word. A size of 0 to 12 has a word of that many nibbles, 13 one of 14
//! nibbles and 14 one of 16; 15 is no size. Under the protocol versions 3 and 4 the word replaces the low
//! nibbles of the last word.

ghost use Rattle.std.specs.Prelude.{◌≡◌, ◌↔◌, ◌+◌, ◌*◌, ◌/◌, ◌^◌, ◌<◌, ◌%◌, ◌==◌, List, [], ◌∷◌, ◌++◌, false, IsTrue};
ghost use Rattle.trace_clock.specs.LastWord.{SizedWord, sized, nibble_count, WordFits, last_word, next_word, IsLeast};

/// How many nibbles the word of a timestamp of this size, 0 to 14, has.
#[inline]
pub fn word_nibbles(size: u8) -> u8
    requires { size < 15 }
    ensures count { result ≡ nibble_count size }
{
    match size {
        0..=12 => size,
        13 => 14,
        _ => 16,
    }
}

/// Whether a timestamp can have this size and this word: the size is at most 14, and the word has at most its
/// nibbles.
#[inline]
pub fn word_fits(size: u8, word: u64) -> bool
    ensures { IsTrue result ↔ WordFits size word }
{
    match size {
        0..=13 => word >> (4 * word_nibbles(size)) == 0,
        _ => size == 14,
    }
}

/// The last word after one more timestamp, whose word must fit its size.
#[inline]
pub fn word_after(last: u64, size: u8, word: u64) -> u64
    requires fits { WordFits size word }
    ensures next { result ≡ next_word last (sized size word) }
    ensures list { (stamps : List SizedWord) → last ≡ last_word stamps →
        result ≡ last_word (stamps ++ sized size word ∷ []) }
{
    let count = 4 * word_nibbles(size);
    if count == 64 {
        word
    } else {
        with_low_bits(last, count, word)
    }
}

/// The number with its lowest `count` bits replaced by these.
#[inline]
fn with_low_bits(number: u64, count: u8, bits: u64) -> u64
    requires count { count < 64 }
    requires bits { bits < 2 ^ count }
    ensures value { result ≡ number / 2 ^ count * 2 ^ count + bits }
{
    (number >> count << count) | bits
}

/// The least size, and its word, with which one more timestamp makes this the last word.
pub fn least_stamp(last: u64, target: u64) -> (u8, u64)
    ensures { (stamps : List SizedWord) → last ≡ last_word stamps → IsLeast false stamps target result.0 result.1 }
{
    for size in 0..14u8 {
        let count = 4 * word_nibbles(size);
        if has_same_high(last, target, count) {
            return (size, low_bits(target, count));
        }
    }
    (14, target)
}

/// Whether the numbers have the same bits from this one up.
fn has_same_high(a: u64, b: u64, bit: u8) -> bool
    requires { bit < 64 }
    ensures { result ≡ (a / 2 ^ bit == b / 2 ^ bit) }
{
    a >> bit == b >> bit
}

/// The number that the lowest `count` bits make.
fn low_bits(number: u64, count: u8) -> u64
    requires { count < 64 }
    ensures { result ≡ number % 2 ^ count }
{
    number - (number >> count << count)
}
