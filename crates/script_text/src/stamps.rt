//! The timestamps of STP items.

ghost use Rattle.std.specs.Prelude.{◌≡◌, length};
ghost use Rattle.script_text.specs.Words.{texts};
ghost use Rattle.script_text.specs.Stamps.{size_with, raw_named, time_named, stamp_named, stamp_at as stamp_in};

use crate::numbers::hexadecimal_named;
use crate::words::word_of;
use decimal_words::{bytes_after, number_in};
use stp_grammar::item::Stamp;

/// The size of a timestamp whose word has this many nibbles: 0 to 12, 14 or 16.
fn size_with(count: usize) -> Option<u8>
    ensures { result ≡ size_with count }
{
    match count {
        0..=12 => Some(count as u8),
        14 => Some(13),
        16 => Some(14),
        _ => None,
    }
}

/// The raw timestamp of a word's nibbles, as hexadecimal digits.
#[tactic(auto, unfolding(crate::specs::Stamps::raw_named))]
fn raw_named(digits: &[u8]) -> Option<Stamp>
    ensures { result ≡ raw_named digits.now }
{
    let size = size_with(digits.len())?;
    let word = hexadecimal_named(digits.len(), digits)?;
    Some(Stamp::Raw { size, word })
}

/// The time that a text is in decimal.
fn time_named(text: &[u8]) -> Option<u64>
    ensures { result ≡ time_named text.now }
{
    number_in(0, u64::MAX, text)
}

/// The timestamp of a text: `-` for none, `n=N` natural, `g=N` Gray, or `r=` and the word's nibbles.
pub fn stamp_named(text: &[u8]) -> Option<Stamp>
    ensures { result ≡ stamp_named text.now }
{
    if text == b"-".as_slice() {
        return Some(Stamp::None);
    }
    if let Some(time) = bytes_after(b"n=", text) {
        return Some(Stamp::Natural(time_named(time)?));
    }
    if let Some(time) = bytes_after(b"g=", text) {
        return Some(Stamp::Gray(time_named(time)?));
    }
    match bytes_after(b"r=", text) {
        Some(digits) => raw_named(digits),
        None => None,
    }
}

/// The timestamp that the word of this number is.
pub fn stamp_at(words: &[&[u8]], k: usize) -> Option<Stamp>
    ensures { result ≡ stamp_in (texts words.now) k }
{
    stamp_named(word_of(words, k))
}
