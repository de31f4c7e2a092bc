//! Numbers of words.

ghost use Rattle.std.specs.Prelude.{◌≡◌, ◌≤◌, ◌<◌, ◌^◌, ◌*◌, IfSome, option_map};
ghost use Rattle.script_text.specs.Names.{byte_count};
ghost use Rattle.script_text.specs.Words.{texts};
ghost use Rattle.script_text.specs.Numbers.{hexadecimal_named as named, decimal_at as decimal_in};
ghost use Rattle.script_text.specs.Numbers.{hexadecimal_at as hexadecimal_in, numbers_at as numbers_in};

use crate::words::word_of;
use decimal_words::number_in;
use itm_grammar::packet::Size;

/// The number of this many hexadecimal digits, at most 16, in either case, most significant first. An odd count of them
/// has a zero in front, so that they are those of whole bytes.
#[tactic(auto, unfolding(crate::specs::Numbers::hexadecimal_named))]
pub fn hexadecimal_named(count: usize, text: &[u8]) -> Option<u64>
    requires { count ≤ 16 }
    ensures value { result ≡ named count text.now }
    ensures fits { IfSome result (λ n. n < 16 ^ count) }
{
    if text.len() != count {
        return None;
    }
    let odd = count % 2;
    let len = odd + count;
    let mut digits = [b'0'; 16];
    digits[odd..len].copy_from_slice(text);
    let mut bytes = [0; 8];
    match hex::decode_to_slice(&digits[..len], &mut bytes[8 - len / 2..]) {
        Ok(()) => Some(u64::from_be_bytes(bytes)),
        Err(_) => None,
    }
}

/// The decimal number up to this one that the word of this number is.
pub fn decimal_at(greatest: u64, words: &[&[u8]], k: usize) -> Option<u64>
    ensures value { result ≡ decimal_in greatest (texts words.now) k }
    ensures fits { IfSome result (λ n. n ≤ greatest) }
{
    number_in(0, greatest, word_of(words, k))
}

/// The number of this many hexadecimal digits that the word of this number is.
pub fn hexadecimal_at(count: usize, words: &[&[u8]], k: usize) -> Option<u64>
    requires { count ≤ 16 }
    ensures value { result ≡ hexadecimal_in count (texts words.now) k }
    ensures fits { IfSome result (λ n. n < 16 ^ count) }
{
    hexadecimal_named(count, word_of(words, k))
}

/// The byte that the word of this number is.
pub fn byte_at(words: &[&[u8]], k: usize) -> Option<u8>
    ensures { result ≡ hexadecimal_in 2 (texts words.now) k }
{
    match hexadecimal_at(2, words, k) {
        Some(byte) => Some(byte as u8),
        None => None,
    }
}

/// The value of this size that the word of this number is, two digits for each byte.
pub fn value_at(size: Size, words: &[&[u8]], k: usize) -> Option<u32>
    ensures value { result ≡ hexadecimal_in (2 * byte_count size) (texts words.now) k }
    ensures fits { IfSome result (λ n. n < 256 ^ byte_count size) }
{
    let count = match size {
        Size::One => 2,
        Size::Two => 4,
        Size::Four => 8,
    };
    match hexadecimal_at(count, words, k) {
        Some(value) => Some(value as u32),
        None => None,
    }
}

/// The decimal number up to this one that the word after the first is, and the value of this size that the word of this
/// number is.
pub fn numbers_at(greatest: u8, size: Size, words: &[&[u8]], k: usize) -> Option<(u8, u32)>
    ensures value { option_map (λ p. (p.0, (p.1, tt))) result
        ≡ numbers_in greatest (2 * byte_count size) (texts words.now) k }
    ensures fits { IfSome result (λ p. (p.0 ≤ greatest) × (p.1 < 256 ^ byte_count size)) }
{
    let number = decimal_at(u64::from(greatest), words, 1)? as u8;
    let value = value_at(size, words, k)?;
    Some((number, value))
}
