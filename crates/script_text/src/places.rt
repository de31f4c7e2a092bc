//! The places of STP items.

ghost use Rattle.std.specs.Prelude.{◌≡◌, option_map, Some};
ghost use Rattle.script_text.specs.Words.{texts};
ghost use Rattle.script_text.specs.Numbers.{decimal_at as decimal_in};

use crate::numbers::decimal_at;

/// The master or the channel that the word of this number is, 0 to 65535. It is known.
pub fn known_at(words: &[&[u8]], k: usize) -> Option<Option<u16>>
    ensures { result ≡ option_map Some (decimal_in 65535 (texts words.now) k) }
{
    Some(Some(decimal_at(0xFFFF, words, k)? as u16))
}
