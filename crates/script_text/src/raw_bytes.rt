//! Bytes of sources that are not mapped.

ghost use Rattle.std.specs.Prelude.{◌≡◌, ◌≤◌, ◌∷◌, [], length};
ghost use Rattle.script_text.specs.Words.{texts};
ghost use Rattle.script_text.specs.Items.{raw_of as raw_in};
ghost use Rattle.script_text.specs.Bytes.{bytes_named as named};

use crate::words::word_of;
use arrayvec::ArrayVec;
use std::marker::Model;

/// The most bytes that one line gives.
pub const RAW_BYTES: usize = 100;

/// The bytes of a line, at most 100.
#[derive(Debug, Drop)]
pub struct RawBytes {
    bytes: ArrayVec<u8, RAW_BYTES>,
}

impl Model for RawBytes {
    ghost use Rattle.std.specs.Prelude.{ℕ, List, length, ◌≤◌};

    ghost Value = { List ℕ };

    ghost view = { λ b. b.bytes.items };

    ghost invariant = { λ b. length b.bytes.items ≤ 100 };
}

impl RawBytes {
    /// One byte.
    pub fn of_byte(byte: u8) -> RawBytes
        ensures { result ≡ byte ∷ [] }
    {
        let mut bytes = ArrayVec::new();
        bytes.push(byte);
        RawBytes { bytes }
    }

    /// The bytes, in order.
    pub fn as_slice(&self) -> &[u8]
        ensures value { result.now ≡ self.now }
        ensures few { length result.now ≤ RAW_BYTES }
    {
        self.bytes.as_slice()
    }
}

/// The bytes that a text is in hexadecimal, two digits each: 1 to 100.
fn bytes_named(text: &[u8]) -> Option<RawBytes>
    ensures { result ≡ named text.now }
{
    if text.len() < 2 || text.len() > 2 * RAW_BYTES {
        return None;
    }
    let mut room = [0; RAW_BYTES];
    let bytes = &mut room[..text.len() / 2];
    match hex::decode_to_slice(text, bytes) {
        Ok(()) => {
            let mut put = ArrayVec::new();
            let _ = put.try_extend_from_slice(bytes);
            Some(RawBytes { bytes: put })
        }
        Err(_) => None,
    }
}

/// The bytes that the word after the first is.
pub fn raw_of(words: &[&[u8]]) -> Option<RawBytes>
    ensures { result ≡ raw_in (texts words.now) }
{
    bytes_named(word_of(words, 1))
}
