//! The data bytes of a frame.

ghost use Rattle.std.specs.Prelude.{◌≡◌, ℕ, ◌<◌, ◌*◌, ◌+◌, ◌++◌, slice_index};
ghost use Rattle.frame_runs.specs.Data.{first_bytes, last_bytes, lowest, spread_bits, with_bits};
ghost use Rattle.frame_runs.specs.Data.{byte_in, late_bits, masks, moved_bytes, place_in};

use frame_grammar::frame::FRAME_BYTES;

/// The lowest bit of each halfword of a word.
const LOWEST: u64 = 0x0001_0001_0001_0001;

/// Times a number of four bits, it has bit `k` of the number at bit `16 * k`.
const SPREADING: u64 = 0x2000_4000_8001;

/// The bits 0 of the bytes at even indexes, each in its halfword.
#[inline(always)]
pub fn low_bits(bytes: [u8; 8]) -> u64
    ensures { result ≡ lowest bytes }
{
    u64::from_le_bytes(bytes) & LOWEST
}

/// Four bits, each in its halfword.
#[inline(always)]
fn spread(bits: u8) -> u64
    requires { bits < 16 }
    ensures { result ≡ spread_bits bits }
{
    bits as u64 * SPREADING & LOWEST
}

/// These bytes, of which those at even indexes have four bits as their bits 0.
#[inline(always)]
fn with_new_bits(bytes: [u8; 8], bits: u8) -> [u8; 8]
    requires { bits < 16 }
    ensures { result ≡ with_bits bytes bits }
{
    (u64::from_le_bytes(bytes) - low_bits(bytes) + spread(bits)).to_le_bytes()
}

/// FF in the low byte of each halfword whose even byte is an ID byte that is in effect only after the byte behind it
/// (its bit 0 and its auxiliary bit are 1), and else 0.
#[inline(always)]
fn late(bytes: [u8; 8], bits: u8) -> u64
    requires { bits < 16 }
    ensures { result ≡ masks (late_bits bytes bits) }
{
    (low_bits(bytes) & spread(bits)) * 255
}

/// These bytes, of which those behind the masked ones are moved one place to the front: each masked byte at an even
/// index is replaced by the one behind it.
#[inline(always)]
fn moved(bytes: [u8; 8], late: u64) -> [u8; 8]
    ensures { (bits : ℕ) → bits < 16 → late ≡ masks bits → result ≡ moved_bytes bytes bits }
{
    let word = u64::from_le_bytes(bytes);
    ((word & (u64::MAX - late)) | ((word >> 8u32) & late)).to_le_bytes()
}

/// The first eight bytes of a frame.
#[inline(always)]
pub fn first_half(frame: &[u8; FRAME_BYTES]) -> [u8; 8]
    ensures { result ≡ first_bytes frame.now }
{
    match frame.first_chunk::<8>() {
        Some(half) => *half,
        None => [0; 8],
    }
}

/// The last eight bytes of a frame.
#[inline(always)]
pub fn last_half(frame: &[u8; FRAME_BYTES]) -> [u8; 8]
    ensures { result ≡ last_bytes frame.now }
{
    match frame.last_chunk::<8>() {
        Some(half) => *half,
        None => [0; 8],
    }
}

/// Two halves, one behind the other. Each is copied whole, since a list of the elements would be written byte by byte.
#[inline(always)]
fn joined(first: &[u8; 8], last: &[u8; 8]) -> [u8; FRAME_BYTES]
    ensures { result ≡ first.now ++ last.now }
{
    let mut both = [0; FRAME_BYTES];
    both[..8].copy_from_slice(first);
    both[8..].copy_from_slice(last);
    both
}

/// The bytes of a frame, each in its place, those at even indexes with their bits 0 from byte 15: the data, but for the
/// ID bytes. And where each of them is, by the places of the frame's bytes. An ID byte that is in effect only after the
/// byte behind it gives way to that byte, so that the data of the source before it are in one piece.
#[inline(always)]
pub fn data_in_place(
    frame: &[u8; FRAME_BYTES],
    behind: &[u8; FRAME_BYTES],
) -> ([u8; FRAME_BYTES], [u8; FRAME_BYTES])
    ensures even { (k : ℕ) → k < 8 → slice_index result.0 (2 * k) ≡ byte_in frame.now k }
    ensures odd { (k : ℕ) → k < 8 → slice_index result.0 (2 * k + 1) ≡ slice_index frame.now (2 * k + 1) }
    ensures even_places { (k : ℕ) → k < 8 → slice_index result.1 (2 * k) ≡ place_in frame.now behind.now k }
    ensures odd_places { (k : ℕ) → k < 8 → slice_index result.1 (2 * k + 1) ≡ slice_index behind.now (2 * k + 1) }
{
    let front = first_half(frame);
    let back = last_half(frame);
    let early = late(front, frame[15] % 16);
    let later = late(back, frame[15] / 16 % 8);
    let first = moved(with_new_bits(front, frame[15] % 16), early);
    let last = moved(with_new_bits(back, frame[15] / 16), later);
    let first_at = moved(first_half(behind), early);
    let last_at = moved(last_half(behind), later);
    (joined(&first, &last), joined(&first_at, &last_at))
}
