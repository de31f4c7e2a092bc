//! What the mixed-use bytes of a frame name, and where its runs end.

ghost use Rattle.std.specs.Prelude.{◌≡◌, ◌<◌, ◌+◌, ◌*◌, ◌/◌, ◌%◌, ◌^◌, ℕ};
ghost use Rattle.frame_grammar.specs.Frame.{id_after};
ghost use Rattle.frame_runs.specs.Data.{first_bytes, last_bytes};
ghost use Rattle.frame_runs.specs.Pairs.{bits_of_half, end_at};

use crate::data::{first_half, last_half, low_bits};
use frame_grammar::frame::FRAME_BYTES;
use trace_values::SourceId;

/// Times a word of which only bits 0, 16, 32 and 48 may be 1, it has those four from bit 48 on.
const GATHERING: u64 = 0x0001_0002_0004_0008;

/// The bits 0 of the bytes at even indexes, that of the first one lowest.
#[inline(always)]
fn gathered(bytes: [u8; 8]) -> u64
    ensures { result ≡ bits_of_half bytes }
{
    low_bits(bytes).wrapping_mul(GATHERING) >> 48u32
}

/// The pairs of a frame whose mixed-use byte names a source: bit `k` is for the one at `2 * k` and `2 * k + 1`.
#[inline(always)]
pub fn named(frame: &[u8; FRAME_BYTES]) -> u64
    ensures { result ≡ bits_of_half (first_bytes frame.now) + bits_of_half (last_bytes frame.now) * 16 }
{
    gathered(first_half(frame)) + gathered(last_half(frame)) * 16
}

/// The ID after a frame that comes after this one: the last that it names, if it names any.
#[inline(always)]
pub fn after_frame(frame: &[u8; FRAME_BYTES], id: &Option<SourceId>) -> Option<SourceId>
    ensures { result ≡ id_after frame.now id.now }
{
    let last = 63 - (named(frame) | 1).leading_zeros();
    let mixed = frame[2 * last as usize];
    if mixed % 2 == 1 {
        SourceId::new(mixed / 2)
    } else {
        *id
    }
}

/// The pairs of a frame whose run ends only after their first byte: bit `k` is for the one at `2 * k` and `2 * k + 1`.
/// Those are pairs of a deferred ID, and the last one where byte 14 is a datum.
#[inline(always)]
pub fn late_ends(frame: &[u8; FRAME_BYTES]) -> u8
    ensures { (pair : ℕ) → pair < 8 → 2 * pair + result / 2 ^ pair % 2 ≡ end_at frame.now pair }
{
    frame[15] % 128 + (1 - frame[14] % 2) * 128
}
