//! The bytes of one source in a frame.
//!
//! An ID is here its seven bits. `NO_ID`, which a frame never names, is none.

ghost use Rattle.std.specs.Prelude.{◌≡◌, ℕ, ◌≤◌, ◌<◌, ◌+◌, ◌*◌, ◌++◌, ◌∷◌, [], ◌==◌, ◌%◌, ◌/◌, take, List, Option};
ghost use Rattle.std.specs.Prelude.{if◌then◌else◌};
ghost use Rattle.frame_grammar.specs.Names.{source_id};
ghost use Rattle.frame_grammar.specs.Frame.{cells, id_after};
ghost use Rattle.frame_grammar.specs.SourceBytes.{bytes_of_source};
ghost use Rattle.frame_grammar.specs.declared.frame.TheConstants.{FRAME_BYTES};
ghost use Rattle.frame_grammar.specs.declared.source_bytes.TheConstants.{NO_ID};

use crate::frame::FRAME_BYTES;
use trace_values::SourceId;

/// The seven bits that no ID has.
pub const NO_ID: u8 = 0x7F;

/// What was copied of one source's bytes in a frame.
#[derive(Clone, Copy, Drop)]
pub struct CopiedBytes {
    /// How many bytes, 0 to 15.
    pub len: usize,
    /// The ID after the frame.
    pub after: Option<SourceId>,
}

/// The seven bits of an ID, 0 to 126; of none, `NO_ID`.
#[inline]
pub fn id_bits(id: Option<SourceId>) -> u8
    ensures id { source_id result ≡ id }
    ensures few { result ≤ NO_ID }
{
    match id {
        Some(id) => id.number(),
        None => NO_ID,
    }
}

/// The ID after a mixed-use byte and the byte that follows it, where `id` is the one before them.
#[inline]
fn id_after_pair(mixed: u8, id: u8) -> u8
    ensures { result ≡ (if mixed % 2 == 1 then (mixed / 2) else id) }
{
    if mixed % 2 == 1 { mixed / 2 } else { id }
}

/// The ID of the byte that follows a mixed-use byte: where the auxiliary bit is set, a new ID holds only after that
/// byte.
#[inline]
fn id_within_pair(auxiliary: u8, after: u8, id: u8) -> u8
    ensures { result ≡ (if auxiliary == 0 then after else id) }
{
    if auxiliary == 0 { after } else { id }
}

/// Puts the byte after the first `len`, and gives their number with it where it is kept.
#[inline]
fn put_if(into: &mut [u8; FRAME_BYTES], len: usize, byte: u8, keep: bool) -> usize
    requires { len < FRAME_BYTES }
    ensures bytes { take result into.new ≡ take len into.old ++ (if keep then (byte ∷ []) else []) }
    ensures len { result ≤ len + 1 }
{
    into[len] = byte;
    len + keep as usize
}

/// Copies the bytes of this source's cells in the frame to the front of `into`, in order, where `before` is the ID
/// before the frame. What is in `into` after them is of no account.
///
/// No branch depends on the bytes, since a frame's IDs are hard to foresee.
#[inline]
pub fn copy_source_bytes(
    frame: &[u8; FRAME_BYTES],
    before: Option<SourceId>,
    source: SourceId,
    into: &mut [u8; FRAME_BYTES],
) -> CopiedBytes
    ensures len { result.len ≤ 15 }
    ensures bytes { (at : List ℕ) → take result.len into.new ≡ bytes_of_source source (cells frame.now at before) }
    ensures after { result.after ≡ id_after frame.now before }
{
    let wanted = source.number();
    let mut id = id_bits(before);
    let mut len = 0;
    for pair in 0..7 {
        let mixed = frame[2 * pair];
        let auxiliary = (frame[15] >> pair) % 2;
        let after = id_after_pair(mixed, id);
        let within = id_within_pair(auxiliary, after, id);
        let data = mixed - mixed % 2 + auxiliary;
        let is_data = mixed % 2 == 0;
        len = put_if(into, len, data, is_data & (id == wanted));
        len = put_if(into, len, frame[2 * pair + 1], within == wanted);
        id = after;
    }
    let last = frame[14];
    let data = last - last % 2 + frame[15] / 128;
    let is_data = last % 2 == 0;
    len = put_if(into, len, data, is_data & (id == wanted));
    CopiedBytes {
        len,
        after: SourceId::new(id_after_pair(last, id)),
    }
}
