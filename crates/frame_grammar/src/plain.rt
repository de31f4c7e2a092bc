//! A frame whose 16 bytes are all in a piece, with no half synchronisation between its halfwords.

ghost use Rattle.std.specs.Prelude.{◌≡◌, ℕ, ◌≤◌, ◌↔◌, length, take, IsTrue, IfSome, IsNone};
ghost use Rattle.frame_grammar.specs.Frame.{IsProperFrame};
ghost use Rattle.frame_grammar.specs.declared.frame.TheConstants.{FRAME_BYTES};

use crate::frame::FRAME_BYTES;
use crate::words::is_proper_half;

/// None of the mixed-use bytes, those at even indexes, is FF.
#[inline]
fn is_proper(frame: &[u8; FRAME_BYTES]) -> bool
    ensures { IsTrue result ↔ IsProperFrame frame.now }
{
    match (frame.first_chunk::<8>(), frame.last_chunk::<8>()) {
        (Some(first), Some(last)) => is_proper_half(first) & is_proper_half(last),
        _ => false,
    }
}

/// The piece's first 16 bytes, where they are there and are a frame: none of the mixed-use bytes, those at even
/// indexes, is FF.
#[inline]
pub fn plain_frame(piece: &[u8]) -> Option<&[u8; FRAME_BYTES]>
    ensures bytes { IfSome result (λ f. f.now ≡ take FRAME_BYTES piece.now) }
    ensures room { IfSome result (λ f. FRAME_BYTES ≤ length piece.now) }
    ensures proper { IfSome result (λ f. IsProperFrame f.now) }
    ensures none { IsNone result → FRAME_BYTES ≤ length piece.now → IsProperFrame (take FRAME_BYTES piece.now) → ⊥ }
{
    match piece.first_chunk::<FRAME_BYTES>() {
        Some(frame) => { if is_proper(frame) { Some(frame) } else { None } }
        None => None,
    }
}
