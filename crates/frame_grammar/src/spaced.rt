//! A frame whose bytes are all in a piece, with a half synchronisation in each gap between its halfwords.

ghost use Rattle.std.specs.Prelude.{◌≡◌, ◌≢◌, ◌≤◌, ◌<◌, ◌+◌, ◌*◌, ◌^◌, ℕ, length, take, IfSome, IsTrue, slice_index};
ghost use Rattle.frame_grammar.specs.Placing.{BeginsPiece};
ghost use Rattle.frame_grammar.specs.declared.spaced.TheConstants.{GAPS, SPACED_BYTES};

use crate::frame::FRAME_BYTES;
use crate::gather::PlacedFrame;
use crate::words::is_spaced_word;

/// How many gaps are between the halfwords of a frame.
const GAPS: usize = 7;

/// How many bytes the frame and its half synchronisations have.
const SPACED_BYTES: usize = FRAME_BYTES + 2 * GAPS;

/// From this index on a half synchronisation follows each of two halfwords, neither of which begins with FF.
#[inline(always)]
fn has_gaps(piece: &[u8], from: usize) -> bool
    requires { from + 8 ≤ length piece.now }
    ensures words { IsTrue result → (k : ℕ) → k < 2 → slice_index piece.now (from + 4 * k) ≢ 255 }
    ensures gaps { IsTrue result → (k : ℕ) → k < 2 →
        (slice_index piece.now (from + 4 * k + 2) ≡ 255) × (slice_index piece.now (from + 4 * k + 3) ≡ 127) }
{
    match piece[from..].first_chunk::<8>() {
        Some(word) => is_spaced_word(word),
        None => false,
    }
}

/// One half synchronisation is in each gap between the halfwords that the piece begins with, and none of the eight
/// begins with FF.
#[inline(always)]
fn is_spaced(piece: &[u8]) -> bool
    requires { SPACED_BYTES ≤ length piece.now }
    ensures words { IsTrue result → (k : ℕ) → k < 8 → slice_index piece.now (4 * k) ≢ 255 }
    ensures gaps { IsTrue result → (k : ℕ) → k < GAPS →
        (slice_index piece.now (4 * k + 2) ≡ 255) × (slice_index piece.now (4 * k + 3) ≡ 127) }
{
    // There are seven gaps, so that the words at 16 and 20 have one of them in common.
    has_gaps(piece, 0)
        & has_gaps(piece, 8)
        & has_gaps(piece, 16)
        & has_gaps(piece, 20)
        & (piece[28] != 0xFF)
}

/// The frame that the piece begins with, the first byte of which is at this offset, where it has one half
/// synchronisation in each gap. None says nothing of the piece.
#[inline(always)]
pub(crate) fn spaced_frame(at: u64, piece: &[u8]) -> Option<PlacedFrame>
    requires { at + length piece.now ≤ 2 ^ 64 }
    ensures at { IfSome result (λ g. g.at ≡ at) }
    ensures front { IfSome result (λ g. BeginsPiece at piece.now g.bytes g.behind g.halves) }
{
    if piece.len() < SPACED_BYTES || !is_spaced(piece) {
        return None;
    }
    Some(PlacedFrame {
        bytes: [
            piece[0], piece[1], piece[4], piece[5], piece[8], piece[9], piece[12], piece[13],
            piece[16], piece[17], piece[20], piece[21], piece[24], piece[25], piece[28], piece[29],
        ],
        at,
        behind: [0, 1, 4, 5, 8, 9, 12, 13, 16, 17, 20, 21, 24, 25, 28, 29],
        halves: GAPS,
    })
}
