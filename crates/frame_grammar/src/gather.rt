//! A frame whose bytes are all in a piece, with half synchronisations between its halfwords, and where its bytes are.

ghost use Rattle.std.specs.Prelude.{◌≡◌, ◌≤◌, ◌<◌, ◌+◌, ◌*◌, ◌^◌, ℕ, List, length, take, IfSome, IsNone, slice_index};
ghost use Rattle.frame_grammar.specs.Names.{placed_from};
ghost use Rattle.frame_grammar.specs.Placing.{BeginsPiece, places_of};
ghost use Rattle.frame_grammar.specs.Reading.{offsets_of};
ghost use Rattle.frame_grammar.specs.Whole.{IsWhole, without_halves};
ghost use Rattle.frame_grammar.specs.declared.frame.TheConstants.{FRAME_BYTES};
ghost use Rattle.frame_grammar.specs.declared.gather.TheConstants.{MOST_BYTES};

use crate::frame::FRAME_BYTES;
use crate::spaced::spaced_frame;

/// The most bytes that a frame and its half synchronisations may have here, so that how far behind the first byte
/// another one is fits a byte. A longer frame is left to what reads byte by byte.
pub const MOST_BYTES: usize = 256;

/// A frame gathered from a piece that has half synchronisations between its halfwords.
#[derive(Clone, Copy, Drop)]
pub struct PlacedFrame {
    /// The bytes of the frame.
    pub bytes: [u8; FRAME_BYTES],
    /// The offset of the first of them.
    pub at: u64,
    /// How far behind the first one each of them is.
    pub behind: [u8; FRAME_BYTES],
    /// How many half synchronisations are between its halfwords.
    pub halves: usize,
    ghost fits: { FRAME_BYTES + 2 * halves < 2 ^ 64 },
}

impl PlacedFrame {
    /// How many bytes of the piece it takes: those of the frame, and two for each half synchronisation.
    #[inline]
    pub fn size(&self) -> usize
        ensures { result ≡ FRAME_BYTES + 2 * self.now.halves }
    {
        FRAME_BYTES + 2 * self.halves
    }
}

/// The frame that a piece of few bytes begins with, the first byte of which is at this offset, where all its bytes are
/// there.
fn gather_near(at: u64, piece: &[u8]) -> Option<PlacedFrame>
    requires few { length piece.now ≤ MOST_BYTES }
    requires fits { at + length piece.now ≤ 2 ^ 64 }
    ensures at { IfSome result (λ g. g.at ≡ at) }
    ensures front { IfSome result (λ g. BeginsPiece at piece.now g.bytes g.behind g.halves) }
    ensures only { IsNone result → (n halves : ℕ) (frame : List ℕ) → n ≤ length piece.now →
        IsWhole (take n piece.now) frame halves → ⊥ }
{
    let mut bytes = [0; FRAME_BYTES];
    let mut behind = [0; FRAME_BYTES];
    let mut words = 0;
    let mut from = 0;
    while words < 8 {
        let [first, second] = *piece[from..].first_chunk::<2>()?;
        if first != 0xFF {
            bytes[2 * words] = first;
            bytes[2 * words + 1] = second;
            behind[2 * words] = from as u8;
            behind[2 * words + 1] = from as u8 + 1;
            words += 1;
        } else if words == 0 || second != 0x7F {
            return None;
        }
        from += 2;
    }
    Some(PlacedFrame {
        bytes,
        at,
        behind,
        halves: from / 2 - 8,
    })
}

/// The frame that the piece begins with, the first byte of which is at this offset, where all its bytes are there and
/// are no more than `MOST_BYTES`.
#[inline(never)]
pub fn gather_frame_at(at: u64, piece: &[u8]) -> Option<PlacedFrame>
    requires { at + length piece.now ≤ 2 ^ 64 }
    ensures at { IfSome result (λ g. g.at ≡ at) }
    ensures room { IfSome result (λ g. FRAME_BYTES + 2 * g.halves ≤ length piece.now) }
    ensures whole { IfSome result (λ g. IsWhole (take (FRAME_BYTES + 2 * g.halves) piece.now) g.bytes g.halves) }
    ensures offsets { IfSome result (λ g. let w = placed_from at (take (FRAME_BYTES + 2 * g.halves) piece.now) in
        places_of g.at g.behind ≡ offsets_of (without_halves w)) }
    ensures near { IfSome result (λ g. (i : ℕ) → i < FRAME_BYTES →
        slice_index g.behind i < FRAME_BYTES + 2 * g.halves) }
    ensures only { IsNone result → (n halves : ℕ) (frame : List ℕ) → n ≤ MOST_BYTES → n ≤ length piece.now →
        IsWhole (take n piece.now) frame halves → ⊥ }
{
    if let Some(spaced) = spaced_frame(at, piece) {
        return Some(spaced);
    }
    gather_near(at, &piece[..piece.len().min(MOST_BYTES)])
}
