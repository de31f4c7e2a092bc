//! A whole frame at the front of a piece, and where its bytes are.

ghost use Rattle.std.specs.Prelude.{◌≡◌, ◌≤◌, ◌+◌, ◌*◌, ◌^◌, ℕ, List, length, take, IfSome, IsNone};
ghost use Rattle.trace_values.specs.Placed.{placed_from};
ghost use Rattle.frame_grammar.specs.Reading.{offsets_of};
ghost use Rattle.frame_grammar.specs.Whole.{IsWhole, without_halves};
ghost use Rattle.frame_grammar.specs.declared.frame.TheConstants.{FRAME_BYTES};
ghost use Rattle.frame_grammar.specs.declared.gather.TheConstants.{MOST_BYTES};
ghost use Rattle.frame_grammar.specs.Frame.{IsProperFrame};
ghost use Rattle.frame_runs.specs.Gathered.{IsGathered, frame_places};

use frame_grammar::frame::FRAME_BYTES;
use frame_grammar::gather::{PlacedFrame, gather_frame_at};
use frame_grammar::plain::plain_frame;

/// How far behind the first byte of a frame each of its bytes is, where no half synchronisation is between them.
const IN_ORDER: [u8; FRAME_BYTES] = [0, 1, 2, 3, 4, 5, 6, 7, 8, 9, 10, 11, 12, 13, 14, 15];

/// The frame that the piece begins with, the first byte of which is at this offset: these bytes of it, with no half
/// synchronisation between them.
#[inline(always)]
pub fn place_plain(at: u64, _piece: &[u8], frame: &[u8; FRAME_BYTES]) -> PlacedFrame
    requires room { FRAME_BYTES ≤ length _piece.now }
    requires bytes { frame.now ≡ take FRAME_BYTES _piece.now }
    requires proper { IsProperFrame frame.now }
    ensures room { FRAME_BYTES + 2 * result.halves ≤ length _piece.now }
    ensures at { result.at ≡ at }
    ensures gathered { IsGathered at (take (FRAME_BYTES + 2 * result.halves) _piece.now) result }
{
    PlacedFrame {
        bytes: *frame,
        at,
        behind: IN_ORDER,
        halves: 0,
    }
}

/// The frame that the piece begins with, the first byte of which is at this offset, where all its bytes are there and
/// near one another. It is that of `gather_frame_at`, and found faster where no half synchronisation is between its
/// halfwords.
#[inline(always)]
pub fn place_frame(at: u64, piece: &[u8]) -> Option<PlacedFrame>
    requires { at + length piece.now ≤ 2 ^ 64 }
    ensures room { IfSome result (λ g. FRAME_BYTES + 2 * g.halves ≤ length piece.now) }
    ensures whole { IfSome result (λ g. IsWhole (take (FRAME_BYTES + 2 * g.halves) piece.now) g.bytes g.halves) }
    ensures at { IfSome result (λ g. g.at ≡ at) }
    ensures offsets { IfSome result (λ g. let w = placed_from at (take (FRAME_BYTES + 2 * g.halves) piece.now) in
        frame_places g ≡ offsets_of (without_halves w)) }
    ensures only { IsNone result → (n halves : ℕ) (frame : List ℕ) → n ≤ MOST_BYTES → n ≤ length piece.now →
        IsWhole (take n piece.now) frame halves → ⊥ }
{
    let Some(frame) = plain_frame(piece) else {
        return gather_frame_at(at, piece);
    };
    Some(place_plain(at, piece, frame))
}
