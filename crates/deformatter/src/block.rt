//! Bytes of a piece at once.

ghost use Rattle.std.specs.Prelude.{◌≡◌, ◌<◌, ◌≤◌, ◌+◌, ◌++◌, [], ℕ, List, length, take, true, IfSome, slice_index};
ghost use Rattle.std.specs.List.{range_with_len};
ghost use Rattle.deformatter.specs.Names.{Placed, placed_from, IsProperFrame, COUNT_ROOM, PART_ROOM, FRAME_BYTES};
ghost use Rattle.deformatter.specs.declared.step.PortStep.TheVariants.{Frame};
ghost use Rattle.deformatter.specs.Block.{TakesBlock, TakesPiece};
ghost use Rattle.deformatter.specs.Frames.{IsBetween};
ghost use Rattle.deformatter.specs.Deformatter.{Stands, is_hunter, is_live, tail_of, skipped_by};

use crate::deformatter::Deformatter;
use crate::step::PortStep;
use arrayvec::ArrayVec;
use frame_grammar::frame::{FRAME_BYTES, cells_of};
use frame_grammar::plain::plain_frame;
use trace_values::Cell;

/// What a deformatter took of a piece.
#[derive(Clone, Copy, Drop)]
pub struct Taken {
    /// How many bytes from its front, at least one.
    pub bytes: usize,
    /// The answer to the last of them. All before it were `Quiet`.
    pub step: PortStep,
}

/// The offsets of the bytes of a frame, the first of which is at this one.
#[inline]
fn offsets_from(at: u64) -> [u64; FRAME_BYTES]
    requires { at ≤ COUNT_ROOM }
    ensures { result ≡ range_with_len at FRAME_BYTES }
{
    let mut offsets = [0; FRAME_BYTES];
    for index in 0..FRAME_BYTES {
        offsets[index] = at + index as u64;
    }
    offsets
}

impl Deformatter {
    /// Takes bytes from the front of a piece, the first of which is at this offset of the capture, up to the
    /// first to which the answer is not `Quiet`, or to the piece's end. It answers and leaves what feeding
    /// these bytes one by one does. Where the last of them ends a frame, `out` has the frame's cells
    /// afterwards, and else nothing.
    ///
    /// The piece has a byte. The offset, the piece's length, and the bytes that were skipped and that are
    /// left over are each at most `PART_ROOM`.
    pub fn feed_block(&mut self, at: u64, piece: &[u8], out: &mut ArrayVec<Cell, 15>) -> Taken
        requires live { is_live self.old ≡ true }
        requires out { out.old.items ≡ [] }
        requires some { 0 < length piece.now }
        requires offset { at ≤ PART_ROOM }
        requires length { length piece.now ≤ PART_ROOM }
        requires room { tail_of self.old ≤ PART_ROOM }
        requires count { skipped_by self.old ≤ PART_ROOM }
        ensures { TakesPiece self.old self.new at piece.now result out.new.items }
    {
        match self.next_frame(piece) {
            Some(frame) => {
                self.take_frame(at, frame, out);
                Taken {
                    bytes: FRAME_BYTES,
                    step: PortStep::Frame,
                }
            }
            None => self.feed_bytes(at, piece, out),
        }
    }

    /// The frame that may be taken at once: the piece's first 16 bytes, where nothing of a frame or a
    /// synchronisation is there, the reading has begun, and none of those at even indexes is FF.
    #[inline]
    fn next_frame<'a>(&self, piece: &'a [u8]) -> Option<&'a [u8; FRAME_BYTES]>
        ensures between { IfSome result (λ f. IsBetween self.now) }
        ensures bytes { IfSome result (λ f. f.now ≡ take FRAME_BYTES piece.now) }
        ensures room { IfSome result (λ f. FRAME_BYTES ≤ length piece.now) }
        ensures proper { IfSome result (λ f. IsProperFrame f.now) }
    {
        if self.is_between() {
            plain_frame(piece)
        } else {
            None
        }
    }

    /// Takes a whole frame, whose first byte is at this offset.
    #[inline]
    fn take_frame(&mut self, at: u64, frame: &[u8; FRAME_BYTES], out: &mut ArrayVec<Cell, 15>)
        requires live { is_live self.old ≡ true }
        requires between { IsBetween self.old }
        requires proper { IsProperFrame frame.now }
        requires out { out.old.items ≡ [] }
        requires offset { at ≤ PART_ROOM }
        ensures same { is_hunter self.new ≡ is_hunter self.old }
        ensures takes { (u : List Placed) → Stands self.old u →
            TakesBlock self.old self.new u
            (record { at = at; bytes = frame.now; step = Frame; given = out.new.items }) }
        ensures live { is_live self.new ≡ true }
        ensures few { tail_of self.new + skipped_by self.new ≡ tail_of self.old + skipped_by self.old }
    {
        let after = cells_of(frame, &offsets_from(at), self.id(), out);
        self.pass_frame(after);
    }

    /// Takes bytes one by one, up to the first to which the answer is not `Quiet`.
    fn feed_bytes(&mut self, at: u64, piece: &[u8], out: &mut ArrayVec<Cell, 15>) -> Taken
        requires live { is_live self.old ≡ true }
        requires out { out.old.items ≡ [] }
        requires some { 0 < length piece.now }
        requires offset { at ≤ PART_ROOM }
        requires length { length piece.now ≤ PART_ROOM }
        requires room { tail_of self.old ≤ PART_ROOM }
        requires count { skipped_by self.old ≤ PART_ROOM }
        ensures { TakesPiece self.old self.new at piece.now result out.new.items }
    {
        for (index, byte) in piece.iter().enumerate() {
            match self.feed(at + index as u64, *byte, out) {
                PortStep::Quiet => {}
                step => {
                    return Taken {
                        bytes: index + 1,
                        step,
                    };
                }
            }
        }
        Taken {
            bytes: piece.len(),
            step: PortStep::Quiet,
        }
    }
}
