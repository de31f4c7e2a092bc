//! A whole frame that is taken apart into the runs of its sources.

ghost use Rattle.std.specs.Prelude.{◌≡◌, ◌≤◌, ◌<◌, ◌+◌, ◌^◌, length, Option};
ghost use Rattle.frame_runs.specs.declared.split.TheConstants.{DATA_BYTES};
ghost use Rattle.trace_values.specs.Cells.{source_id};
ghost use Rattle.frame_runs.specs.declared.run.TheConstants.{ROOM};

use crate::data::data_in_place;
use crate::named::late_ends;
use crate::pairs::RunEnds;
use crate::run::{ROOM, Run};
use frame_grammar::frame::FRAME_BYTES;
use frame_grammar::gather::PlacedFrame;
use trace_values::{Cell, SourceId};

/// How many bytes of a frame are data, but for its ID bytes.
const DATA_BYTES: usize = 15;

/// What an ID byte names where the bytes after it have no source.
const NO_SOURCE: u8 = 127;

/// The data of a frame in their places. It has no padding, which would be filled and copied with it.
#[derive(Drop)]
pub struct PlacedData {
    /// The data bytes, so that each run has its bytes one after the other. Behind them are bytes that are of no
    /// account.
    bytes: [u8; ROOM],
    /// How far behind the frame's first byte each of them is.
    behind: [u8; FRAME_BYTES],
    /// The offset of the frame's first byte.
    at: u64,
    ghost sized: { length bytes ≡ ROOM },
    ghost places: { length behind ≡ 16 },
    ghost near: { at + 255 < 2 ^ 64 },
}

impl PlacedData {
    ghost use Rattle.std.specs.Prelude.{drop, slice_index};
    ghost use Rattle.frame_grammar.specs.declared.frame.TheConstants.{FRAME_BYTES};
    ghost use Rattle.frame_runs.specs.Split.{IsDataOf};

    /// Those of this frame.
    #[inline(always)]
    pub fn of(frame: &PlacedFrame) -> PlacedData
        requires near { frame.now.at + 255 < 2 ^ 64 }
        ensures { IsDataOf frame.now result }
    {
        let (data, behind) = data_in_place(&frame.bytes, &frame.behind);
        let mut bytes = [0; ROOM];
        bytes[..FRAME_BYTES].copy_from_slice(&data);
        PlacedData {
            bytes,
            behind,
            at: frame.at,
        }
    }

    /// The bytes from an index on.
    #[inline(always)]
    fn bytes_from(&self, from: usize) -> &[u8]
        requires { from ≤ ROOM }
        ensures { result.now ≡ drop from self.now.bytes }
    {
        &self.bytes[from..]
    }

    /// The offset of the byte at an index.
    #[inline(always)]
    fn offset_of(&self, index: usize) -> u64
        requires { index < FRAME_BYTES }
        ensures { result ≡ self.now.at + slice_index self.now.behind index }
    {
        self.at + u64::from(self.behind[index])
    }

    /// The byte at an index.
    #[inline(always)]
    fn byte_at(&self, index: usize) -> u8
        requires { index < FRAME_BYTES }
        ensures { result ≡ slice_index self.now.bytes index }
    {
        self.bytes[index]
    }
}

/// A run that has begun.
#[derive(Clone, Copy, Drop)]
struct Begun {
    /// The number of its source. It has none where this is `NO_SOURCE`.
    number: u8,
    /// How many IDs the frame has named up to it.
    run: u8,
    /// The index of its first byte.
    from: usize,
}

/// The number of this source, or of none.
#[inline(always)]
fn number_of(source: &Option<SourceId>) -> u8
    ensures { source_id result ≡ source.now }
{
    match source {
        Some(id) => id.number(),
        None => NO_SOURCE,
    }
}

/// The runs of a frame that are still to be taken.
#[derive(Clone, Copy, Drop)]
pub struct RunsLeft {
    /// The first of them.
    begun: Begun,
    /// The pairs at which they end.
    ends: RunEnds,
}

/// A whole frame, with its data in their places. Of both only the data need be in memory: what is not in line gets no
/// reference to the frame.
#[derive(Drop)]
pub struct SplitFrame<'a> {
    frame: &'a PlacedFrame,
    placed: &'a PlacedData,
    /// The pairs at which its runs end, and those of which end late.
    ends: RunEnds,
    late: usize,
    /// The ID before it.
    id: Option<SourceId>,
}

impl<'f> SplitFrame<'f> {
    ghost use Rattle.std.specs.Prelude.{◌*◌, ◌/◌, [], None, IfSome, slice_index};
    ghost use Rattle.frame_runs.specs.Pairs.{end_at};
    ghost use Rattle.frame_runs.specs.Split.{IsDataOf, IsFirstRun, IsLeft, IsSplit, left_cells, run_in, split_cells};

    /// This frame, of which these are the data, and which comes after this ID.
    #[inline(always)]
    pub fn of(
        frame: &'f PlacedFrame,
        placed: &'f PlacedData,
        id: &Option<SourceId>,
    ) -> SplitFrame<'f>
        requires { IsDataOf frame.now placed.now }
        ensures frame { result.frame.now ≡ frame.now }
        ensures id { result.id ≡ id.now }
        ensures split { IsSplit result }
    {
        SplitFrame {
            frame,
            placed,
            ends: RunEnds::of(&frame.bytes),
            late: usize::from(late_ends(&frame.bytes)),
            id: *id,
        }
    }

    /// The same frame with the same data. What it refers to need not be in memory for a call that takes the copy.
    #[inline(always)]
    pub fn copied(&self) -> SplitFrame<'f>
        ensures { result ≡ self.now }
    {
        SplitFrame {
            frame: self.frame,
            placed: self.placed,
            ends: self.ends,
            late: self.late,
            id: self.id,
        }
    }

    /// All its runs.
    #[inline(always)]
    pub fn runs(&self) -> RunsLeft
        requires { IsSplit self.now }
        ensures left { IsLeft self.now result }
        ensures all { left_cells self.now result ≡ split_cells self.now }
    {
        RunsLeft {
            begun: Begun {
                number: number_of(&self.id),
                run: 0,
                from: 0,
            },
            ends: self.ends,
        }
    }

    /// The next of its runs that are left, which is then taken from them.
    #[inline(always)]
    pub fn next_run(&self, left: &mut RunsLeft) -> Option<SplitRun<'f>>
        requires split { IsSplit self.now }
        requires left { IsLeft self.now left.old }
        ensures left { IfSome result (λ run. IsLeft self.now left.new) }
        ensures none { result ≡ None → left_cells self.now left.old ≡ [] }
        ensures first { IfSome result (λ run.
            IsFirstRun (left_cells self.now left.old) (run_in run) (left_cells self.now left.new)) }
    {
        while let Some(pair) = left.ends.next() {
            let end = self.end_of(pair);
            let begun = left.begun;
            left.begun = self.begun_after(begun.run, pair, end);
            if begun.from < end {
                return Some(SplitRun {
                    placed: self.placed,
                    number: begun.number,
                    run: begun.run,
                    from: begun.from as u16,
                    end: end as u32,
                });
            }
        }
        None
    }

    /// What begins where the run of this number ends, at this pair and before this index.
    #[inline(always)]
    fn begun_after(&self, run: u8, pair: usize, end: usize) -> Begun
        requires pair { pair < 8 }
        requires run { run ≤ pair }
        requires end { end ≤ DATA_BYTES }
        ensures { result ≡ record {
          number = slice_index self.now.frame.now.bytes (2 * pair) / 2;
          run = run + 1;
          from = end + 1;
        } }
    {
        Begun {
            number: self.frame.bytes[2 * pair] / 2,
            run: run + 1,
            from: end + 1,
        }
    }

    /// The index after the last byte of the run that ends at this pair.
    #[inline(always)]
    fn end_of(&self, pair: usize) -> usize
        requires split { IsSplit self.now }
        requires pair { pair < 8 }
        ensures is { result ≡ end_at self.now.frame.now.bytes pair }
        ensures within { result ≤ DATA_BYTES }
    {
        2 * pair + (self.late >> pair) % 2
    }
}

/// A run of a frame. Its fields are so small that it has no padding, either.
#[derive(Drop)]
pub struct SplitRun<'a> {
    placed: &'a PlacedData,
    /// The number of its source, as in `Begun`.
    number: u8,
    /// How many IDs the frame has named up to it.
    run: u8,
    /// The index of its first byte.
    from: u16,
    /// The index after its last byte.
    end: u32,
    ghost some: { from < end },
    ghost within: { end ≤ DATA_BYTES },
}

impl SplitRun<'_> {
    ghost use Rattle.frame_runs.specs.Run.{IsRunOf};
    ghost use Rattle.frame_runs.specs.Split.{run_in};

    /// The source of its bytes, if they have one.
    #[inline(always)]
    pub fn source(&self) -> Option<SourceId>
        ensures { IsRunOf result (run_in self.now) }
    {
        SourceId::new(self.number)
    }
}

impl Run for SplitRun<'_> {
    ghost use Rattle.frame_runs.specs.Split.{run_in};

    ghost cells = { run_in };

    #[inline(always)]
    fn len(&self) -> usize {
        self.end as usize - self.from as usize
    }

    #[inline(always)]
    fn is_piece(&self) -> bool {
        false
    }

    #[inline(always)]
    fn ahead(&self) -> &[u8] {
        self.placed.bytes_from(self.from as usize)
    }

    #[inline(always)]
    fn cell(&self, index: usize) -> Cell {
        let here = self.from as usize + index;
        Cell {
            at: self.placed.offset_of(here),
            id: SourceId::new(self.number),
            run: self.run,
            byte: self.placed.byte_at(here),
        }
    }
}
