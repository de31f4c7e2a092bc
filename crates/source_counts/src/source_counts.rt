//! Counts of all sources.

ghost use Rattle.std.specs.Prelude.{◌≡◌, ℕ, ◌≤◌, slice_index};
ghost use Rattle.source_counts.specs.Adding.{begins_item, items_by_run};
ghost use Rattle.trace_values.specs.declared.limits.TheConstants.{COUNT_ROOM};
ghost use Rattle.frame_grammar.specs.declared.frame.TheConstants.{FRAME_BYTES};
ghost use Rattle.frame_grammar.specs.declared.source_bytes.TheConstants.{NO_ID};

use crate::counts::Counts;
use frame_grammar::frame::FRAME_BYTES;
use frame_grammar::source_bytes::{NO_ID, id_bits};
use trace_values::{Cell, ID_COUNT, SourceId};

/// The null source, whose bytes make no items.
const NULL: u8 = 0;

/// The trigger source, each of whose bytes is an item.
const TRIGGER: u8 = 125;

/// Counts the bytes and items of each source frame by frame.
///
/// The null source has no items, and each byte of the trigger source is one. The bytes of any other source
/// in one run of one frame are one item.
#[derive(Debug, Drop)]
pub struct SourceCounts {
    bytes: [u64; ID_COUNT],
    items: [u64; ID_COUNT],
    unattributed: u64,
    frames: u64,
    ghost fewer: { (id : ℕ) → slice_index items id ≤ slice_index bytes id },
}

impl SourceCounts {
    ghost use Rattle.std.specs.Prelude.{◌≡◌, ◌≤◌, ◌<◌, ◌+◌, ℕ, List, [], ◌∷◌, ◌++◌, length, slice_index, Option};
    ghost use Rattle.std.specs.Prelude.{is_none, if◌then◌else◌};
    ghost use Rattle.trace_values.specs.declared.cell.Cell.{Cell};
    ghost use Rattle.frame_grammar.specs.Runs.{HasRuns};
    ghost use Rattle.source_counts.specs.Counts.{bytes_of, items_of, unattributed_of};
    ghost use Rattle.trace_values.specs.Cells.{source_id};
    ghost use Rattle.frame_grammar.specs.Frame.{cells, id_after};
    ghost use Rattle.source_counts.specs.Adding.{byte_by, item_by, run_bytes, run_items};
    ghost use Rattle.source_counts.specs.Kept.{Stands, HasBytes, HasItems, total_of};

    /// The counts before the first frame.
    pub fn new() -> SourceCounts
        ensures fresh { Stands result [] }
        ensures total { total_of result ≡ 0 }
    {
        SourceCounts {
            bytes: [0; ID_COUNT],
            items: [0; ID_COUNT],
            unattributed: 0,
            frames: 0,
        }
    }

    /// Counts the cells of one more frame, which may be none.
    ///
    /// With them at most `COUNT_ROOM` cells and frames have been counted. The items are counted by neighbours, which is
    /// right where the runs never fall, as those of a frame's cells.
    pub fn add_frame(&mut self, cells: &[Cell])
        requires { total_of self.old + length cells.now + 1 ≤ COUNT_ROOM }
        ensures bytes { (frames : List (List Cell)) → HasBytes self.old frames →
            HasBytes self.new (frames ++ cells.now ∷ []) }
        ensures items { (frames : List (List Cell)) → HasRuns cells.now → HasItems self.old frames →
            HasItems self.new (frames ++ cells.now ∷ []) }
        ensures total { total_of self.new ≡ total_of self.old + length cells.now + 1 }
    {
        let mut before = None;
        for cell in cells {
            self.add_cell(cell, before != Some(cell.run));
            before = Some(cell.run);
        }
        self.frames += 1;
    }

    /// Counts the cells of one more frame by its bytes, where `before` is the ID before it, and gives the ID after it.
    ///
    /// With them at most `COUNT_ROOM` cells and frames have been counted.
    pub fn add_frame_bytes(
        &mut self,
        frame: &[u8; FRAME_BYTES],
        before: Option<SourceId>,
    ) -> Option<SourceId>
        requires { total_of self.old + FRAME_BYTES ≤ COUNT_ROOM }
        ensures bytes { (frames : List (List Cell)) (at : List ℕ) → HasBytes self.old frames →
            HasBytes self.new (frames ++ cells frame.now at before ∷ []) }
        ensures items { (frames : List (List Cell)) (at : List ℕ) → HasItems self.old frames →
            HasItems self.new (frames ++ cells frame.now at before ∷ []) }
        ensures after { result ≡ id_after frame.now before }
        ensures total { total_of self.new ≤ total_of self.old + FRAME_BYTES }
    {
        let auxiliary = frame[15];
        let mut id = id_bits(before);
        // How many cells of the run are not counted yet.
        let mut pending = 0u64;
        for pair in 0..7 {
            let mixed = frame[2 * pair];
            if mixed % 2 == 0 {
                pending += 2;
            } else {
                // The byte after an ID that is deferred is of the run before.
                let deferred = u64::from((auxiliary >> pair) % 2);
                self.add_run(id, pending + deferred);
                id = mixed / 2;
                pending = 1 - deferred;
            }
        }
        let last = frame[14];
        if last % 2 == 0 {
            self.add_run(id, pending + 1);
            self.frames += 1;
            SourceId::new(id)
        } else {
            self.add_run(id, pending);
            self.frames += 1;
            SourceId::new(last / 2)
        }
    }

    /// Counts this many cells of one run, whose ID has these seven bits, or `NO_ID`.
    #[inline]
    fn add_run(&mut self, id: u8, count: u64)
        requires id { id ≤ NO_ID }
        requires room { total_of self.old + count ≤ COUNT_ROOM }
        ensures bytes { (k : ℕ) → slice_index self.new.bytes k ≡
            slice_index self.old.bytes k + run_bytes k (source_id id) count }
        ensures items { (k : ℕ) → slice_index self.new.items k ≡
            slice_index self.old.items k + run_items k (source_id id) count }
        ensures unattributed { self.new.unattributed ≡
            self.old.unattributed + (if is_none (source_id id) then count else 0) }
        ensures frames { self.new.frames ≡ self.old.frames }
        ensures total { total_of self.new ≡ total_of self.old + count }
    {
        if id == NO_ID {
            self.unattributed += count;
        } else {
            let source = usize::from(id);
            self.bytes[source] += count;
            self.items[source] += items_of_run(id, count);
        }
    }

    /// Counts a cell, which begins a run or not.
    fn add_cell(&mut self, cell: &Cell, new_run: bool)
        requires { total_of self.old < COUNT_ROOM }
        ensures bytes { (id : ℕ) → slice_index self.new.bytes id ≡
            slice_index self.old.bytes id + byte_by id cell.now.id }
        ensures items { (id : ℕ) → slice_index self.new.items id ≡
            slice_index self.old.items id + item_by id cell.now.id new_run }
        ensures unattributed { self.new.unattributed ≡ self.old.unattributed + (if is_none cell.now.id then 1 else 0) }
        ensures frames { self.new.frames ≡ self.old.frames }
        ensures total { total_of self.new ≡ total_of self.old + 1 }
    {
        match cell.id {
            Some(id) => self.add_byte(id.number(), new_run),
            None => self.unattributed += 1,
        }
    }

    /// Counts a byte of the source of this number, which begins a run or not.
    fn add_byte(&mut self, id: u8, new_run: bool)
        requires source { id ≤ 126 }
        requires room { total_of self.old < COUNT_ROOM }
        ensures bytes { (k : ℕ) → slice_index self.new.bytes k ≡ slice_index self.old.bytes k + byte_by k (Some id) }
        ensures items { (k : ℕ) → slice_index self.new.items k ≡
            slice_index self.old.items k + item_by k (Some id) new_run }
        ensures unattributed { self.new.unattributed ≡ self.old.unattributed }
        ensures frames { self.new.frames ≡ self.old.frames }
        ensures total { total_of self.new ≡ total_of self.old + 1 }
    {
        let index = usize::from(id);
        self.bytes[index] += 1;
        if begins_item(id, new_run) {
            self.items[index] += 1;
        }
    }

    /// What a source has sent.
    pub fn of(&self, id: SourceId) -> Counts
        ensures bytes { (frames : List (List Cell)) → HasBytes self.now frames → result.bytes ≡ bytes_of id frames }
        ensures items { (frames : List (List Cell)) → HasItems self.now frames → result.items ≡ items_of id frames }
        ensures few { (result.bytes ≤ total_of self.now) × (result.items ≤ total_of self.now) }
    {
        let index = usize::from(id.number());
        Counts {
            bytes: self.bytes[index],
            items: self.items[index],
        }
    }

    /// How many bytes have no source.
    pub fn unattributed(&self) -> u64
        ensures { (frames : List (List Cell)) → HasBytes self.now frames → result ≡ unattributed_of frames }
    {
        self.unattributed
    }

    /// How many frames were counted.
    pub fn frames(&self) -> u64
        ensures { (frames : List (List Cell)) → HasBytes self.now frames → result ≡ length frames }
    {
        self.frames
    }
}

/// The items of this many cells of one run: each cell of the trigger source, none of the null source, and one of any
/// other.
#[inline]
fn items_of_run(id: u8, count: u64) -> u64
    ensures items { result ≡ items_by_run id count }
    ensures few { result ≤ count }
{
    if id == NULL {
        0
    } else if id == TRIGGER {
        count
    } else {
        count.min(1)
    }
}

/// A byte of this source begins an item: each of the trigger source does, and one of another source but
/// the null source where it begins a run.
fn begins_item(id: u8, new_run: bool) -> bool
    ensures { result ≡ begins_item id new_run }
{
    match id {
        NULL => false,
        TRIGGER => true,
        _ => new_run,
    }
}
