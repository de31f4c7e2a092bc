//! The reading of a capture that goes on after each fault.

ghost use Rattle.std.specs.Prelude.{◌≡◌, ◌+◌, ◌*◌, ◌<◌, ◌≤◌, length, take, IfSome};
ghost use Rattle.recovering_machines.specs.Port.{total_of};
ghost use Rattle.recovery_engine.specs.Counting.{counted_of};
ghost use Rattle.recovery_engine.specs.Slots.{total};
ghost use Rattle.recovery_engine.specs.declared.engine.TheConstants.{END_ROOM, GREATEST_OFFSET};

use crate::counts::PortTotals;
use crate::ends::{port_end, source_tails};
use crate::router::{take_each, take_step, take_whole};
use crate::slot::{Slots, slots_of};
use arrayvec::ArrayVec;
use frame_grammar::gather::{PlacedFrame, gather_frame_at};
use frame_grammar::plain::plain_frame;
use frame_runs::{PieceRun, bare_source, place_plain};
use recovering_machines::{Receiver, RecoveringPort};
use source_counts::Counts;
use source_events::{Plan, PortCounts, SourceKind, Tails};
use source_machine::AHEAD;
use trace_values::{Cell, FramesMode, SourceId};

/// The greatest offset of a byte of a capture.
pub const GREATEST_OFFSET: u64 = 1 << 36;

/// A piece of at most this many bytes is copied, so that there are others after it.
const END_ROOM: usize = 96;

/// So many bytes from the front of a piece, with others after them.
#[inline(always)]
fn padded(piece: &[u8], count: usize) -> [u8; END_ROOM]
    requires within { count ≤ length piece.now }
    requires room { count ≤ END_ROOM }
    ensures { take count result ≡ take count piece.now }
{
    let mut ahead = [0; END_ROOM];
    ahead[..count].copy_from_slice(&piece[..count]);
    ahead
}

/// Reads a capture piece by piece, its port and each mapped source, and gives the events of its recovering report in
/// order, with guesses or without.
///
/// It **stands for** a list of placed bytes if what it keeps is that of the list's report. Its clauses hold for every
/// list that it stood for before the call; a new one stands for the empty list.
#[derive(Drop)]
pub struct Recovery {
    plan: Plan,
    /// Guesses are given.
    guesses: bool,
    port: RecoveringPort,
    slots: Slots,
    totals: PortTotals,
    /// The cells of the frame that is taken.
    cells: ArrayVec<Cell, 15>,
    /// How many bytes were fed.
    count: u64,
    /// One more than the last offset.
    next: u64,
    ghost port_few: { total_of port ≤ 8 * count },
    ghost few: { total slots.items ≤ 90 * count },
    ghost counted_few: { counted_of totals ≤ 16 * count },
    ghost within: { count ≤ next },
    ghost limit: { next ≤ GREATEST_OFFSET + 1 },
}

impl Recovery {
    ghost use Rattle.std.specs.Prelude.{◌≢◌, ◌==◌, [], List, None, true, if◌then◌else◌};
    ghost use Rattle.trace_values.specs.declared.reading_modes.FramesMode.TheVariants.{Bare};
    ghost use Rattle.trace_values.specs.Placed.{Placed};
    ghost use Rattle.frame_grammar.specs.declared.frame.TheConstants.{FRAME_BYTES};
    ghost use Rattle.frame_runs.specs.Gathered.{IsGathered};
    ghost use Rattle.recovering_machines.specs.Port.{IsBetween};
    ghost use Rattle.source_counts.specs.Counts.{bytes_of, items_of, unattributed_of};
    ghost use Rattle.source_events.specs.Plan as plans;
    ghost use Rattle.frame_runs.specs.Piece.{bytes_in};
    ghost use Rattle.recovery_report.specs.Counts.{port_counts_of};
    ghost use Rattle.recovery_report.specs.Port.{frames_of, recovered};
    ghost use Rattle.recovery_report.specs.Report.{tails_of};
    ghost use Rattle.recovery_engine.specs.Engine.{Stands, guesses_of, next_of, plan_of};
    ghost use Rattle.recovery_engine.specs.Front.{CountsFront, PassesGathered, TakesFront};

    /// An engine before the first byte.
    pub fn new(plan: Plan, guesses: bool) -> Recovery
        ensures plan { plan_of result ≡ plan }
        ensures guesses { guesses_of result ≡ guesses }
        ensures fresh { Stands result [] }
        ensures next { next_of result ≡ 0 }
    {
        let slots = slots_of(&plan, guesses);
        let port = match plan.frames {
            FramesMode::Hunt => RecoveringPort::hunting(),
            FramesMode::Aligned | FramesMode::Bare => RecoveringPort::aligned(),
        };
        Recovery {
            plan,
            guesses,
            port,
            slots,
            totals: PortTotals::new(),
            cells: ArrayVec::new(),
            count: 0,
            next: 0,
        }
    }

    /// Takes bytes from the front of a piece, the first of which is at this offset, and gives the events that the
    /// recovering report grows by: a whole frame, or else bytes up to the first one that ends a frame or a
    /// synchronisation, or is a fault, or to the piece's end. With no formatter it takes bytes for whose events there
    /// is room.
    ///
    /// The piece has a byte, and there is room for 30 events. Its first offset is at least `next()`, and its last one
    /// at most `GREATEST_OFFSET`.
    #[inline(always)]
    pub fn take<V: Receiver>(&mut self, at: u64, piece: &[u8], out: &mut V, to: &mut V::To) -> usize
        requires some { 0 < length piece.now }
        requires offsets { (next_of self.old ≤ at) × (at + length piece.now ≤ GREATEST_OFFSET + 1) }
        requires room { 30 ≤ V.room (out.old, to.old) }
        ensures { TakesFront V.gets V.room at piece.now result
            (self.old, (out.old, to.old)) (self.new, (out.new, to.new)) }
    {
        match self.plan.frames {
            FramesMode::Bare => {
                if piece.len() > END_ROOM {
                    self.take_long(at, piece, out, to)
                } else {
                    self.take_short(at, piece, out, to)
                }
            }
            FramesMode::Hunt | FramesMode::Aligned => self.take_framed(at, piece, out, to),
        }
    }

    /// Takes bytes of a long piece of a capture with no formatter, where they are.
    #[inline(always)]
    fn take_long<V: Receiver>(
        &mut self,
        at: u64,
        piece: &[u8],
        out: &mut V,
        to: &mut V::To,
    ) -> usize
        requires bare { self.old.plan.frames ≡ Bare }
        requires some { END_ROOM < length piece.now }
        requires offsets { (next_of self.old ≤ at) × (at + length piece.now ≤ GREATEST_OFFSET + 1) }
        requires room { 30 ≤ V.room (out.old, to.old) }
        ensures { TakesFront V.gets V.room at piece.now result
            (self.old, (out.old, to.old)) (self.new, (out.new, to.new)) }
    {
        let count = (out.events_left(to) / 2).min(piece.len() - AHEAD);
        let run = PieceRun {
            at,
            count,
            ahead: piece,
        };
        self.take_piece(&run, out, to)
    }

    /// Takes bytes of a short piece of a capture with no formatter, which are copied.
    #[inline(never)]
    fn take_short<V: Receiver>(
        &mut self,
        at: u64,
        piece: &[u8],
        out: &mut V,
        to: &mut V::To,
    ) -> usize
        requires bare { self.old.plan.frames ≡ Bare }
        requires some { 0 < length piece.now }
        requires offsets { (next_of self.old ≤ at) × (at + length piece.now ≤ GREATEST_OFFSET + 1) }
        requires room { 30 ≤ V.room (out.old, to.old) }
        ensures { TakesFront V.gets V.room at piece.now result
            (self.old, (out.old, to.old)) (self.new, (out.new, to.new)) }
    {
        let most = (out.events_left(to) / 2).min(END_ROOM - AHEAD);
        let count = most.min(piece.len());
        let ahead = padded(piece, count);
        let run = PieceRun {
            at,
            count,
            ahead: &ahead,
        };
        self.take_piece(&run, out, to)
    }

    /// Takes this run of source 1 of a capture with no formatter, and answers how many bytes it has.
    #[inline(always)]
    fn take_piece<V: Receiver>(&mut self, run: &PieceRun, out: &mut V, to: &mut V::To) -> usize
        requires bare { self.old.plan.frames ≡ Bare }
        requires some { 0 < run.now.count }
        requires offsets { (next_of self.old ≤ run.now.at) × (run.now.at + run.now.count ≤ GREATEST_OFFSET + 1) }
        requires room { 2 * run.now.count ≤ V.room (out.old, to.old) }
        ensures { TakesFront V.gets V.room run.now.at (bytes_in run.now) result
            (self.old, (out.old, to.old)) (self.new, (out.new, to.new)) }
    {
        take_each(self.slots.as_mut_slice(), bare_source(), run, out, to);
        self.count += run.count as u64;
        self.next = run.at + run.count as u64;
        run.count
    }

    /// Takes the whole frame that a piece begins with, with half synchronisations between its halfwords or without, or
    /// else bytes as `take_step` does.
    #[inline(always)]
    fn take_framed<V: Receiver>(
        &mut self,
        at: u64,
        piece: &[u8],
        out: &mut V,
        to: &mut V::To,
    ) -> usize
        requires framed { self.old.plan.frames ≢ Bare }
        requires some { 0 < length piece.now }
        requires offsets { (next_of self.old ≤ at) × (at + length piece.now ≤ GREATEST_OFFSET + 1) }
        requires room { 30 ≤ V.room (out.old, to.old) }
        ensures { TakesFront V.gets V.room at piece.now result
            (self.old, (out.old, to.old)) (self.new, (out.new, to.new)) }
    {
        if self.is_between() {
            if let Some(frame) = plain_frame(piece) {
                let frame = place_plain(at, piece, frame);
                return self.take_gathered(at, piece, &frame, out, to);
            }
        }
        self.take_spaced(at, piece, out, to)
    }

    /// Takes the whole frame that a piece begins with, with half synchronisations between its halfwords, or else bytes
    /// as `take_step` does. Kept out of line: in line, its locals would be cleared before each plain frame.
    #[inline(never)]
    fn take_spaced<V: Receiver>(
        &mut self,
        at: u64,
        piece: &[u8],
        out: &mut V,
        to: &mut V::To,
    ) -> usize
        requires framed { self.old.plan.frames ≢ Bare }
        requires some { 0 < length piece.now }
        requires offsets { (next_of self.old ≤ at) × (at + length piece.now ≤ GREATEST_OFFSET + 1) }
        requires room { 30 ≤ V.room (out.old, to.old) }
        ensures { TakesFront V.gets V.room at piece.now result
            (self.old, (out.old, to.old)) (self.new, (out.new, to.new)) }
    {
        if self.is_between() {
            if let Some(frame) = &gather_frame_at(at, piece) {
                return self.take_gathered(at, piece, frame, out, to);
            }
        }
        self.take_step(at, piece, out, to)
    }

    /// Takes the whole frame that a piece begins with.
    #[inline(always)]
    fn take_gathered<V: Receiver>(
        &mut self,
        at: u64,
        _piece: &[u8],
        frame: &PlacedFrame,
        out: &mut V,
        to: &mut V::To,
    ) -> usize
        requires framed { self.old.plan.frames ≢ Bare }
        requires between { IsBetween self.old.port }
        requires offsets { (next_of self.old ≤ at) × (at + length _piece.now ≤ GREATEST_OFFSET + 1) }
        requires room { 30 ≤ V.room (out.old, to.old) }
        requires within { FRAME_BYTES + 2 * frame.now.halves ≤ length _piece.now }
        requires here { frame.now.at ≡ at }
        requires is { IsGathered frame.now.at (take (FRAME_BYTES + 2 * frame.now.halves) _piece.now) frame.now }
        ensures { TakesFront V.gets V.room at _piece.now result
            (self.old, (out.old, to.old)) (self.new, (out.new, to.new)) }
    {
        let before = self.port.id();
        self.pass_gathered(frame);
        take_whole(self.slots.as_mut_slice(), frame, &before, out, to);
        frame.size()
    }

    /// There is a formatter, and the port is between two frames.
    #[inline(always)]
    fn is_between(&self) -> bool
        ensures framed { result ≡ true → self.now.plan.frames ≢ Bare }
        ensures between { result ≡ true → IsBetween self.now.port }
    {
        match self.plan.frames {
            FramesMode::Bare => false,
            FramesMode::Hunt | FramesMode::Aligned => self.port.is_between(),
        }
    }

    /// Counts a whole frame, over which the port passes. Its runs are not taken.
    #[inline(always)]
    fn pass_gathered(&mut self, frame: &PlacedFrame)
        requires framed { self.old.plan.frames ≢ Bare }
        requires between { IsBetween self.old.port }
        requires offsets { (next_of self.old ≤ frame.now.at)
            × (frame.now.at + (FRAME_BYTES + 2 * frame.now.halves) ≤ GREATEST_OFFSET + 1) }
        ensures { PassesGathered frame.now self.old self.new }
    {
        let before = self.port.id();
        let after = self.totals.add_frame(&frame.bytes, frame.halves, before);
        self.port.pass_frame(after);
        let bytes = frame.size() as u64;
        self.count += bytes;
        self.next = frame.at + bytes;
    }

    /// Where no source is mapped: takes the whole frame that a piece begins with, whose first byte is at this offset,
    /// and answers how many bytes that is. It leaves what `take` does; the frame's events, none of which is a packet or
    /// a fault, are not made. None says nothing of the bytes, and takes none.
    #[inline(always)]
    pub fn count_frame(&mut self, at: u64, piece: &[u8]) -> Option<usize>
        requires offsets { (next_of self.old ≤ at) × (at + length piece.now ≤ GREATEST_OFFSET + 1) }
        ensures none { result ≡ None → self.new ≡ self.old }
        ensures counts { IfSome result (λ n. CountsFront at piece.now n self.old self.new) }
    {
        if !self.maps_none() || !self.is_between() {
            return None;
        }
        if let Some(frame) = plain_frame(piece) {
            let frame = place_plain(at, piece, frame);
            return Some(self.count_gathered(at, piece, &frame));
        }
        match &gather_frame_at(at, piece) {
            Some(frame) => Some(self.count_gathered(at, piece, frame)),
            None => None,
        }
    }

    /// Where no source is mapped: counts the whole frame that a piece begins with, over which the port passes.
    #[inline(always)]
    fn count_gathered(&mut self, at: u64, _piece: &[u8], frame: &PlacedFrame) -> usize
        requires none { self.old.slots.items ≡ [] }
        requires framed { self.old.plan.frames ≢ Bare }
        requires between { IsBetween self.old.port }
        requires offsets { (next_of self.old ≤ at) × (at + length _piece.now ≤ GREATEST_OFFSET + 1) }
        requires within { FRAME_BYTES + 2 * frame.now.halves ≤ length _piece.now }
        requires here { frame.now.at ≡ at }
        requires is { IsGathered frame.now.at (take (FRAME_BYTES + 2 * frame.now.halves) _piece.now) frame.now }
        ensures { CountsFront at _piece.now result self.old self.new }
    {
        self.pass_gathered(frame);
        frame.size()
    }

    /// Takes bytes of a capture in frames up to the first one that ends a frame or a synchronisation, or is a fault, or
    /// to the piece's end.
    fn take_step<V: Receiver>(
        &mut self,
        at: u64,
        piece: &[u8],
        out: &mut V,
        to: &mut V::To,
    ) -> usize
        requires framed { self.old.plan.frames ≢ Bare }
        requires some { 0 < length piece.now }
        requires offsets { (next_of self.old ≤ at) × (at + length piece.now ≤ GREATEST_OFFSET + 1) }
        requires room { 30 ≤ V.room (out.old, to.old) }
        ensures { TakesFront V.gets V.room at piece.now result
            (self.old, (out.old, to.old)) (self.new, (out.new, to.new)) }
    {
        self.cells.clear();
        let taken = self.port.feed_block(at, piece, &mut self.cells);
        let cells = self.cells.as_slice();
        self.totals.add_step(&taken.step, cells);
        let last = at + (taken.bytes as u64 - 1);
        take_step(self.slots.as_mut_slice(), last, taken.step, cells, out, to);
        self.count += taken.bytes as u64;
        self.next = at + taken.bytes as u64;
        taken.bytes
    }

    /// No source is mapped.
    #[inline(always)]
    fn maps_none(&self) -> bool
        ensures { result ≡ true → self.now.slots.items ≡ [] }
    {
        self.slots.is_empty()
    }

    /// 0 at first, and then one more than the last offset that was fed.
    pub fn next(&self) -> u64
        ensures next { result ≡ next_of self.now }
        ensures limit { next_of self.now ≤ GREATEST_OFFSET + 1 }
    {
        self.next
    }

    /// What it reads by.
    #[inline(always)]
    pub fn plan(&self) -> &Plan
        ensures { result.now ≡ plan_of self.now }
    {
        &self.plan
    }

    /// What kind a source is of, if it is mapped.
    pub fn kind_of(&self, id: SourceId) -> Option<SourceKind>
        ensures { result ≡ plans.kind_of (plan_of self.now) id }
    {
        self.plan.kind_of(id)
    }

    /// How many bytes a source has in the frames of all stretches, and how many items where it is not mapped.
    pub fn counts(&self, id: SourceId) -> Counts
        ensures value { (u : List Placed) → Stands self.now u →
            let frames = frames_of (recovered (plan_of self.now).frames u) in
            result ≡ record { bytes = bytes_of id frames; items = items_of id frames } }
        ensures few { (result.bytes ≤ 16 * next_of self.now) × (result.items ≤ 16 * next_of self.now) }
    {
        match self.plan.frames {
            FramesMode::Bare => {
                let bytes = self.bare_bytes(id);
                Counts {
                    bytes,
                    items: bytes,
                }
            }
            FramesMode::Hunt | FramesMode::Aligned => self.totals.of(id),
        }
    }

    /// How many bytes a source has where there is no formatter, each of which is an item.
    fn bare_bytes(&self, id: SourceId) -> u64
        ensures { result ≡ (if 1 == id then self.now.count else 0) }
    {
        if id == bare_source() { self.count } else { 0 }
    }

    /// How many bytes of frames have no source.
    fn unattributed(&self) -> u64
        ensures { (u : List Placed) → Stands self.now u →
            result ≡ unattributed_of (frames_of (recovered (plan_of self.now).frames u)) }
    {
        match self.plan.frames {
            FramesMode::Bare => 0,
            FramesMode::Hunt | FramesMode::Aligned => self.totals.unattributed(),
        }
    }

    /// How many synchronisations and frames the port has in all its stretches. Half synchronisations inside a frame
    /// that a fault breaks, or that is not finished, are counted too.
    pub fn port_counts(&self) -> PortCounts
        ensures { (u : List Placed) → Stands self.now u → result ≡ port_counts_of (plan_of self.now) u }
    {
        match self.plan.frames {
            FramesMode::Bare => PortCounts {
                fulls: 0,
                halves: 0,
                frames: self.count,
            },
            FramesMode::Hunt | FramesMode::Aligned => self.totals.port_counts(),
        }
    }

    /// How the capture ends here: how the last stretch of its port and of each mapped source was read, what all
    /// stretches skipped, and what is left over of the last.
    pub fn finish(&self) -> Tails
        ensures { (u : List Placed) → Stands self.now u → result ≡ tails_of (plan_of self.now) u }
    {
        let port = port_end(&self.port, self.plan.frames);
        Tails {
            bytes: self.count,
            mode: port.mode,
            skipped: port.skipped,
            tail: port.tail,
            unattributed: self.unattributed(),
            sources: source_tails(&self.plan, self.slots.as_slice()),
        }
    }
}
