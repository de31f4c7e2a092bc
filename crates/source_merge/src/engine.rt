//! The reading of a capture with all its sources, up to its first fault.

ghost use Rattle.std.specs.Prelude.{◌≡◌, ◌≢◌, ◌+◌, ◌*◌, ◌<◌, ◌≤◌, ◌==◌, if◌then◌else◌, None, length, take, true, false};
ghost use Rattle.trace_values.specs.declared.reading_modes.FramesMode.TheVariants.{Bare};
ghost use Rattle.source_events.specs.Plan.{is_sound};
ghost use Rattle.source_events.specs.declared.tails.TheConstants.{GREATEST_COUNT};
ghost use Rattle.recovery_engine.specs.Engine as recovering;
ghost use Rattle.recovery_engine.specs.PerSource.{total_of};
ghost use Rattle.recovery_engine.specs.declared.engine.TheConstants.{GREATEST_OFFSET};

use crate::flow::{Fed, Flow, flow_of};
use crate::hearing::{hear_front, maps_none, read_of};
use frame_runs::bare_source;
use recovering_machines::{Events, Receiver};
use recovery_engine::{PerSource, Recovery};
use source_counts::Counts;
use source_events::{Plan, PortCounts, Stop, Tails};
use trace_values::{FramesMode, SourceId};

/// Reads a capture byte by byte, its port and each mapped source, and gives the events of its report in order, which
/// ends at its first fault. It keeps what it needs of the unfinished frame and of one unfinished packet of each source.
///
/// It **stands for** a list of placed bytes, whose offsets rise, if what it keeps is that of the list's report. Its
/// clauses hold for every list that it stood for before the call; a new engine stands for the empty one.
#[derive(Drop)]
pub struct Engine {
    recovery: Recovery,
    /// The items of each source, where one is mapped.
    items: PerSource,
    /// How many bytes were fed.
    count: u64,
    next: u64,
    live: bool,
    ghost sound: { is_sound (recovering.plan_of recovery) ≡ true },
    ghost sure: { recovering.guesses_of recovery ≡ false },
    ghost ahead: { live ≡ true → recovering.next_of recovery ≡ next },
    ghost reached: { recovering.next_of recovery ≤ GREATEST_OFFSET + 1 },
    ghost few: { live ≡ true → total_of items ≤ 30 * next },
    ghost most: { total_of items ≤ 30 * (GREATEST_OFFSET + 1) },
    ghost within: { count ≤ next },
    ghost limit: { next ≤ GREATEST_OFFSET + 1 },
}

impl Engine {
    ghost use Rattle.std.specs.Prelude.{◌-◌, ◌++◌, ◌∷◌, [], List, is_none, IfSome};
    ghost use Rattle.arrayvec.specs.ArrayVec.{array_vec_len};
    ghost use Rattle.trace_values.specs.Placed.{Placed, placed_from};
    ghost use Rattle.source_events.specs.Fitting.{AllFit, PacketFits};
    ghost use Rattle.source_events.specs.Tails.{port_counts_of, source_counts_of, tails_of};
    ghost use Rattle.source_merge.specs.Answering.{Answers, fault_of, flow_to};
    ghost use Rattle.source_merge.specs.Counting.{maps_none};
    ghost use Rattle.recovering_machines.specs.Hearing.{takes_read};
    ghost use Rattle.source_merge.specs.Giving.{GivesTo};
    ghost use Rattle.recovery_engine.specs.PerSource.{number_of};
    ghost use Rattle.source_merge.specs.declared.flow.Flow.TheVariants.{Going};
    ghost use Rattle.source_merge.specs.Engine.{Stands, is_live, next_of, plan_of};
    ghost use Rattle.source_merge.specs.Hearing.{most_of};
    ghost use Rattle.source_merge.specs.Front.{GivesLast, ReadsTo, TakesFront, fed};
    ghost use Rattle.recovery_engine.specs.Front.{EndsLast};

    /// An engine before the first byte. Its plan is sound.
    pub fn new(plan: Plan) -> Engine
        requires sound { is_sound plan ≡ true }
        ensures plan { plan_of result ≡ plan }
        ensures fresh { Stands result [] }
        ensures live { is_live result ≡ true }
        ensures next { next_of result ≡ 0 }
    {
        Engine {
            recovery: Recovery::new(plan, false),
            items: PerSource::new(),
            count: 0,
            next: 0,
            live: true,
        }
    }

    /// What it reads by.
    pub fn plan(&self) -> &Plan
        ensures { result.now ≡ plan_of self.now }
    {
        self.recovery.plan()
    }

    /// False exactly after an answer `Stopped`.
    #[inline]
    pub fn is_live(&self) -> bool
        ensures value { result ≡ is_live self.now }
        ensures list { (u : List Placed) → Stands self.now u → result ≡ is_none (fault_of (plan_of self.now) u) }
    {
        self.live
    }

    /// 0 at first, and then one more than the last offset that was fed.
    #[inline]
    pub fn next(&self) -> u64
        ensures { result ≡ next_of self.now }
    {
        self.next
    }

    /// Takes the next byte, which is at this offset, and gives the events that are decided with it, in order. `Stopped`
    /// says that the report's fault has become certain; `out` then has the events before it.
    ///
    /// The engine is live, `out` is empty, and the offset is at least `next()` and at most `GREATEST_OFFSET`.
    pub fn feed(&mut self, at: u64, byte: u8, out: &mut Events) -> Flow
        requires live { is_live self.old ≡ true }
        requires empty { out.old.items ≡ [] }
        requires offset { (next_of self.old ≤ at) × (at ≤ GREATEST_OFFSET) }
        ensures takes { TakesFront self.old self.new at (byte ∷ []) (record { bytes = 1; flow = result }) }
        ensures few { array_vec_len out.new ≤ 30 }
        ensures fits { AllFit PacketFits out.new.items }
        ensures fed { (u : List Placed) → Stands self.old u →
            Answers (plan_of self.old) out.new.items result u at byte }
    {
        let mut stop = None;
        self.take(at, &[byte], &mut stop, out, &mut ());
        flow_of(stop)
    }

    /// Takes bytes from the front of a piece, the first of which is at this offset, up to the first byte at which
    /// `feed` would give an event or `Stopped`, or to the piece's end. It answers and leaves what feeding these bytes
    /// one by one by `feed` does.
    ///
    /// The engine is live, `out` is empty, and the piece has a byte. Its first offset is at least `next()`, and its
    /// last one at most `GREATEST_OFFSET`.
    pub fn feed_block(&mut self, at: u64, piece: &[u8], out: &mut Events) -> Fed
        requires live { is_live self.old ≡ true }
        requires empty { out.old.items ≡ [] }
        requires some { 0 < length piece.now }
        requires offsets { (next_of self.old ≤ at) × (at + length piece.now ≤ GREATEST_OFFSET + 1) }
        ensures takes { TakesFront self.old self.new at piece.now result }
        ensures stops { out.new.items ≡ [] → result.flow ≡ Going → result.bytes ≡ length piece.now }
        ensures few { array_vec_len out.new ≤ 30 }
        ensures fits { AllFit PacketFits out.new.items }
        ensures fed { GivesLast self.old at (take result.bytes piece.now) result.flow out.new.items }
    {
        let mut bytes = 0;
        let mut stop = None;
        while bytes < piece.len() {
            let here = at + bytes as u64;
            bytes += self.take_last(here, &piece[bytes..], &mut stop, out, &mut ());
            if !out.is_empty() || !self.live {
                return Fed {
                    bytes,
                    flow: flow_of(stop),
                };
            }
        }
        Fed {
            bytes,
            flow: Flow::Going,
        }
    }

    /// Takes bytes as `take` does, but with no formatter one byte: all but the last of them give nothing.
    fn take_last<V: Receiver>(
        &mut self,
        at: u64,
        piece: &[u8],
        stop: &mut Option<Stop>,
        out: &mut V,
        to: &mut V::To,
    ) -> usize
        requires live { is_live self.old ≡ true }
        requires going { stop.old ≡ None }
        requires space { 30 ≤ V.room (out.old, to.old) }
        requires some { 0 < length piece.now }
        requires offsets { (next_of self.old ≤ at) × (at + length piece.now ≤ GREATEST_OFFSET + 1) }
        ensures takes { TakesFront self.old self.new at piece.now (fed result stop.new) }
        ensures space { V.room (out.old, to.old) ≤ V.room (out.new, to.new) + 30 }
        ensures fed { GivesTo (takes_read V.gets) (out.old, to.old) (out.new, to.new)
            (GivesLast self.old at (take result piece.now) (flow_to stop.new)) }
    {
        match self.recovery.plan().frames {
            FramesMode::Bare => self.take(at, &piece[..1], stop, out, to),
            FramesMode::Hunt | FramesMode::Aligned => self.take(at, piece, stop, out, to),
        }
    }

    /// Takes bytes from the front of a piece, the first of which is at this offset, and gives their events to what
    /// takes them: a whole frame, or else bytes up to the first one that ends a frame or a synchronisation, or is a
    /// fault, or to the piece's end. With no formatter it takes bytes for whose events there is room. It leaves what
    /// `feed` does. Answers how many bytes it took, and keeps the fault that has become certain with the last of them.
    ///
    /// The engine is live, no fault is kept, there is room for 30 events, and the piece has a byte. Its first offset is
    /// at least `next()`, and its last one at most `GREATEST_OFFSET`.
    #[inline(always)]
    pub fn take<V: Receiver>(
        &mut self,
        at: u64,
        piece: &[u8],
        stop: &mut Option<Stop>,
        out: &mut V,
        to: &mut V::To,
    ) -> usize
        requires live { is_live self.old ≡ true }
        requires going { stop.old ≡ None }
        requires space { 30 ≤ V.room (out.old, to.old) }
        requires some { 0 < length piece.now }
        requires offsets { (next_of self.old ≤ at) × (at + length piece.now ≤ GREATEST_OFFSET + 1) }
        ensures takes { TakesFront self.old self.new at piece.now (fed result stop.new) }
        ensures space { V.room (out.old, to.old) ≤ V.room (out.new, to.new)
            + most_of (plan_of self.old).frames (length piece.now) }
        ensures reads { GivesTo (takes_read V.gets) (out.old, to.old) (out.new, to.new)
            (ReadsTo self.old at (take result piece.now) (flow_to stop.new)) }
        // with a formatter all but the last byte add nothing
        ensures late { (plan_of self.old).frames ≢ Bare → (u : List Placed) → Stands self.old u →
            EndsLast (plan_of self.old).frames u at (take result piece.now) }
    {
        let taken = hear_front(
            &mut self.recovery,
            &mut self.items,
            at,
            piece,
            stop,
            out,
            to,
        );
        let bytes = read_of(self.recovery.plan().frames, at, taken, stop);
        self.count += bytes as u64;
        self.next = at + bytes as u64;
        self.live = stop.is_none();
        bytes
    }

    /// Where no source is mapped: takes the whole frame that a piece begins with, whose first byte is at this offset,
    /// and answers how many bytes that is. It leaves what `feed_block` does, whose events are not made here. None says
    /// nothing of the bytes, and takes none.
    ///
    /// The engine is live. The piece's first offset is at least `next()`, and its last one at most `GREATEST_OFFSET`.
    #[inline(always)]
    pub fn count_frame(&mut self, at: u64, piece: &[u8]) -> Option<usize>
        requires live { is_live self.old ≡ true }
        requires offsets { (next_of self.old ≤ at) × (at + length piece.now ≤ GREATEST_OFFSET + 1) }
        ensures none { result ≡ None → self.new ≡ self.old }
        ensures same { plan_of self.new ≡ plan_of self.old }
        ensures bytes { IfSome result (λ n. (0 < n) × (n ≤ length piece.now)) }
        ensures next { IfSome result (λ n. next_of self.new ≡ at + n) }
        ensures live { is_live self.new ≡ true }
        ensures list { (u : List Placed) → Stands self.old u →
            IfSome result (λ n. Stands self.new (u ++ placed_from at (take n piece.now))) }
    {
        if !maps_none(self.recovery.plan()) {
            return None;
        }
        let bytes = self.recovery.count_frame(at, piece)?;
        self.count += bytes as u64;
        self.next = at + bytes as u64;
        Some(bytes)
    }

    /// How many bytes a source has, and how many events without notices. At a fault these are the bytes of all frames
    /// up to the one that the fault is in, and the events before it.
    pub fn counts(&self, id: SourceId) -> Counts
        ensures value { (u : List Placed) → Stands self.now u → result ≡ source_counts_of (plan_of self.now) u id }
        ensures few { (result.bytes ≤ GREATEST_COUNT) × (result.items ≤ GREATEST_COUNT) }
    {
        let whole = self.recovery.counts(id);
        Counts {
            bytes: self.bytes_of(id, whole.bytes),
            items: self.items_of(id, whole.items),
        }
    }

    /// How many bytes a source has, which with a formatter has this many in frames.
    fn bytes_of(&self, id: SourceId, framed: u64) -> u64
        ensures few { framed ≤ GREATEST_COUNT → result ≤ GREATEST_COUNT }
        ensures framed { (plan_of self.now).frames ≢ Bare → result ≡ framed }
        ensures bare { (plan_of self.now).frames ≡ Bare → result ≡ (if 1 == id then self.now.count else 0) }
    {
        match self.recovery.plan().frames {
            FramesMode::Bare => if id == bare_source() { self.count } else { 0 },
            FramesMode::Hunt | FramesMode::Aligned => framed,
        }
    }

    /// How many items a source has, which is this many where no source is mapped.
    fn items_of(&self, id: SourceId, unmapped: u64) -> u64
        ensures few { unmapped ≤ GREATEST_COUNT → result ≤ GREATEST_COUNT }
        ensures none { maps_none (plan_of self.now) ≡ true → result ≡ unmapped }
        ensures mapped { maps_none (plan_of self.now) ≡ false → result ≡ number_of self.now.items id }
    {
        if maps_none(self.recovery.plan()) {
            unmapped
        } else {
            self.items.of(id)
        }
    }

    /// How many synchronisations and frames the port has. At a fault the frame that the fault is in is one of them.
    pub fn port_counts(&self) -> PortCounts
        ensures { (u : List Placed) → Stands self.now u → result ≡ port_counts_of (plan_of self.now) u }
    {
        match self.recovery.plan().frames {
            FramesMode::Bare => PortCounts {
                fulls: 0,
                halves: 0,
                frames: self.count,
            },
            FramesMode::Hunt | FramesMode::Aligned => self.recovery.port_counts(),
        }
    }

    /// How the capture ends here: how its port and each mapped source were read, what was skipped, and what is left
    /// over. The engine is live.
    pub fn finish(&self) -> Tails
        requires { is_live self.now ≡ true }
        ensures { (u : List Placed) → Stands self.now u → result ≡ tails_of (plan_of self.now) u }
    {
        self.recovery.finish()
    }
}
