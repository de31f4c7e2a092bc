//! The reading of a capture with all its sources, up to its fault.

ghost use Rattle.std.specs.Prelude.{◌≡◌, ◌+◌, ◌<◌, ◌≤◌, ◌++◌, [], ℕ, List, length, is_none, take, true, false};
ghost use Rattle.capture_actions.specs.Names.{Placed, placed_from, is_sound, is_live, GREATEST_CAPTURE};
ghost use Rattle.source_merge.specs.Engine as engine;
ghost use Rattle.recovery_engine.specs.declared.engine.TheConstants.{GREATEST_OFFSET};

use recovering_machines::Receiver;
use source_events::{Plan, Stop};
use source_merge::Engine;
use trace_stream::Progress;

/// How many turns one call takes at most, where there is room for their events.
pub const TURNS: usize = 64;

/// Reads the bytes of a capture, the first of which is at offset 0, and keeps the fault of its report.
#[derive(Drop)]
pub struct CaptureReading {
    pub(crate) engine: Engine,
    pub(crate) stop: Option<Stop>,
    ghost alive: { is_live engine ≡ is_none stop },
}

/// Takes whole frames from the front of the piece, which comes next, where no source is mapped. Answers how many bytes
/// they have.
fn count_frames(reading: &mut Engine, piece: &[u8]) -> usize
    requires live { is_live reading.old ≡ true }
    requires count { engine.next_of reading.old + length piece.now ≤ GREATEST_OFFSET + 1 }
    ensures few { result ≤ length piece.now }
    ensures same { engine.plan_of reading.new ≡ engine.plan_of reading.old }
    ensures next { engine.next_of reading.new ≡ engine.next_of reading.old + result }
    ensures live { is_live reading.new ≡ true }
    ensures list { (u : List Placed) → engine.Stands reading.old u →
        engine.Stands reading.new (u ++ placed_from (engine.next_of reading.old) (take result piece.now)) }
{
    let mut done = 0;
    while done < piece.len() {
        let at = reading.next();
        let Some(bytes) = reading.count_frame(at, &piece[done..]) else {
            return done;
        };
        done += bytes;
    }
    done
}

/// There is no fault, the piece has more bytes, and there is room for the events of another turn.
#[inline(always)]
fn has_more<V: Receiver>(is_faulty: bool, done: usize, piece: &[u8], out: &V, to: &V::To) -> bool
    ensures sound { result ≡ true → is_faulty ≡ false }
    ensures some { result ≡ true → done < length piece.now }
    ensures space { result ≡ true → 30 ≤ V.room (out.now, to.now) }
{
    !is_faulty && done < piece.len() && out.events_left(to) >= 30
}

impl CaptureReading {
    ghost use Rattle.trace_io.specs.Bytes.{TakesSome};
    ghost use Rattle.recovering_machines.specs.Hearing.{takes_read};
    ghost use Rattle.source_merge.specs.Giving.{GivesTo};
    ghost use Rattle.capture_actions.specs.CaptureReading.{Stands, plan_of, taken_by, IsLive, ReadsOn, TakesOn};

    /// Nothing is read yet. The plan is sound.
    pub fn new(plan: Plan) -> CaptureReading
        requires sound { is_sound plan ≡ true }
        ensures plan { plan_of result ≡ plan }
        ensures fresh { Stands result [] × (taken_by result ≡ 0) × IsLive result }
    {
        CaptureReading {
            engine: Engine::new(plan),
            stop: None,
        }
    }

    /// Takes a whole frame, or bytes up to a synchronisation or a fault, or packets, and gives their events to what
    /// takes them, which has room for 30.
    #[inline(always)]
    fn take_turn<V: Receiver>(&mut self, piece: &[u8], out: &mut V, to: &mut V::To) -> Progress
        requires live { IsLive self.old }
        requires space { 30 ≤ V.room (out.old, to.old) }
        requires some { 0 < length piece.now }
        requires count { taken_by self.old + length piece.now ≤ GREATEST_CAPTURE }
        ensures front { TakesSome piece.now result.bytes }
        ensures took { TakesOn (takes_read V.gets) (self.old, (out.old, to.old)) (self.new, (out.new, to.new))
            (take result.bytes piece.now) result.is_faulty }
    {
        let at = self.engine.next();
        let bytes = self.engine.take(at, piece, &mut self.stop, out, to);
        Progress {
            bytes,
            is_faulty: self.stop.is_some(),
        }
    }

    /// Takes a front of the piece in at most so many turns, and gives its events to what takes them, while that has
    /// room for 30. In each turn it takes a whole frame, or bytes up to a synchronisation or a fault, or packets.
    #[inline(always)]
    pub fn take<V: Receiver>(
        &mut self,
        turns: usize,
        piece: &[u8],
        out: &mut V,
        to: &mut V::To,
    ) -> Progress
        requires live { IsLive self.old }
        requires turns { 0 < turns }
        requires space { 30 ≤ V.room (out.old, to.old) }
        requires piece { (0 < length piece.now) × (taken_by self.old + length piece.now ≤ GREATEST_CAPTURE) }
        ensures same { plan_of self.new ≡ plan_of self.old }
        ensures front { TakesSome piece.now result.bytes }
        ensures count { taken_by self.new ≡ taken_by self.old + result.bytes }
        ensures reads { GivesTo (takes_read V.gets) (out.old, to.old) (out.new, to.new)
            (ReadsOn self.old self.new (take result.bytes piece.now) result.is_faulty) }
        ensures live { result.is_faulty ≡ false → IsLive self.new }
    {
        let mut done = 0;
        for turn in 0..turns {
            let taken = self.take_turn(&piece[done..], out, to);
            done += taken.bytes;
            if !has_more(taken.is_faulty, done, piece, out, to) {
                return Progress {
                    bytes: done,
                    is_faulty: taken.is_faulty,
                };
            }
        }
        Progress {
            bytes: done,
            is_faulty: false,
        }
    }

    /// Where no source is mapped: takes whole frames from the front of the piece, and answers how many bytes they have.
    pub fn count_frames(&mut self, piece: &[u8]) -> usize
        requires live { IsLive self.old }
        requires count { taken_by self.old + length piece.now ≤ GREATEST_CAPTURE }
        ensures few { result ≤ length piece.now }
        ensures same { plan_of self.new ≡ plan_of self.old }
        ensures count { taken_by self.new ≡ taken_by self.old + result }
        ensures read { (seen : List ℕ) → Stands self.old seen → Stands self.new (seen ++ take result piece.now) }
        ensures live { IsLive self.new }
    {
        count_frames(&mut self.engine, piece)
    }
}
