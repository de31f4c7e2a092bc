//! `check`: how many synchronisations and frames a port has, how much each source sent, and how the capture ends.

ghost use Rattle.source_events.specs.declared.tails.TheConstants.{GREATEST_COUNT};
ghost use Rattle.std.specs.Prelude.{◌≡◌, ◌+◌, ◌*◌, ◌≤◌, ◌++◌, ◌==◌, ◌&&◌, [], ℕ, List, length, true};
ghost use Rattle.capture_actions.specs.Names.{Placed, is_sound, port_counts_of, port_counts_text, source_counts_of};
ghost use Rattle.source_merge.specs.Engine as engine;
ghost use Rattle.capture_actions.specs.Summary.{source_text, sources_text};

use crate::kind_counts::MANY;
use crate::plan_table::sends_stp;
use crate::reading::{CaptureReading, TURNS};
use itm_grammar::packet::ItmPacket;
use recovering_machines::Receiver;
use source_counts::Counts;
use source_events::{Event, Packet, Plan, SourceKind};
use source_merge::Engine;
use stp_grammar::said::Said;
use stretch_readings::Heard;
use trace_stream::{Action, OUTLET_ROOM, Outlet, Progress, TEXT_ROOM};
use trace_text::{
    PortCountsLines, SOURCE_COUNTS_ROOM, TAILS_ROOM, print_fault, print_tails, put_source_counts,
};
use trace_values::{ID_COUNT, SourceId};

/// The most bytes of the line of what a source sent, in a capture.
pub const SOURCE_ROOM: usize = 44;

/// Bytes of room that a summary is given: more than any has.
pub const SUMMARY_ROOM: usize = ID_COUNT * SOURCE_ROOM + TAILS_ROOM + 2 * TEXT_ROOM;

/// The reading of a capture.
#[derive(Drop)]
pub struct Check {
    reading: CaptureReading,
}

/// Takes events. They are only counted, which the engine does.
#[derive(Drop)]
struct Ignored;

/// Nothing is done with an event.
impl Receiver for Ignored {
    ghost use Rattle.capture_actions.specs.Ignored.{gets, room, adds_up};

    type To = ();

    ghost gets = { gets };

    ghost room = { room };

    ghost adds_up = { adds_up };

    ghost takes_on = { λ a b es source kind g t. t };

    #[inline(always)]
    fn give(&mut self, _to: &mut (), _event: Event<Heard<Packet>>) {}

    #[inline(always)]
    fn events_left(&self, _to: &()) -> usize {
        MANY
    }

    #[inline(always)]
    fn takes_told(&self, _source: SourceId, _kind: SourceKind) -> bool {
        true
    }

    #[inline(always)]
    fn give_itm(
        &mut self,
        _to: &mut (),
        _at: u64,
        _half: u8,
        _source: SourceId,
        _packet: ItmPacket,
    ) {}

    #[inline(always)]
    fn give_said(&mut self, _to: &mut (), _at: u64, _half: u8, _source: SourceId, _said: Said) {}

    #[inline(always)]
    fn give_raw(&mut self, _to: &mut (), _at: u64, _source: SourceId, _bytes: &[u8]) {}

    #[inline(always)]
    fn give_trigger(&mut self, _to: &mut (), _at: u64, _source: SourceId, _byte: u8) {}
}

/// Puts the counts of the port.
pub(crate) fn put_port(outlet: &mut Outlet, reading: &Engine)
    requires room { length outlet.old + TEXT_ROOM ≤ OUTLET_ROOM }
    ensures text { (u : List Placed) → engine.Stands reading.now u →
        let port = port_counts_of (engine.plan_of reading.now) u in
        outlet.new ≡ outlet.old ++ port_counts_text port.fulls port.halves port.frames }
    ensures bound { length outlet.new ≤ length outlet.old + TEXT_ROOM }
{
    let counts = reading.port_counts();
    outlet.put(&PortCountsLines {
        fulls: counts.fulls,
        halves: counts.halves,
        frames: counts.frames,
    });
}

/// The line of what a source sent, if it sent a byte.
pub fn put_source_line(outlet: &mut Outlet, id: SourceId, counts: Counts)
    requires room { length outlet.old + TEXT_ROOM ≤ OUTLET_ROOM }
    ensures text { outlet.new ≡ outlet.old ++ source_text id counts }
    ensures most { length outlet.new ≤ length outlet.old + SOURCE_COUNTS_ROOM }
    // of a capture
    ensures bound { counts.bytes ≤ GREATEST_COUNT → counts.items ≤ GREATEST_COUNT →
        length outlet.new ≤ length outlet.old + SOURCE_ROOM }
{
    if counts.bytes != 0 {
        put_source_counts(outlet, id, counts.bytes, counts.items);
    }
}

/// The same of the source of this number.
fn put_source(outlet: &mut Outlet, number: u8, reading: &Engine)
    requires source { number ≤ 126 }
    requires room { length outlet.old + TEXT_ROOM ≤ OUTLET_ROOM }
    ensures text { (u : List Placed) → engine.Stands reading.now u →
        outlet.new ≡ outlet.old ++ source_text number (source_counts_of (engine.plan_of reading.now) u number) }
    ensures bound { length outlet.new ≤ length outlet.old + SOURCE_ROOM }
{
    match SourceId::new(number) {
        Some(id) => put_source_line(outlet, id, reading.counts(id)),
        None => {}
    }
}

/// The lines of all sources that sent a byte, in the order of their IDs.
fn put_sources(outlet: &mut Outlet, reading: &Engine)
    requires room { length outlet.old + ID_COUNT * SOURCE_ROOM + TEXT_ROOM ≤ OUTLET_ROOM }
    ensures text { (u : List Placed) → engine.Stands reading.now u →
        outlet.new ≡ outlet.old ++ sources_text (source_counts_of (engine.plan_of reading.now) u) ID_COUNT }
    ensures bound { length outlet.new ≤ length outlet.old + ID_COUNT * SOURCE_ROOM }
{
    for number in 0..ID_COUNT as u8 {
        put_source(outlet, number, reading);
    }
}

/// No source is mapped.
fn maps_none(plan: &Plan) -> bool
    ensures { result ≡ (length plan.now.itm == 0) && (length plan.now.stp == 0) }
{
    plan.itm.as_slice().is_empty() && plan.stp.as_slice().is_empty()
}

impl Check {
    ghost use Rattle.source_events.specs.declared.plan.Plan.{Plan};
    ghost use Rattle.capture_actions.specs.Summary.{counts_text, summary};
    ghost use Rattle.capture_actions.specs.Check.{Stands, plan_of, taken_by, IsLive};

    /// Nothing is read yet. The plan is sound.
    pub fn new(plan: Plan) -> Check
        requires sound { is_sound plan ≡ true }
        ensures plan { plan_of result ≡ plan }
        ensures fresh { Stands result [] × (taken_by result ≡ 0) × IsLive result }
    {
        Check {
            reading: CaptureReading::new(plan),
        }
    }

    /// The counts of all, and the end lines.
    fn put_counts(&self, outlet: &mut Outlet)
        requires room { length outlet.old + SUMMARY_ROOM ≤ OUTLET_ROOM }
        requires live { IsLive self.now }
        ensures { (u : List Placed) → engine.Stands self.now.reading.engine u →
            outlet.new ≡ outlet.old ++ counts_text (plan_of self.now) u }
    {
        put_port(outlet, &self.reading.engine);
        put_sources(outlet, &self.reading.engine);
        print_tails(outlet, &self.reading.engine.finish());
    }

    /// Puts the summary of the bytes that were taken: the counts and the end lines, or the line of the fault alone.
    pub fn put_summary(&self, outlet: &mut Outlet)
        requires room { length outlet.old + SUMMARY_ROOM ≤ OUTLET_ROOM }
        ensures { (seen : List ℕ) → Stands self.now seen → outlet.new ≡ outlet.old ++ summary (plan_of self.now) seen }
    {
        match self.reading.stop {
            None => self.put_counts(outlet),
            Some(stop) => {
                print_fault(
                    outlet,
                    &stop,
                    sends_stp(self.reading.engine.plan(), stop.source),
                );
            }
        }
    }
}

impl Action for Check {
    ghost use Rattle.source_events.specs.declared.plan.Plan.{Plan};
    ghost use Rattle.capture_actions.specs.Summary.{check_meaning};
    ghost use Rattle.capture_actions.specs.CheckLaws.{check_lawful};
    ghost use Rattle.capture_actions.specs.Check.{Stands, plan_of, taken_by, IsLive};

    type Plan = Plan;

    ghost plan = { plan_of };

    ghost live = { IsLive };

    ghost taken = { taken_by };

    ghost stands = { Stands };

    ghost meaning = { check_meaning };

    ghost lawful = { check_lawful };

    #[inline]
    fn pour(&mut self, _outlet: &mut Outlet) -> bool {
        false
    }

    /// A whole frame is counted at once where no source is mapped.
    fn feed(&mut self, piece: &[u8], _outlet: &mut Outlet, _notes: &mut Outlet) -> Progress {
        let bytes = self.reading.count_frames(piece);
        if bytes > 0 {
            return Progress {
                bytes,
                is_faulty: false,
            };
        }
        let turns = if maps_none(self.reading.engine.plan()) {
            1
        } else {
            TURNS
        };
        self.reading.take(turns, piece, &mut Ignored, &mut ())
    }

    fn finish(&mut self, outlet: &mut Outlet) {
        self.put_summary(outlet);
    }

    fn is_due(&self) -> bool {
        false
    }
}
