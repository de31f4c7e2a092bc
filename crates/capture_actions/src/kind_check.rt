//! `check` with the kinds of items: what `check` writes, and how many items of each word each mapped source sent.

ghost use Rattle.std.specs.Prelude.{◌≡◌, ◌+◌, ◌<◌, ◌≤◌, ◌++◌, [], ℕ, List, length, is_none, true, get_or, Some};
ghost use Rattle.capture_actions.specs.Names.{Placed, is_sound, source_counts_of, port_counts_of, tails_of};
ghost use Rattle.capture_actions.specs.Names.{ID_COUNT, port_counts_text};
ghost use Rattle.source_merge.specs.Engine as engine;
ghost use Rattle.capture_actions.specs.Kinds.{none};

use crate::check::put_port;
use crate::kind_counts::KindCounts;
use crate::kind_lines::{KindLines, NONE, Part};
use crate::plan_table::sends_stp;
use crate::reading::{CaptureReading, TURNS};
use source_counts::Counts;
use source_events::{Plan, Tails};
use source_merge::Engine;
use trace_stream::{ACTION_ROOM, Action, OUTLET_ROOM, Outlet, Progress, TEXT_ROOM};
use trace_text::{print_fault, print_tails};
use trace_values::{ID_COUNT, SourceId};

/// The reading of a capture, and the counts of its kinds. At the end it keeps what is to be put.
#[derive(Drop)]
pub struct KindCheck {
    reading: CaptureReading,
    kinds: KindCounts,
    lines: KindLines,
    /// How the capture ended, where that was without a fault.
    tails: Option<Tails>,
}

/// How much the source of this number sent.
fn counts_at(reading: &Engine, number: u8) -> Counts
    requires source { number ≤ 126 }
    ensures { (u : List Placed) → engine.Stands reading.now u →
        result ≡ source_counts_of (engine.plan_of reading.now) u number }
{
    match SourceId::new(number) {
        Some(id) => reading.counts(id),
        None => NONE,
    }
}

/// How much each source sent.
fn all_counts(reading: &Engine) -> [Counts; ID_COUNT]
    ensures { (u : List Placed) → engine.Stands reading.now u → (x : ℕ) → x < ID_COUNT →
        get_or result x none ≡ source_counts_of (engine.plan_of reading.now) u x }
{
    let mut counts = [NONE; ID_COUNT];
    for number in 0..ID_COUNT as u8 {
        counts[number as usize] = counts_at(reading, number);
    }
    counts
}

impl KindCheck {
    ghost use Rattle.source_events.specs.declared.plan.Plan.{Plan};
    ghost use Rattle.capture_actions.specs.KindCheck.{Stands, plan_of, taken_by, IsLive, last_by, debt_of};
    ghost use Rattle.capture_actions.specs.Names.{Paid};

    /// Nothing is read yet. The plan is sound.
    pub fn new(plan: Plan) -> KindCheck
        requires sound { is_sound plan ≡ true }
        ensures plan { plan_of result ≡ plan }
        ensures fresh { Stands result [] × (taken_by result ≡ 0) × IsLive result }
        ensures debt { debt_of result ≡ Paid }
    {
        KindCheck {
            reading: CaptureReading::new(plan),
            kinds: KindCounts::new(),
            lines: KindLines::new(),
            tails: None,
        }
    }

    /// Puts what comes after the lines of the sources: the fault's line, or the end lines.
    fn put_last(&self, outlet: &mut Outlet)
        requires room { length outlet.old + ACTION_ROOM ≤ OUTLET_ROOM }
        ensures { outlet.new ≡ outlet.old ++ last_by (plan_of self.now) self.now.reading.stop self.now.tails }
    {
        match (self.reading.stop, &self.tails) {
            (Some(stop), _) => {
                print_fault(
                    outlet,
                    &stop,
                    sends_stp(self.reading.engine.plan(), stop.source),
                );
            }
            (None, Some(tails)) => print_tails(outlet, tails),
            (None, None) => {}
        }
    }

    /// How the capture ends here, where it has no fault.
    fn tails_here(&self) -> Option<Tails>
        ensures { (u : List Placed) → engine.Stands self.now.reading.engine u → is_none self.now.reading.stop ≡ true →
            result ≡ Some (tails_of (plan_of self.now) u) }
    {
        match self.reading.stop {
            None => Some(self.reading.engine.finish()),
            Some(_) => None,
        }
    }
}

impl Action for KindCheck {
    ghost use Rattle.source_events.specs.declared.plan.Plan.{Plan};
    ghost use Rattle.capture_actions.specs.Kinds.{kinds_meaning};
    ghost use Rattle.capture_actions.specs.KindCheckLaws.{kinds_lawful};
    ghost use Rattle.capture_actions.specs.KindCheck.{Stands, plan_of, taken_by, IsLive, debt_of};

    type Plan = Plan;

    ghost plan = { plan_of };

    ghost live = { IsLive };

    ghost taken = { taken_by };

    ghost stands = { Stands };

    ghost debt = { debt_of };

    ghost meaning = { kinds_meaning };

    ghost lawful = { kinds_lawful };

    /// Puts the lines of a source, or what comes after all of them.
    fn pour(&mut self, outlet: &mut Outlet) -> bool {
        match self
            .lines
            .pour(self.reading.engine.plan(), &self.kinds, outlet)
        {
            Part::Nothing => false,
            Part::Source => true,
            Part::Last => {
                self.put_last(outlet);
                true
            }
        }
    }

    /// Takes a whole frame, or bytes up to a synchronisation or a fault, or packets, and counts them.
    fn feed(&mut self, piece: &[u8], _outlet: &mut Outlet, _notes: &mut Outlet) -> Progress {
        self.reading.take(TURNS, piece, &mut self.kinds, &mut ())
    }

    /// Puts the counts of the port, and owes the rest.
    fn finish(&mut self, outlet: &mut Outlet) {
        put_port(outlet, &self.reading.engine);
        self.tails = self.tails_here();
        let counts = all_counts(&self.reading.engine);
        self.lines = KindLines::of(counts);
    }

    fn is_due(&self) -> bool {
        false
    }
}
