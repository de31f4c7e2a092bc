//! `check` that goes on after faults: how many there are, what the port and each source sent, and how the capture ends.

ghost use Rattle.std.specs.Prelude.{◌≡◌, ◌+◌, ◌*◌, ◌<◌, ◌≤◌, ◌++◌, [], ℕ, List, length};
ghost use Rattle.trace_stream.specs.declared.limits.TheConstants.{GREATEST_CAPTURE};
ghost use Rattle.recovery_engine.specs.Heard.{heard_of};

use crate::account::Account;
use crate::counting::{put_head, put_sources};
use crate::recovering::Recovering;
use capture_actions::SUMMARY_ROOM;
use recovery_engine::{HeardCounts, Recovery};
use source_events::Plan;
use trace_stream::{OUTLET_ROOM, Outlet, TEXT_ROOM};
use trace_text::print_tails;

/// What is counted of a recovering report beside what the engine counts: the packets of each source, and the faults.
#[derive(Drop)]
pub struct Tally {
    pub(crate) heard: HeardCounts,
    /// How many bytes the report is of.
    pub(crate) bytes: u64,
    ghost few: { heard_of heard ≤ 30 * bytes },
    ghost limit: { bytes ≤ GREATEST_CAPTURE },
}

/// The summary of a capture that goes on after each fault.
pub type RecoveringCheck = Recovering<Tally>;

impl Recovering<Tally> {
    ghost use Rattle.source_events.specs.declared.plan.Plan.{Plan};
    ghost use Rattle.recovery_listing.specs.Check.{IsLive, Stands, plan_of};
    ghost use Rattle.recovery_listing.specs.Recovering.{taken_by};

    /// Nothing is read yet.
    pub fn new(plan: Plan) -> RecoveringCheck
        ensures plan { plan_of result ≡ plan }
        ensures stands { Stands result [] }
        ensures count { taken_by result ≡ 0 }
        ensures live { IsLive result }
    {
        let account = Tally {
            heard: HeardCounts::new(),
            bytes: 0,
        };
        Recovering {
            account,
            engine: Recovery::new(plan, false),
        }
    }
}

impl Tally {
    ghost use Rattle.recovery_listing.specs.Counting.{HasTallied, plan_of};
    ghost use Rattle.recovery_listing.specs.Summary.{summary};

    /// Puts the summary of the bytes that were read.
    fn put_summary(&self, engine: &Recovery, outlet: &mut Outlet)
        requires room { length outlet.old + SUMMARY_ROOM + TEXT_ROOM ≤ OUTLET_ROOM }
        ensures { (seen : List ℕ) → HasTallied engine.now self.now.heard seen →
            outlet.new ≡ outlet.old ++ summary (plan_of engine.now) seen }
    {
        put_head(outlet, engine, &self.heard);
        put_sources(outlet, engine, &self.heard);
        print_tails(outlet, &engine.finish());
    }
}

/// Nothing is written before the end.
impl Account for Tally {
    ghost use Rattle.std.specs.Prelude.{refl};
    ghost use Rattle.source_events.specs.declared.plan.Plan.{Plan};
    ghost use Rattle.recovery_listing.specs.Check.{HasCounted, IsAt, asked, gets};
    ghost use Rattle.recovery_listing.specs.CheckLaws.{goes_on, same};
    ghost use Rattle.recovery_listing.specs.MeaningLaws.{end_lawful};
    ghost use Rattle.recovery_listing.specs.Summary.{check_meaning, summary};

    type Asked = Plan;

    ghost asked = { asked };

    ghost capture = { λ plan. plan };

    ghost stands = { HasCounted };

    ghost live = { IsAt };

    ghost gets = { gets };

    ghost meaning = { check_meaning };

    ghost lawful = { λ plan. end_lawful (summary plan) };

    ghost sound = { λ asked bytes h. h };

    ghost captured = { λ account how. refl };

    ghost same = { same };

    ghost goes_on = { goes_on };

    fn has_fault(&self) -> bool {
        self.heard.faults() != 0
    }

    fn take(
        &mut self,
        engine: &mut Recovery,
        piece: &[u8],
        _outlet: &mut Outlet,
        _notes: &mut Outlet,
    ) -> usize {
        let at = engine.next();
        if let Some(bytes) = engine.count_frame(at, piece) {
            self.bytes += bytes as u64;
            return bytes;
        }
        let taken = engine.take(at, piece, &mut self.heard, &mut ());
        self.bytes += taken as u64;
        taken
    }

    #[inline]
    fn pour(&mut self, _outlet: &mut Outlet) -> bool {
        false
    }

    fn finish(&mut self, engine: &Recovery, outlet: &mut Outlet) {
        self.put_summary(engine, outlet);
    }

    fn is_due(&self) -> bool {
        false
    }
}
