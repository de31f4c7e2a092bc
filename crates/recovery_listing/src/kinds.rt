//! `check` with the kinds of items that goes on after faults: what it writes without them, and how many items of each
//! word each mapped source sent.

ghost use Rattle.std.specs.Prelude.{◌≡◌, ◌+◌, ◌*◌, ◌<◌, ◌≤◌, ◌++◌, [], ℕ, List, length};
ghost use Rattle.trace_stream.specs.declared.limits.TheConstants.{GREATEST_CAPTURE};
ghost use Rattle.recovery_engine.specs.Heard.{heard_of};

use crate::account::Account;
use crate::counting::{all_counts, put_head};
use crate::heard_kinds::HeardKinds;
use crate::recovering::Recovering;
use capture_actions::{KindLines, Part, PlanTable};
use recovery_engine::Recovery;
use source_events::{Plan, Tails};
use trace_stream::{ACTION_ROOM, OUTLET_ROOM, Outlet};
use trace_text::print_tails;

/// What is counted of a recovering report: the items of each source, by their words too, and the faults. At the end it
/// keeps what is to be put.
#[derive(Drop)]
pub struct KindTally {
    pub(crate) plan: PlanTable,
    pub(crate) counts: HeardKinds,
    /// How many bytes the report is of.
    pub(crate) bytes: u64,
    pub(crate) lines: KindLines,
    /// How the capture ended.
    pub(crate) tails: Option<Tails>,
    ghost few: { heard_of counts.heard ≤ 30 * bytes },
    ghost limit: { bytes ≤ GREATEST_CAPTURE },
}

/// The summary with kinds of a capture that goes on after each fault.
pub type RecoveringKinds = Recovering<KindTally>;

impl Recovering<KindTally> {
    ghost use Rattle.source_events.specs.declared.plan.Plan.{Plan};
    ghost use Rattle.trace_stream.specs.Debt.{Paid};
    ghost use Rattle.recovery_listing.specs.KindTally.{IsLive, Stands, debt_of, plan_of};
    ghost use Rattle.recovery_listing.specs.Recovering.{taken_by};

    /// Nothing is read yet.
    pub fn new(plan: Plan) -> RecoveringKinds
        ensures plan { plan_of result ≡ plan }
        ensures stands { Stands result [] }
        ensures count { taken_by result ≡ 0 }
        ensures live { IsLive result }
        ensures paid { debt_of result.account ≡ Paid }
    {
        let account = KindTally {
            plan: PlanTable::new(&plan),
            counts: HeardKinds::new(),
            bytes: 0,
            lines: KindLines::new(),
            tails: None,
        };
        Recovering {
            account,
            engine: Recovery::new(plan, false),
        }
    }
}

impl KindTally {
    ghost use Rattle.recovery_listing.specs.KindTally.{last_of};

    /// Puts what comes after the lines of the sources.
    fn put_last(&self, outlet: &mut Outlet)
        requires room { length outlet.old + ACTION_ROOM ≤ OUTLET_ROOM }
        ensures { outlet.new ≡ outlet.old ++ last_of self.now.tails }
    {
        match &self.tails {
            Some(tails) => print_tails(outlet, tails),
            None => {}
        }
    }
}

/// Nothing is written before the end. There the lines of a source are put at a time.
impl Account for KindTally {
    ghost use Rattle.std.specs.Prelude.{refl};
    ghost use Rattle.source_events.specs.declared.plan.Plan.{Plan};
    ghost use Rattle.recovery_listing.specs.KindTally.{HasSorted, IsAt, asked, debt_of, gets};
    ghost use Rattle.recovery_listing.specs.KindTallyLaws.{goes_on, same};
    ghost use Rattle.recovery_listing.specs.Kinds.{kinds_meaning_on, kinds_summary};
    ghost use Rattle.recovery_listing.specs.MeaningLaws.{end_lawful};

    type Asked = Plan;

    ghost asked = { asked };

    ghost capture = { λ plan. plan };

    ghost stands = { HasSorted };

    ghost live = { IsAt };

    ghost debt = { debt_of };

    ghost gets = { gets };

    ghost meaning = { kinds_meaning_on };

    ghost lawful = { λ plan. end_lawful (kinds_summary plan) };

    ghost sound = { λ asked bytes h. h };

    ghost captured = { λ account how. refl };

    ghost same = { same };

    ghost goes_on = { goes_on };

    fn has_fault(&self) -> bool {
        self.counts.heard.faults() != 0
    }

    fn take(
        &mut self,
        engine: &mut Recovery,
        piece: &[u8],
        _outlet: &mut Outlet,
        _notes: &mut Outlet,
    ) -> usize {
        let at = engine.next();
        let taken = engine.take(at, piece, &mut self.counts, &mut ());
        self.bytes += taken as u64;
        taken
    }

    /// Puts the lines of a source, or what comes after all of them.
    fn pour(&mut self, outlet: &mut Outlet) -> bool {
        match self
            .lines
            .pour(self.plan.plan(), &self.counts.kinds, outlet)
        {
            Part::Nothing => false,
            Part::Source => true,
            Part::Last => {
                self.put_last(outlet);
                true
            }
        }
    }

    /// Puts how many faults there are and the counts of the port, and owes the rest.
    fn finish(&mut self, engine: &Recovery, outlet: &mut Outlet) {
        put_head(outlet, engine, &self.counts.heard);
        self.tails = Some(engine.finish());
        let counts = all_counts(engine, &self.counts.heard);
        self.lines = KindLines::of(counts);
    }

    fn is_due(&self) -> bool {
        false
    }
}
