//! `vcd` that goes on after faults: the value dump of an ITM source, and the lines of the faults as notes.

ghost use Rattle.std.specs.Prelude.{◌≡◌, [], IfOk};
ghost use Rattle.std.specs.Option.{ForSome};

use crate::account::Account;
use crate::going_on::GoingOn;
use crate::noting::{Noting, looked_at};
use crate::recovering::Recovering;
use recovery_engine::Recovery;
use std::alloc::{AllocError, Global};
use trace_stream::Outlet;
use value_dump::{SourceDump, ValueDump, VcdPlan};

/// The value dump of a source, and what is noted beside it.
#[derive(Drop)]
pub struct RecoveringDump {
    pub(crate) noting: Noting<SourceDump>,
    /// A byte was read: the header is put.
    pub(crate) is_begun: bool,
}

/// The value dump of a capture that goes on after each fault.
pub type RecoveringVcd = Recovering<RecoveringDump>;

impl Recovering<RecoveringDump> {
    ghost use Rattle.std.specs.Prelude.{◌<◌};
    ghost use Rattle.recovery_listing.specs.Dump.{noted_dump};
    ghost use Rattle.recovery_listing.specs.Recovering.{taken_by};
    ghost use Rattle.recovery_listing.specs.Vcd.{IsLive, Stands, plan_of};

    /// Nothing is read yet. The clock has at least one Hz. It takes all its memory here, and fails only for want of it.
    pub fn open(alloc: Global, plan: GoingOn<VcdPlan>) -> Result<RecoveringVcd, AllocError>
        requires some { ForSome plan.plan.hz (λ n. 0 < n) }
        ensures plan { IfOk result (λ vcd. plan_of vcd ≡ plan) }
        ensures fresh { IfOk result (λ vcd. Stands vcd [] × (taken_by vcd ≡ 0) × IsLive vcd) }
        ensures silent { IfOk result (λ vcd. noted_dump (plan_of vcd) [] ≡ []) }
    {
        let lines = Outlet::open(alloc)?;
        Ok(Recovering::dumping(plan, lines))
    }

    /// The same with memory for lines that are to be noted, of which there is none.
    fn dumping(plan: GoingOn<VcdPlan>, lines: Outlet) -> RecoveringVcd
        requires some { ForSome plan.plan.hz (λ n. 0 < n) }
        requires silent { lines ≡ [] }
        ensures plan { plan_of result ≡ plan }
        ensures stands { Stands result [] }
        ensures count { taken_by result ≡ 0 }
        ensures live { IsLive result }
        ensures silent { noted_dump (plan_of result) [] ≡ [] }
    {
        let source = looked_at(&plan.plan.plan);
        let own = looked_at(&plan.plan.plan);
        let dump = ValueDump::new(plan.plan.hz);
        Recovering {
            account: RecoveringDump {
                noting: Noting {
                    receiver: SourceDump { source: own, dump },
                    source,
                    lines,
                    is_faulty: false,
                },
                is_begun: false,
            },
            engine: Recovery::new(plan.plan.plan, plan.guesses),
        }
    }
}

/// Lines are put at each local timestamp, and the rest at the end. Where a fault is passed its line is noted.
impl Account for RecoveringDump {
    ghost use Rattle.std.specs.Prelude.{refl};
    ghost use Rattle.value_dump.specs.declared.vcd_plan.VcdPlan.{VcdPlan};
    ghost use Rattle.recovery_listing.specs.Dump.{dump_meaning, noted_dump};
    ghost use Rattle.recovery_listing.specs.DumpLaws.{dump_lawful};
    ghost use Rattle.recovery_listing.specs.Vcd.{HasDumped, IsReady, asked, gets};
    ghost use Rattle.recovery_listing.specs.VcdLaws.{goes_on, same};

    type Asked = GoingOn<VcdPlan>;

    ghost asked = { asked };

    ghost capture = { λ asked. asked.plan.plan };

    ghost stands = { HasDumped };

    ghost live = { IsReady };

    ghost gets = { gets };

    ghost meaning = { dump_meaning };

    ghost noted = { noted_dump };

    ghost lawful = { dump_lawful };

    ghost sound = { λ asked bytes h. h };

    ghost captured = { λ account how. refl };

    ghost same = { same };

    ghost goes_on = { goes_on };

    fn has_fault(&self) -> bool {
        self.noting.is_faulty
    }

    fn take(
        &mut self,
        engine: &mut Recovery,
        piece: &[u8],
        outlet: &mut Outlet,
        notes: &mut Outlet,
    ) -> usize {
        self.noting.receiver.begin(outlet, self.is_begun);
        self.is_begun = true;
        self.noting.take_noting(engine, piece, outlet, notes)
    }

    #[inline]
    fn pour(&mut self, _outlet: &mut Outlet) -> bool {
        false
    }

    fn finish(&mut self, _engine: &Recovery, outlet: &mut Outlet) {
        self.noting.receiver.begin(outlet, self.is_begun);
        self.noting.receiver.dump.put_pending(outlet);
    }

    fn is_due(&self) -> bool {
        true
    }
}
