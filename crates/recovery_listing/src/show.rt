//! `show` that goes on after faults: the listing of the events of a capture, with the faults among them.

ghost use Rattle.std.specs.Prelude.{◌≡◌, []};

use crate::account::Account;
use crate::going_on::GoingOn;
use crate::lister::RecoveringLister;
use crate::recovering::Recovering;
use capture_actions::ListPlan;
use recovery_engine::Recovery;
use trace_stream::Outlet;
use trace_text::print_tails;

/// The listing of a capture that goes on after each fault.
pub type RecoveringShow = Recovering<RecoveringLister>;

impl Recovering<RecoveringLister> {
    ghost use Rattle.recovery_listing.specs.Recovering.{taken_by};
    ghost use Rattle.recovery_listing.specs.Show.{Stands, plan_of};

    /// Nothing is read yet.
    pub fn new(plan: GoingOn<ListPlan>) -> RecoveringShow
        ensures plan { plan_of result ≡ plan }
        ensures stands { Stands result [] }
        ensures count { taken_by result ≡ 0 }
    {
        let GoingOn { plan, guesses } = plan;
        let only = plan.only;
        Recovering {
            account: RecoveringLister::new(&plan.plan, only, plan.window, guesses),
            engine: Recovery::new(plan.plan, guesses),
        }
    }
}

/// The lines of events are put as these come, and the end lines at the end.
impl Account for RecoveringLister {
    ghost use Rattle.std.specs.Prelude.{refl};
    ghost use Rattle.capture_actions.specs.declared.list_plan.ListPlan.{ListPlan};
    ghost use Rattle.recovery_listing.specs.Near.{listing_meaning};
    ghost use Rattle.recovery_listing.specs.MeaningLaws.{listing_lawful};
    ghost use Rattle.recovery_listing.specs.Show.{HasListed, asked, gets};
    ghost use Rattle.recovery_listing.specs.ShowLaws.{goes_on, same};

    type Asked = GoingOn<ListPlan>;

    ghost asked = { asked };

    ghost capture = { λ asked. asked.plan.plan };

    ghost stands = { HasListed };

    ghost gets = { gets };

    ghost meaning = { listing_meaning };

    ghost lawful = { listing_lawful };

    ghost sound = { λ asked bytes h. h };

    ghost captured = { λ account how. refl };

    ghost same = { same };

    ghost goes_on = { goes_on };

    fn has_fault(&self) -> bool {
        self.is_faulty()
    }

    fn take(
        &mut self,
        engine: &mut Recovery,
        piece: &[u8],
        outlet: &mut Outlet,
        _notes: &mut Outlet,
    ) -> usize {
        let at = engine.next();
        engine.take(at, piece, self, outlet)
    }

    #[inline]
    fn pour(&mut self, _outlet: &mut Outlet) -> bool {
        false
    }

    fn finish(&mut self, engine: &Recovery, outlet: &mut Outlet) {
        print_tails(outlet, &engine.finish());
    }

    fn is_due(&self) -> bool {
        false
    }
}
