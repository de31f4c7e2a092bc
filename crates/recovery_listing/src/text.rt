//! `text` that goes on after faults: the values that software wrote to one stimulus port of an ITM source, and the
//! lines of the faults among them as notes.

ghost use Rattle.std.specs.Prelude.{◌≡◌, [], IfOk};

use crate::account::Account;
use crate::going_on::GoingOn;
use crate::noting::{Noting, looked_at};
use crate::recovering::Recovering;
use capture_actions::{PortTextPlan, PortValues};
use recovery_engine::Recovery;
use std::alloc::{AllocError, Global};
use trace_stream::Outlet;

/// The values of a capture that goes on after each fault.
pub type RecoveringText = Recovering<Noting<PortValues>>;

impl Recovering<Noting<PortValues>> {
    ghost use Rattle.recovery_listing.specs.PortText.{noted_text};
    ghost use Rattle.recovery_listing.specs.Recovering.{taken_by};
    ghost use Rattle.recovery_listing.specs.Text.{IsLive, Stands, plan_of};

    /// Nothing is read yet. It takes all its memory here, and fails only for want of it.
    pub fn open(alloc: Global, plan: GoingOn<PortTextPlan>) -> Result<RecoveringText, AllocError>
        ensures plan { IfOk result (λ text. plan_of text ≡ plan) }
        ensures fresh { IfOk result (λ text. Stands text [] × (taken_by text ≡ 0) × IsLive text) }
        ensures silent { IfOk result (λ text. noted_text (plan_of text) [] ≡ []) }
    {
        let lines = Outlet::open(alloc)?;
        Ok(Recovering::over(plan, lines))
    }

    /// The same with memory for lines that are to be noted, of which there is none.
    fn over(plan: GoingOn<PortTextPlan>, lines: Outlet) -> RecoveringText
        requires silent { lines ≡ [] }
        ensures plan { plan_of result ≡ plan }
        ensures stands { Stands result [] }
        ensures count { taken_by result ≡ 0 }
        ensures live { IsLive result }
        ensures silent { noted_text (plan_of result) [] ≡ [] }
    {
        let source = looked_at(&plan.plan.plan);
        let own = looked_at(&plan.plan.plan);
        let port = plan.plan.port;
        Recovering {
            account: Noting {
                receiver: PortValues { source: own, port },
                source,
                lines,
                is_faulty: false,
            },
            engine: Recovery::new(plan.plan.plan, plan.guesses),
        }
    }
}

/// Only the values are written. Where a fault is passed its line is noted.
impl Account for Noting<PortValues> {
    ghost use Rattle.std.specs.Prelude.{refl};
    ghost use Rattle.capture_actions.specs.declared.port_text_plan.PortTextPlan.{PortTextPlan};
    ghost use Rattle.recovery_listing.specs.PortText.{noted_text, port_text_meaning};
    ghost use Rattle.recovery_listing.specs.PortTextLaws.{port_text_lawful};
    ghost use Rattle.recovery_listing.specs.Text.{HasPut, IsSilent, asked, gets};
    ghost use Rattle.recovery_listing.specs.TextLaws.{goes_on, same};

    type Asked = GoingOn<PortTextPlan>;

    ghost asked = { asked };

    ghost capture = { λ asked. asked.plan.plan };

    ghost stands = { HasPut };

    ghost live = { IsSilent };

    ghost gets = { gets };

    ghost meaning = { port_text_meaning };

    ghost noted = { noted_text };

    ghost lawful = { port_text_lawful };

    ghost sound = { λ asked bytes h. h };

    ghost captured = { λ account how. refl };

    ghost same = { same };

    ghost goes_on = { goes_on };

    fn has_fault(&self) -> bool {
        self.is_faulty
    }

    fn take(
        &mut self,
        engine: &mut Recovery,
        piece: &[u8],
        outlet: &mut Outlet,
        notes: &mut Outlet,
    ) -> usize {
        self.take_noting(engine, piece, outlet, notes)
    }

    #[inline]
    fn pour(&mut self, _outlet: &mut Outlet) -> bool {
        false
    }

    fn finish(&mut self, _engine: &Recovery, _outlet: &mut Outlet) {}

    fn is_due(&self) -> bool {
        false
    }
}
