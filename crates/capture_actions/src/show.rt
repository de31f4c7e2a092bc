//! `show`: the listing of the events of a capture.

ghost use Rattle.std.specs.Prelude.{◌≡◌, [], true};
ghost use Rattle.capture_actions.specs.Names.{is_sound};

use crate::list_plan::ListPlan;
use crate::lister::Lister;
use crate::plan_table::sends_stp;
use crate::reading::{CaptureReading, TURNS};
use trace_stream::{Action, Outlet, Progress};
use trace_text::{print_fault, print_tails};

/// The reading of a capture, and what its listing needs of it.
#[derive(Drop)]
pub struct Show {
    reading: CaptureReading,
    lister: Lister,
}

impl Show {
    ghost use Rattle.capture_actions.specs.Show.{plan_of, Stands, taken_by, IsLive};

    /// Nothing is read yet. The plan is sound.
    pub fn new(plan: ListPlan) -> Show
        requires sound { is_sound plan.plan ≡ true }
        ensures plan { plan_of result ≡ plan }
        ensures fresh { Stands result [] × (taken_by result ≡ 0) × IsLive result }
    {
        let only = plan.only;
        Show {
            lister: Lister::new(&plan.plan, only, plan.window),
            reading: CaptureReading::new(plan.plan),
        }
    }
}

impl Action for Show {
    ghost use Rattle.capture_actions.specs.Listing.{show_meaning};
    ghost use Rattle.capture_actions.specs.ListingLaws.{show_lawful};
    ghost use Rattle.capture_actions.specs.Show.{plan_of, Stands, taken_by, IsLive};

    type Plan = ListPlan;

    ghost plan = { plan_of };

    ghost live = { IsLive };

    ghost taken = { taken_by };

    ghost stands = { Stands };

    ghost meaning = { show_meaning };

    ghost lawful = { show_lawful };

    #[inline]
    fn pour(&mut self, _outlet: &mut Outlet) -> bool {
        false
    }

    /// Takes bytes while the outlet has room for the lines of a frame, and puts the lines of their events.
    fn feed(&mut self, piece: &[u8], outlet: &mut Outlet, _notes: &mut Outlet) -> Progress {
        self.reading.take(TURNS, piece, &mut self.lister, outlet)
    }

    fn finish(&mut self, outlet: &mut Outlet) {
        match self.reading.stop {
            None => print_tails(outlet, &self.reading.engine.finish()),
            Some(stop) => {
                print_fault(
                    outlet,
                    &stop,
                    sends_stp(self.reading.engine.plan(), stop.source),
                );
            }
        }
    }

    fn is_due(&self) -> bool {
        false
    }
}
