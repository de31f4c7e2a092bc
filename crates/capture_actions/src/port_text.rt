//! `text`: the values that software wrote to one stimulus port of an ITM source.

ghost use Rattle.std.specs.Prelude.{◌≡◌, ℕ, List, [], option_map, true};
ghost use Rattle.capture_actions.specs.Names.{placed, is_sound, stop_of, fault_of};

use crate::port_text_plan::PortTextPlan;
use crate::port_values::PortValues;
use crate::reading::{CaptureReading, TURNS};
use source_events::Stop;
use trace_stream::{Action, Outlet, Progress};

/// The reading of a capture, and whose values are written.
#[derive(Drop)]
pub struct PortText {
    reading: CaptureReading,
    values: PortValues,
}

impl PortText {
    ghost use Rattle.capture_actions.specs.PortTexter.{plan_of, Stands, taken_by, IsLive};

    /// Nothing is read yet. The plan is sound.
    pub fn new(plan: PortTextPlan) -> PortText
        requires sound { is_sound plan.plan ≡ true }
        ensures plan { plan_of result ≡ plan }
        ensures fresh { Stands result [] × (taken_by result ≡ 0) × IsLive result }
    {
        let values = PortValues {
            source: plan.plan.itm.as_slice().first().copied(),
            port: plan.port,
        };
        PortText {
            reading: CaptureReading::new(plan.plan),
            values,
        }
    }

    /// The fault of the report, if it has one: the port's or a source's.
    pub fn stop(&self) -> Option<Stop>
        ensures { (seen : List ℕ) → Stands self.now seen →
            option_map stop_of result ≡ fault_of (plan_of self.now).plan (placed seen) }
    {
        self.reading.stop
    }
}

/// Only the values are written: nothing comes after them, not at a fault either.
impl Action for PortText {
    ghost use Rattle.capture_actions.specs.PortText.{port_text_meaning};
    ghost use Rattle.capture_actions.specs.PortTextLaws.{port_text_lawful};
    ghost use Rattle.capture_actions.specs.PortTexter.{plan_of, Stands, taken_by, IsLive};

    type Plan = PortTextPlan;

    ghost plan = { plan_of };

    ghost live = { IsLive };

    ghost taken = { taken_by };

    ghost stands = { Stands };

    ghost meaning = { port_text_meaning };

    ghost lawful = { port_text_lawful };

    #[inline]
    fn pour(&mut self, _outlet: &mut Outlet) -> bool {
        false
    }

    /// Takes a whole frame, or bytes up to a synchronisation or a fault, or packets, and puts the values among them.
    fn feed(&mut self, piece: &[u8], outlet: &mut Outlet, _notes: &mut Outlet) -> Progress {
        self.reading.take(TURNS, piece, &mut self.values, outlet)
    }

    fn finish(&mut self, _outlet: &mut Outlet) {}

    fn is_due(&self) -> bool {
        false
    }
}
