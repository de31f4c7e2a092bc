//! `vcd`: the value dump of an ITM source.

ghost use Rattle.std.specs.Prelude.{◌≡◌, ◌+◌, ◌<◌, ◌≤◌, ◌++◌, ℕ, List, [], length, is_none, option_map, true};
ghost use Rattle.std.specs.Option.{ForSome};
ghost use Rattle.source_merge.specs.Engine.{next_of};
ghost use Rattle.value_dump.specs.Dumping.{owed_by};
ghost use Rattle.value_dump.specs.Names.{ACTION_ROOM, OUTLET_ROOM, placed, is_sound, stop_of, fault_of, is_live};
ghost use Rattle.value_dump.specs.Vcd.{beginning};
ghost use Rattle.value_dump.specs.declared.values.TheConstants.{ALL_ROOM};

use crate::dump::ValueDump;
use crate::source_dump::SourceDump;
use crate::vcd_plan::VcdPlan;
use source_events::Stop;
use source_merge::Engine;
use trace_stream::{Action, Outlet, Progress};

/// The reading of a capture, and the source whose value dump is written.
#[derive(Drop)]
pub struct Vcd {
    engine: Engine,
    source: SourceDump,
    stop: Option<Stop>,
    ghost alive: { is_live engine ≡ is_none stop },
    ghost fresh: { next_of engine ≡ 0 → owed_by source.dump ≡ 0 },
}

impl Vcd {
    ghost use Rattle.value_dump.specs.VcdStands.{plan_of, Stands, taken_by, IsLive};

    /// Nothing is read yet. The plan is sound, and its clock has at least one Hz.
    pub fn new(plan: VcdPlan) -> Vcd
        requires sound { is_sound plan.plan ≡ true }
        requires some { ForSome plan.hz (λ n. 0 < n) }
        ensures plan { plan_of result ≡ plan }
        ensures stands { Stands result [] }
        ensures count { taken_by result ≡ 0 }
        ensures live { IsLive result }
    {
        let source = SourceDump {
            source: plan.plan.itm.as_slice().first().copied(),
            dump: ValueDump::new(plan.hz),
        };
        Vcd {
            engine: Engine::new(plan.plan),
            source,
            stop: None,
        }
    }

    /// Puts the header, if nothing is read yet.
    fn begin(&self, outlet: &mut Outlet)
        requires room { length outlet.old + ACTION_ROOM ≤ OUTLET_ROOM }
        ensures text { (seen : List ℕ) → Stands self.now seen →
            outlet.new ≡ outlet.old ++ beginning (plan_of self.now) seen }
        ensures bound { length outlet.new + owed_by self.now.source.dump ≤ length outlet.old + ALL_ROOM }
    {
        self.source.begin(outlet, self.engine.next() != 0);
    }

    /// The fault of the report, if it has one: the port's or a source's.
    pub fn stop(&self) -> Option<Stop>
        ensures { (seen : List ℕ) → Stands self.now seen →
            option_map stop_of result ≡ fault_of (plan_of self.now).plan (placed seen) }
    {
        self.stop
    }
}

/// Lines are put at each local timestamp, and the rest at the end, also at a fault.
impl Action for Vcd {
    ghost use Rattle.value_dump.specs.Vcd.{vcd_meaning};
    ghost use Rattle.value_dump.specs.VcdLaws.{vcd_lawful};
    ghost use Rattle.value_dump.specs.VcdStands.{plan_of, Stands, taken_by, IsLive};

    type Plan = VcdPlan;

    ghost plan = { plan_of };

    ghost live = { IsLive };

    ghost taken = { taken_by };

    ghost stands = { Stands };

    ghost meaning = { vcd_meaning };

    ghost lawful = { vcd_lawful };

    #[inline]
    fn pour(&mut self, _outlet: &mut Outlet) -> bool {
        false
    }

    /// Takes a whole frame, or bytes up to a synchronisation or a fault, or packets, and puts the lines of what they
    /// tell; before the first byte the header.
    fn feed(&mut self, piece: &[u8], outlet: &mut Outlet, _notes: &mut Outlet) -> Progress {
        let at = self.engine.next();
        self.begin(outlet);
        let bytes = self
            .engine
            .take(at, piece, &mut self.stop, &mut self.source, outlet);
        Progress {
            bytes,
            is_faulty: self.stop.is_some(),
        }
    }

    fn finish(&mut self, outlet: &mut Outlet) {
        self.begin(outlet);
        self.source.dump.put_pending(outlet);
    }

    fn is_due(&self) -> bool {
        true
    }
}
