//! The plan of a capture, with a table of the sources that send STP packets.

ghost use Rattle.std.specs.Prelude.{◌≡◌, Some};
ghost use Rattle.capture_actions.specs.Names.{Plan};
ghost use Rattle.capture_actions.specs.Faulty.{is_stp, IsTable};

use source_events::{Plan, SourceIds};
use std::marker::Model;
use trace_values::{ID_COUNT, SourceId};

/// How a capture is read, and beside it for each ID whether that source sends STP packets: a line asks one load of it.
#[derive(Drop)]
pub struct PlanTable {
    plan: Plan,
    stp: [bool; ID_COUNT],
}

impl Model for PlanTable {
    ghost use Rattle.source_events.specs.declared.plan.Plan.{Plan};
    ghost use Rattle.capture_actions.specs.Faulty.{IsTable};

    ghost Value = { Plan };

    ghost view = { λ t. t.plan };

    ghost invariant = { λ t. IsTable t.plan t.stp };
}

/// The source sends STP packets.
#[inline]
pub(crate) fn sends_stp(plan: &Plan, source: Option<SourceId>) -> bool
    ensures { result ≡ is_stp plan.now source }
{
    match source {
        None => false,
        Some(id) => plan.stp.contains(id),
    }
}

/// The same IDs.
fn same_ids(ids: &SourceIds) -> SourceIds
    ensures { result ≡ ids.now }
{
    let mut same = SourceIds::new();
    for id in ids.as_slice() {
        same.push(*id);
    }
    same
}

/// The same plan.
fn same_plan(plan: &Plan) -> Plan
    ensures { result ≡ plan.now }
{
    Plan {
        frames: plan.frames,
        packets: plan.packets,
        itm: same_ids(&plan.itm),
        stp: same_ids(&plan.stp),
        order: plan.order,
    }
}

/// For each ID whether its source sends STP packets.
fn stp_table(plan: &Plan) -> [bool; ID_COUNT]
    ensures { IsTable plan.now result }
{
    let mut stp = [false; ID_COUNT];
    for number in 0..ID_COUNT as u8 {
        stp[number as usize] = sends_stp(plan, SourceId::new(number));
    }
    stp
}

impl PlanTable {
    /// That of this plan.
    pub fn new(plan: &Plan) -> PlanTable
        ensures { result ≡ plan.now }
    {
        PlanTable {
            plan: same_plan(plan),
            stp: stp_table(plan),
        }
    }

    /// The plan.
    #[inline(always)]
    pub fn plan(&self) -> &Plan
        ensures { result.now ≡ self.now }
    {
        &self.plan
    }

    /// The source of this ID sends STP packets.
    #[inline(always)]
    pub fn sends_stp(&self, id: SourceId) -> bool
        ensures { result ≡ is_stp self.now (Some id) }
    {
        self.stp[id.number() as usize]
    }
}
