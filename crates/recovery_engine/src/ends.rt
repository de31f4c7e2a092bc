//! How the port and the mapped sources of a recovering engine end.

ghost use Rattle.std.specs.Prelude.{◌≡◌, ◌≤◌, length, List, Bool, IfSome, Some, is_some, true};
ghost use Rattle.trace_values.specs.Placed.{Placed};
ghost use Rattle.trace_values.specs.declared.limits.TheConstants.{COUNT_ROOM, ID_COUNT};
ghost use Rattle.source_events.specs.Plan.{kind_of};
ghost use Rattle.source_events.specs.declared.plan.TheConstants.{MAPPED_SOURCES};
ghost use Rattle.recovery_engine.specs.Ends.{all_of};
ghost use Rattle.recovering_machines.specs.Port as ports;
ghost use Rattle.recovering_machines.specs.Mapped.{total_of};
ghost use Rattle.recovery_report.specs.Port.{recovered};
ghost use Rattle.recovery_report.specs.Report.{Part, mode_by, source_tails, tail_by};
ghost use Rattle.recovery_engine.specs.Ends.{EndsAs, end_of};
ghost use Rattle.recovery_engine.specs.Port.{PortStands};
ghost use Rattle.recovery_engine.specs.Slots.{StandFor, source_at, total};

use crate::slot::RecoveringSlot;
use recovering_machines::RecoveringPort;
use source_events::{Plan, PortMode, SourceKind, SourceTail, SourceTails};
use trace_values::{FramesMode, ID_COUNT, SourceId};

/// How a port ends: how its last stretch was read, and how many bytes were skipped, and are left over.
#[derive(Drop)]
pub struct PortEnd {
    pub mode: PortMode,
    pub skipped: u64,
    pub tail: u64,
}

/// How a stretch that hunts or not, and has locked or not, was read.
fn mode_of(hunts: bool, locked: bool) -> PortMode
    ensures { result ≡ mode_by hunts locked }
{
    match (hunts, locked) {
        (false, _) => PortMode::Aligned,
        (true, true) => PortMode::Locked,
        (true, false) => PortMode::Hunting,
    }
}

/// How a port that is read in this mode ends.
pub fn port_end(port: &RecoveringPort, mode: FramesMode) -> PortEnd
    requires room { ports.total_of port.now ≤ COUNT_ROOM }
    ensures { (u : List Placed) → PortStands mode port.now u → result ≡ end_of mode (recovered mode u) }
{
    match mode {
        FramesMode::Bare => PortEnd {
            mode: PortMode::Bare,
            skipped: 0,
            tail: 0,
        },
        FramesMode::Hunt | FramesMode::Aligned => PortEnd {
            mode: mode_of(port.hunts(), port.is_locked()),
            skipped: port.skipped(),
            tail: port.tail(),
        },
    }
}

/// How each mapped source ends, in increasing order of ID.
pub fn source_tails(plan: &Plan, slots: &[RecoveringSlot]) -> SourceTails
    requires few { length slots.now ≤ MAPPED_SOURCES }
    requires room { total slots.now ≤ COUNT_ROOM }
    ensures { (guesses : Bool) (parts : List Part) → StandFor guesses plan.now parts slots.now →
        result ≡ source_tails plan.now parts ID_COUNT }
{
    let mut tails = SourceTails::new();
    for number in 0..ID_COUNT as u8 {
        if let Some(tail) = numbered_tail(plan, slots, number) {
            tails.push(tail);
        }
    }
    tails
}

/// How the source of this number ends, if it is mapped.
fn numbered_tail(plan: &Plan, slots: &[RecoveringSlot], number: u8) -> Option<SourceTail>
    requires source { number ≤ 126 }
    requires room { total slots.now ≤ COUNT_ROOM }
    ensures tail { (guesses : Bool) (parts : List Part) → StandFor guesses plan.now parts slots.now →
        all_of result ≡ tail_by plan.now parts number (kind_of plan.now number) }
    ensures found { IfSome result (λ tail. is_some (source_at slots.now number) ≡ true) }
{
    let id = SourceId::new(number)?;
    let kind = plan.kind_of(id)?;
    source_tail(slots, id, kind)
}

/// How the source of this ID ends, whose kind is known.
fn source_tail(slots: &[RecoveringSlot], id: SourceId, kind: SourceKind) -> Option<SourceTail>
    requires room { total slots.now ≤ COUNT_ROOM }
    ensures { EndsAs id kind (source_at slots.now id) result }
{
    let Some((slot, rest)) = slots.split_first() else {
        return None;
    };
    if slot.id == id {
        return Some(slot_tail(slot, kind));
    }
    source_tail(rest, id, kind)
}

/// How the source of a slot ends.
fn slot_tail(slot: &RecoveringSlot, kind: SourceKind) -> SourceTail
    requires room { total_of slot.now.source ≤ COUNT_ROOM }
    ensures { EndsAs slot.now.id kind (Some slot.now.source) (Some result) }
{
    let source = &slot.source;
    SourceTail {
        id: slot.id,
        kind,
        mode: mode_of(source.hunts(), source.is_locked()),
        skipped: source.skipped(),
        tail: source.held(),
    }
}
