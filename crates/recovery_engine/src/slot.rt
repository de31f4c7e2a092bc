//! The mapped sources of a recovering engine.

ghost use Rattle.std.specs.Prelude.{◌≡◌, ◌+◌, ◌*◌, ◌≤◌, length, true, false, None};
ghost use Rattle.trace_values.specs.declared.limits.TheConstants.{COUNT_ROOM};
ghost use Rattle.std.specs.Prelude.{ℕ};
ghost use Rattle.arrayvec.specs.ArrayVec.{array_vec_len};
ghost use Rattle.source_events.specs.declared.plan.TheConstants.{MAPPED_SOURCES};
ghost use Rattle.recovery_engine.specs.Fresh.{AreFresh, IsAdded};
ghost use Rattle.recovery_engine.specs.Slots.{source_at, total};
ghost use Rattle.recovery_engine.specs.Taking.{AreCut, TakesOwn};

use arrayvec::ArrayVec;
use frame_runs::Run;
use recovering_machines::{MappedSource, Receiver};
use source_events::{MAPPED_SOURCES, Plan, SourceKind};
use stp_grammar::packet::Order;
use trace_values::{PacketsMode, SourceId};

/// A mapped source, and what reads its bytes.
#[derive(Drop)]
pub struct RecoveringSlot {
    pub id: SourceId,
    pub source: MappedSource,
}

/// The default slot only fills the unused places of a buffer.
impl Default for RecoveringSlot {
    fn default() -> RecoveringSlot {
        RecoveringSlot {
            id: SourceId::default(),
            source: MappedSource::new(SourceKind::Itm, PacketsMode::Aligned, Order::Msn, false),
        }
    }
}

/// The mapped sources of a plan.
pub type Slots = ArrayVec<RecoveringSlot, MAPPED_SOURCES>;

/// Those of a plan, each before its first byte, with guesses or without.
pub fn slots_of(plan: &Plan, guesses: bool) -> Slots
    ensures fresh { AreFresh guesses plan.now result.items }
    ensures few { total result.items ≤ 0 }
{
    let mut slots = ArrayVec::new();
    add_slots(
        &mut slots,
        SourceKind::Itm,
        plan.itm.as_slice(),
        plan,
        guesses,
    );
    add_slots(
        &mut slots,
        SourceKind::Stp,
        plan.stp.as_slice(),
        plan,
        guesses,
    );
    slots
}

/// Adds the sources of these IDs, which are of one kind.
fn add_slots(slots: &mut Slots, kind: SourceKind, ids: &[SourceId], plan: &Plan, guesses: bool)
    requires room { array_vec_len slots.old + length ids.now ≤ MAPPED_SOURCES }
    ensures added { (x : ℕ) →
        IsAdded guesses plan.now kind ids.now x (source_at slots.old.items x) (source_at slots.new.items x) }
    ensures count { array_vec_len slots.new ≡ array_vec_len slots.old + length ids.now }
    ensures few { total slots.new.items ≤ total slots.old.items }
{
    for id in ids {
        slots.push(RecoveringSlot {
            id: *id,
            source: MappedSource::new(kind, plan.packets, plan.order, guesses),
        });
    }
}

/// Takes a run of the source of this ID, and gives its events. False where there is no such source.
pub fn take_own<R: Run, V: Receiver>(
    slots: &mut [RecoveringSlot],
    id: SourceId,
    run: &R,
    out: &mut V,
    to: &mut V::To,
) -> bool
    requires few { total slots.old + 6 * length (R.cells run.now) ≤ COUNT_ROOM }
    requires room { 2 * length (R.cells run.now) ≤ V.room (out.old, to.old) }
    ensures own { result ≡ true → TakesOwn V.gets V.room id (R.cells run.now)
        (slots.old, (out.old, to.old)) (slots.new, (out.new, to.new)) }
    ensures other { result ≡ false →
        (slots.new ≡ slots.old) × (out.new ≡ out.old) × (to.new ≡ to.old) × (source_at slots.old id ≡ None) }
    ensures len { length slots.new ≡ length slots.old }
    ensures few { total slots.new ≤ total slots.old + 6 * length (R.cells run.now) }
    ensures room { V.room (out.old, to.old) ≤ V.room (out.new, to.new) + 2 * length (R.cells run.now) }
{
    let Some((slot, rest)) = slots.split_first_mut() else {
        return false;
    };
    if slot.id == id {
        slot.source.take_run(id, run, out, to);
        return true;
    }
    take_own(rest, id, run, out, to)
}

/// Cuts the lists of all sources.
pub fn cut_all(slots: &mut [RecoveringSlot])
    requires few { total slots.old ≤ COUNT_ROOM }
    ensures cut { AreCut slots.old slots.new }
    ensures len { length slots.new ≡ length slots.old }
    ensures few { total slots.new ≤ total slots.old }
{
    let Some((slot, rest)) = slots.split_first_mut() else {
        return;
    };
    slot.source.cut();
    cut_all(rest);
}
