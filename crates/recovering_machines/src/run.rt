//! A run of a recovering source.

ghost use Rattle.std.specs.Prelude.{◌≡◌, ◌+◌, ◌-◌, ◌*◌, ◌<◌, ◌≤◌, IfSome, length, Some};
ghost use Rattle.source_events.specs.Fitting.{PacketFits};
ghost use Rattle.source_events.specs.Merge.{told};
ghost use Rattle.source_events.specs.Report.{lifted};
ghost use Rattle.stretch_readings.specs.Steps.{said_by};
ghost use Rattle.recovering_machines.specs.Found.{ended, heard_in};
ghost use Rattle.recovering_machines.specs.Run.{GoesOn, TakesRun, between};
ghost use Rattle.recovering_machines.specs.Source.{Stands, total_of};
ghost use Rattle.stretch_readings.specs.Stretches.{Stretches};
ghost use Rattle.trace_values.specs.Stream.{StepFits};
ghost use Rattle.trace_values.specs.declared.limits.TheConstants.{COUNT_ROOM};

use crate::receiver::Receiver;
use crate::source::RecoveringSource;
use frame_runs::Run;
use source_events::{Event, Packet, What};
use stretch_readings::Heard;
use trace_values::{SourceId, Step};

/// What a source says at this half of the byte at this offset.
pub(crate) fn event_at(
    id: SourceId,
    at: u64,
    half: u8,
    what: What<Heard<Packet>>,
) -> Event<Heard<Packet>>
    ensures { result ≡ record { at = at; half = half; source = Some id; what = what } }
{
    Event {
        at,
        half,
        source: Some(id),
        what,
    }
}

/// Gives the events of an answer to the byte at this offset.
pub(crate) fn give_step<V: Receiver>(
    id: SourceId,
    at: u64,
    step: Step<Packet>,
    out: &mut V,
    to: &mut V::To,
)
    requires fits { StepFits PacketFits step }
    requires room { 2 ≤ V.room (out.old, to.old) }
    ensures received { V.gets (out.old, to.old) (told (Some id) (lifted (said_by at step))) (out.new, to.new) }
    ensures room { V.room (out.old, to.old) ≤ V.room (out.new, to.new) + 2 }
{
    match step {
        Step::Quiet | Step::Skipping => {}
        Step::Item { half, item } => {
            out.give(to, event_at(id, at, half, What::Packet(Heard::Read(item))));
        }
        Step::Locked {
            skipped,
            half,
            item,
        } => {
            out.give(to, event_at(id, at, half, What::Locked(skipped)));
            out.give(to, event_at(id, at, half, What::Packet(Heard::Read(item))));
        }
        Step::Fault(fault) => {
            let what = What::Packet(Heard::Broken(fault.reason));
            out.give(to, event_at(id, at, fault.half, what));
        }
    }
}

/// Gives the packet that ends with the byte at this offset, where one does.
fn give_packet<V: Receiver>(
    id: SourceId,
    at: u64,
    half: u8,
    item: Option<Packet>,
    out: &mut V,
    to: &mut V::To,
)
    requires fits { IfSome item PacketFits }
    requires room { 1 ≤ V.room (out.old, to.old) }
    ensures received { V.gets (out.old, to.old) (told (Some id) (lifted (heard_in (ended half at item))))
        (out.new, to.new) }
    ensures room { V.room (out.old, to.old) ≤ V.room (out.new, to.new) + 1 }
{
    if let Some(packet) = item {
        out.give(
            to,
            event_at(id, at, half, What::Packet(Heard::Read(packet))),
        );
    }
}

/// Takes bytes of a run of this source from this index on, within the unfinished packet, up to the one in which it
/// ends, or all of them. Gives the packet, and answers the index after them: this index where nothing is known of the
/// bytes.
#[inline(always)]
pub(crate) fn take_within<R: Run, V: Receiver>(
    source: &mut RecoveringSource,
    id: SourceId,
    run: &R,
    from: usize,
    out: &mut V,
    to: &mut V::To,
) -> usize
    requires from { from < length (R.cells run.now) }
    requires few { total_of source.old + 4 * (length (R.cells run.now) - from) ≤ COUNT_ROOM }
    requires room { 2 * (length (R.cells run.now) - from) ≤ V.room (out.old, to.old) }
    ensures within { (from ≤ result) × (result ≤ length (R.cells run.now)) }
    ensures takes { TakesRun V.gets V.room id (between from result (R.cells run.now)) source.old source.new
        (out.old, to.old) (out.new, to.new) }
    ensures goes { (r : Stretches) → Stands source.old r →
        GoesOn source.old r (between from result (R.cells run.now)) }
{
    let bytes = &run.ahead()[from..run.len()];
    if let Some(taken) = source.take(bytes) {
        let end = from + taken.bytes;
        give_packet(id, run.cell(end - 1).at, taken.half, taken.item, out, to);
        return end;
    }
    from
}

/// Takes the byte of a run of this source at this index, and gives its events.
#[inline(always)]
pub(crate) fn take_one<R: Run, V: Receiver>(
    source: &mut RecoveringSource,
    id: SourceId,
    run: &R,
    from: usize,
    out: &mut V,
    to: &mut V::To,
)
    requires from { from < length (R.cells run.now) }
    requires few { total_of source.old ≤ COUNT_ROOM }
    requires room { 2 ≤ V.room (out.old, to.old) }
    ensures { TakesRun V.gets V.room id (between from (from + 1) (R.cells run.now)) source.old source.new
        (out.old, to.old) (out.new, to.new) }
{
    let cell = run.cell(from);
    let step = source.feed(cell.at, cell.byte);
    give_step(id, cell.at, step, out, to);
}
