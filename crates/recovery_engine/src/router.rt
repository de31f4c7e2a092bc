//! What a step of the port ends, part by part.

ghost use Rattle.std.specs.Prelude.{◌≡◌, ◌+◌, ◌*◌, ◌^◌, ◌<◌, ◌≤◌, ◌∷◌, [], length, map};
ghost use Rattle.frame_grammar.specs.Frame.{cells};
ghost use Rattle.frame_runs.specs.Gathered.{frame_places};
ghost use Rattle.trace_values.specs.declared.limits.TheConstants.{COUNT_ROOM};
ghost use Rattle.source_events.specs.Merge.{told};
ghost use Rattle.source_events.specs.Report.{raw_events, triggers};
ghost use Rattle.source_events.specs.Runs.{runs_of};
ghost use Rattle.frame_runs.specs.Run.{IsRunOf};
ghost use Rattle.std.specs.Prelude.{Some};
ghost use Rattle.recovery_report.specs.Report.{Run as RunPart};
ghost use Rattle.recovery_report.specs.Words.{AreOf, parts_by, singles};
ghost use Rattle.recovery_engine.specs.Slots.{total};
ghost use Rattle.recovery_engine.specs.Bare.{raw_each};
ghost use Rattle.recovery_engine.specs.Taking.{Takes};

use crate::slot::{RecoveringSlot, cut_all, take_own};
use deformatter::PortStep;
use frame_grammar::gather::PlacedFrame;
use frame_runs::{CellRun, PlacedData, Run, SplitFrame};
use recovering_machines::Receiver;
use source_events::{Event, What, run_length};
use stretch_readings::Heard;
use trace_values::{Cell, SourceId};

/// The null source, whose bytes only fill frames.
const NULL: u8 = 0;

/// The trigger source, each of whose bytes is an event.
const TRIGGER: u8 = 125;

/// Gives each byte of a run of the trigger source.
fn give_triggers<R: Run, V: Receiver>(id: SourceId, run: &R, out: &mut V, to: &mut V::To)
    requires room { 2 * length (R.cells run.now) ≤ V.room (out.old, to.old) }
    ensures given { V.gets (out.old, to.old) (told (Some id) (triggers (R.cells run.now))) (out.new, to.new) }
    ensures room { V.room (out.old, to.old) ≤ V.room (out.new, to.new) + 2 * length (R.cells run.now) }
{
    for index in 0..run.len() {
        let cell = run.cell(index);
        out.give_trigger(to, cell.at, id, cell.byte);
    }
}

/// Gives a run of a source that is not mapped.
#[inline(never)]
fn give_raw<R: Run, V: Receiver>(id: SourceId, run: &R, out: &mut V, to: &mut V::To)
    requires some { 0 < length (R.cells run.now) }
    requires size { length (R.cells run.now) ≤ 15 }
    requires room { 2 * length (R.cells run.now) ≤ V.room (out.old, to.old) }
    ensures given { V.gets (out.old, to.old) (told (Some id) (raw_events id (R.cells run.now))) (out.new, to.new) }
    ensures room { V.room (out.old, to.old) ≤ V.room (out.new, to.new) + 2 * length (R.cells run.now) }
{
    let number = id.number();
    if number == NULL {
        return;
    }
    if number == TRIGGER {
        give_triggers(id, run, out, to);
        return;
    }
    let count = run.len();
    let at = run.cell(count - 1).at;
    out.give_raw(to, at, id, &run.ahead()[..count]);
}

/// Takes a run of this source, or of none.
pub fn take_run<R: Run, V: Receiver>(
    slots: &mut [RecoveringSlot],
    source: &Option<SourceId>,
    run: &R,
    out: &mut V,
    to: &mut V::To,
)
    requires own { IsRunOf source.now (R.cells run.now) }
    requires few { total slots.old + 6 * length (R.cells run.now) ≤ COUNT_ROOM }
    requires room { 2 * length (R.cells run.now) ≤ V.room (out.old, to.old) }
    ensures takes { Takes V.gets (RunPart (R.cells run.now) ∷ [])
        (slots.old, (out.old, to.old)) (slots.new, (out.new, to.new)) }
    ensures len { length slots.new ≡ length slots.old }
    ensures few { total slots.new ≤ total slots.old + 6 * length (R.cells run.now) }
    ensures room { V.room (out.old, to.old) ≤ V.room (out.new, to.new) + 2 * length (R.cells run.now) }
{
    let Some(id) = *source else {
        return;
    };
    if !take_own(slots, id, run, out, to) {
        give_raw(id, run, out, to);
    }
}

/// Takes a whole frame, which comes after this ID, run by run.
pub fn take_whole<V: Receiver>(
    slots: &mut [RecoveringSlot],
    frame: &PlacedFrame,
    id: &Option<SourceId>,
    out: &mut V,
    to: &mut V::To,
)
    requires near { frame.now.at + 255 < 2 ^ 64 }
    requires few { total slots.old + 90 ≤ COUNT_ROOM }
    requires room { 30 ≤ V.room (out.old, to.old) }
    ensures takes { Takes V.gets (map RunPart (runs_of (cells frame.now.bytes (frame_places frame.now) id.now)))
        (slots.old, (out.old, to.old)) (slots.new, (out.new, to.new)) }
    ensures len { length slots.new ≡ length slots.old }
    ensures few { total slots.new ≤ total slots.old + 90 }
    ensures room { V.room (out.old, to.old) ≤ V.room (out.new, to.new) + 30 }
{
    let placed = PlacedData::of(frame);
    let split = SplitFrame::of(frame, &placed, id);
    let mut left = split.runs();
    while let Some(run) = split.next_run(&mut left) {
        take_run(slots, &run.source(), &run, out, to);
    }
}

/// Gives each byte of a source that is not mapped as a run of its own.
fn give_each<R: Run, V: Receiver>(id: SourceId, run: &R, out: &mut V, to: &mut V::To)
    requires room { 2 * length (R.cells run.now) ≤ V.room (out.old, to.old) }
    ensures given { V.gets (out.old, to.old) (raw_each id (R.cells run.now)) (out.new, to.new) }
    ensures room { V.room (out.old, to.old) ≤ V.room (out.new, to.new) + 2 * length (R.cells run.now) }
{
    for index in 0..run.len() {
        let only = run.cell(index);
        let cells = [only];
        give_raw(id, &CellRun::of(&cells), out, to);
    }
}

/// Takes bytes of one source, each of which is a run of its own.
pub fn take_each<R: Run, V: Receiver>(
    slots: &mut [RecoveringSlot],
    id: SourceId,
    run: &R,
    out: &mut V,
    to: &mut V::To,
)
    requires own { AreOf id (R.cells run.now) }
    requires few { total slots.old + 6 * length (R.cells run.now) ≤ COUNT_ROOM }
    requires room { 2 * length (R.cells run.now) ≤ V.room (out.old, to.old) }
    ensures takes { Takes V.gets (singles (R.cells run.now))
        (slots.old, (out.old, to.old)) (slots.new, (out.new, to.new)) }
    ensures len { length slots.new ≡ length slots.old }
    ensures few { total slots.new ≤ total slots.old + 6 * length (R.cells run.now) }
    ensures room { V.room (out.old, to.old) ≤ V.room (out.new, to.new) + 2 * length (R.cells run.now) }
{
    if !take_own(slots, id, run, out, to) {
        give_each(id, run, out, to);
    }
}

/// Takes the cells of a frame, run by run.
fn take_frame<V: Receiver>(
    slots: &mut [RecoveringSlot],
    cells: &[Cell],
    out: &mut V,
    to: &mut V::To,
)
    requires size { length cells.now ≤ 15 }
    requires few { total slots.old + 6 * length cells.now ≤ COUNT_ROOM }
    requires room { 2 * length cells.now ≤ V.room (out.old, to.old) }
    ensures takes { Takes V.gets (map RunPart (runs_of cells.now))
        (slots.old, (out.old, to.old)) (slots.new, (out.new, to.new)) }
    ensures len { length slots.new ≡ length slots.old }
    ensures few { total slots.new ≤ total slots.old + 6 * length cells.now }
    ensures room { V.room (out.old, to.old) ≤ V.room (out.new, to.new) + 2 * length cells.now }
{
    if cells.is_empty() {
        return;
    }
    let n = run_length(cells);
    let run = &cells[..n];
    take_run(slots, &run[0].id, &CellRun::of(run), out, to);
    take_frame(slots, &cells[n..], out, to);
}

/// Takes what a step of the port at this offset ends: a frame of these cells, the bytes before a lock, or the lists of
/// all sources.
pub fn take_step<V: Receiver>(
    slots: &mut [RecoveringSlot],
    at: u64,
    step: PortStep,
    cells: &[Cell],
    out: &mut V,
    to: &mut V::To,
)
    requires size { length cells.now ≤ 15 }
    requires few { total slots.old + 90 ≤ COUNT_ROOM }
    requires room { 30 ≤ V.room (out.old, to.old) }
    ensures takes { Takes V.gets (parts_by 0 at step cells.now)
        (slots.old, (out.old, to.old)) (slots.new, (out.new, to.new)) }
    ensures len { length slots.new ≡ length slots.old }
    ensures few { total slots.new ≤ total slots.old + 90 }
    ensures room { V.room (out.old, to.old) ≤ V.room (out.new, to.new) + 30 }
{
    match step {
        PortStep::Quiet | PortStep::Half | PortStep::Full => {}
        PortStep::Frame => take_frame(slots, cells, out, to),
        PortStep::Locked { skipped } => {
            let event = Event {
                at,
                half: 0,
                source: None,
                what: What::Locked(skipped),
            };
            out.give(to, event);
        }
        PortStep::Fault(fault) => {
            let event = Event {
                at: fault.at,
                half: fault.half,
                source: None,
                what: What::Packet(Heard::Broken(fault.reason)),
            };
            out.give(to, event);
            cut_all(slots);
        }
    }
}
