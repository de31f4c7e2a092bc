//! A job, done.

ghost use Rattle.std.specs.Prelude.{◌≡◌, ◌≤◌, [], codes, IfOk};
ghost use Rattle.trace_stream.specs.Pumped.{counts};
ghost use Rattle.trace_stream.specs.declared.limits.TheConstants.{GREATEST_CAPTURE};
ghost use Rattle.capture_words.specs.Jobs.{IsSoundTask};
ghost use Rattle.capture_run.specs.Actions.{HasDone, IsNew};
ghost use Rattle.trace_stream.specs.Told.{Notes};
ghost use Rattle.capture_run.specs.Run.{HasRun, IsCaused, task_of, streams};

use crate::actions::CommandAction;
use crate::exercise::run_exercise;
use crate::notes::{note, note_done, note_fault, note_over};
use crate::pages::print_page;
use crate::reading::{run_check, run_reading};
use crate::status::Status;
use capture_actions::{ListPlan, PortTextPlan, Realign, Ring, Split, SplitPlan, Unring};
use capture_words::{Job, Task};
use script_rebuild::{Rebuild, RebuildPlan};
use source_events::Plan;
use std::alloc::{AllocError, Global};
use trace_funnel::Turns;
use trace_io::{Sink, Source};
use trace_stream::{Buffers, Outcome, serve};
use value_dump::VcdPlan;

/// Notes that there is no memory, and answers how the run ends then.
fn note_no_memory<N: Sink>(notes: &mut N) -> Status
    ensures noted { Notes (N.held notes.old) (N.held notes.new) (N.faults notes.old) (N.faults notes.new)
        (codes "no memory\n") }
    ensures status { result ≡ Status.NoMemory }
{
    note(notes, b"no memory\n");
    Status::NoMemory
}

/// Serves the input by an action that has read nothing, if there was memory for it, and notes how that ended.
pub fn run_action<A: CommandAction + Drop, I: Source, O: Sink, N: Sink>(
    buffers: &mut Buffers,
    opened: Result<A, AllocError>,
    limit: u64,
    input: &mut I,
    output: &mut O,
    notes: &mut N,
) -> Status
    requires empty { (buffers.old.pending ≡ []) × (buffers.old.recent ≡ []) }
    requires fresh { IfOk opened (λ a.
        IsNew (A.live a) (A.stands a) (A.taken a) (A.debt a) (A.noted (A.plan a) [])) }
    requires small { limit ≤ GREATEST_CAPTURE }
    ensures ran { (p : A.Plan) → IfOk opened (λ a. A.plan a ≡ p) →
        let before = streams (I.left input.old) (O.held output.old) (N.held notes.old) (N.faults notes.old) in
        let after = streams (I.left input.new) (O.held output.new) (N.held notes.new) (N.faults notes.new) in
        HasRun (task_of (A.meaning p) (A.noted p) (A.notes p)) limit before after result }
    ensures caused { let before = counts (I.empty_reads input.old) (I.faults input.old) (O.faults output.old) in
        let after = counts (I.empty_reads input.new) (I.faults input.new) (O.faults output.new) in
        IsCaused before after result }
{
    let Ok(mut action) = opened else {
        return note_no_memory(notes);
    };
    let outcome = serve(buffers, &mut action, limit, input, output, notes);
    match outcome {
        Outcome::AtEnd => {
            let ending = action.ending();
            if ending.is_late {
                note_fault(notes, &ending.fault, buffers)
            } else {
                note_done(notes, ending.done)
            }
        }
        Outcome::FaultFound => note_fault(notes, &action.ending().fault, buffers),
        Outcome::ReadFailed => {
            note(notes, b"read fault\n");
            Status::ReadFault
        }
        Outcome::WriteFailed => {
            note(notes, b"write fault\n");
            Status::WriteFault
        }
        Outcome::OverLimit => note_over(notes, action.ending().fault, limit),
    }
}

/// How a script is written: straight, or through a funnel that takes these turns.
fn script_plan(plan: Plan, sync: u32, half: u8, funnel: Option<Turns>) -> RebuildPlan
    ensures { result ≡ record { plan = plan; every = sync; halves = half; funnel = funnel } }
{
    RebuildPlan {
        plan,
        every: sync,
        halves: half,
        funnel,
    }
}

/// Does the task by these buffers.
fn run_task<I: Source, O: Sink, N: Sink>(
    alloc: Global,
    buffers: &mut Buffers,
    task: Task,
    limit: u64,
    input: &mut I,
    output: &mut O,
    notes: &mut N,
) -> Status
    requires empty { (buffers.old.pending ≡ []) × (buffers.old.recent ≡ []) }
    requires small { limit ≤ GREATEST_CAPTURE }
    requires sound { IsSoundTask task }
    ensures ran { let before = streams (I.left input.old) (O.held output.old) (N.held notes.old) (N.faults notes.old) in
        let after = streams (I.left input.new) (O.held output.new) (N.held notes.new) (N.faults notes.new) in
        HasDone task limit before after result }
    ensures caused { let before = counts (I.empty_reads input.old) (I.faults input.old) (O.faults output.old) in
        let after = counts (I.empty_reads input.new) (I.faults input.new) (O.faults output.new) in
        IsCaused before after result }
{
    match task {
        Task::Show {
            plan,
            only,
            window,
            recover,
        } => {
            let listing = ListPlan { plan, only, window };
            run_reading(
                listing, alloc, buffers, recover, limit, input, output, notes,
            )
        }
        Task::Split { frames, id } => {
            let opened = Ok(Split::new(SplitPlan { frames, id }));
            run_action(buffers, opened, limit, input, output, notes)
        }
        Task::Text {
            plan,
            port,
            recover,
        } => {
            let text = PortTextPlan { plan, port };
            run_reading(text, alloc, buffers, recover, limit, input, output, notes)
        }
        Task::Vcd { plan, hz, recover } => {
            let dump = VcdPlan { plan, hz };
            run_reading(dump, alloc, buffers, recover, limit, input, output, notes)
        }
        Task::Check {
            plan,
            recover,
            kinds,
        } => run_check(plan, kinds, buffers, recover, limit, input, output, notes),
        Task::Rebuild { plan, sync, half } => {
            let opened = Rebuild::through(alloc, script_plan(plan, sync, half, None));
            run_action(buffers, opened, limit, input, output, notes)
        }
        Task::Funnel {
            plan,
            sync,
            half,
            turns,
        } => {
            let opened = Rebuild::through(alloc, script_plan(plan, sync, half, Some(turns)));
            run_action(buffers, opened, limit, input, output, notes)
        }
        Task::Realign => run_action(buffers, Ok(Realign::new()), limit, input, output, notes),
        Task::Ring { size } => {
            let opened = Ring::open(alloc, size);
            run_action(buffers, opened, limit, input, output, notes)
        }
        Task::Unring {
            size,
            pointer,
            full,
        } => {
            let opened = Unring::open(alloc, size, pointer, full);
            run_action(buffers, opened, size as u64, input, output, notes)
        }
        Task::Exercise { items, lose } => run_exercise(buffers, items, lose, output, notes),
        Task::Print { page } => print_page(page, output, notes),
    }
}

/// Does the job. All memory is taken before anything is read.
pub fn run_job<I: Source, O: Sink, N: Sink>(
    alloc: Global,
    job: Job,
    input: &mut I,
    output: &mut O,
    notes: &mut N,
) -> Status
    requires small { job.limit ≤ GREATEST_CAPTURE }
    requires sound { IsSoundTask job.task }
    ensures ran { let before = streams (I.left input.old) (O.held output.old) (N.held notes.old) (N.faults notes.old) in
        let after = streams (I.left input.new) (O.held output.new) (N.held notes.new) (N.faults notes.new) in
        HasDone job.task job.limit before after result }
    ensures caused { let before = counts (I.empty_reads input.old) (I.faults input.old) (O.faults output.old) in
        let after = counts (I.empty_reads input.new) (I.faults input.new) (O.faults output.new) in
        IsCaused before after result }
{
    let Ok(mut buffers) = Buffers::open(alloc) else {
        return note_no_memory(notes);
    };
    run_task(
        alloc,
        &mut buffers,
        job.task,
        job.limit,
        input,
        output,
        notes,
    )
}
