//! All that the program does, as one call over its words and three streams: it lists what all sources of a capture
//! gave, takes the bytes of one source out of the frames of a trace port, or counts what each source sent. Or it writes
//! the capture of a script, straight or through a funnel, tries itself on a capture of its own, or tells of itself.
#![tactic(auto)]

ghost use Rattle.std.specs.Prelude.{◌≡◌, ◌⊎◌, ◌+◌, ◌≤◌, ℕ, List, length, map, codes};
ghost use Rattle.std.specs.String.{string_bytes};
ghost use Rattle.trace_io.specs.Causes.{Rose};
ghost use Rattle.capture_words.specs.Calls.{AsksFor, Misuses, IsMisuse};
ghost use Rattle.capture_words.specs.Texts.{usage_line};
ghost use Rattle.capture_words.specs.declared.job.Job.{Job};
ghost use Rattle.capture_words.specs.declared.usage.UsageFault.{UsageFault};
ghost use Rattle.script_rebuild.specs.declared.plan.RebuildPlan.{RebuildPlan};
ghost use Rattle.source_events.specs.declared.plan.Plan.{Plan};
ghost use Rattle.capture_run.specs.Actions.{HasDone, IsSoundInput, limit_of};
ghost use Rattle.capture_run.specs.Fronts.{ListsRest, IsSoundWhole, FollowsWhole};
ghost use Rattle.trace_stream.specs.Told.{Notes};
ghost use Rattle.capture_run.specs.Rebuilds.{Rebuilds, Writes};
ghost use Rattle.capture_run.specs.Recovers.{GoesOn, IsRecovered};
ghost use Rattle.capture_run.specs.Run.{streams, Untouched, Loses, IsDoneOrNoMemory};

mod actions;
mod exercise;
mod jobs;
pub mod laws;
mod notes;
mod pages;
mod reading;
mod status;
pub mod task_laws;

use capture_words::{Asked, read_words};
use jobs::run_job;
use notes::note;
pub use status::Status;
use std::alloc::Global;
use trace_io::{Sink, Source};

/// All that the program does: it reads the words, does what they ask for on the input, and answers how
/// that ended.
///
/// A status is the first that holds of Usage, WriteFault, CaptureFault or ScriptFault, ReadFault, Limit, Recovered and
/// Done.
/// Want of memory is the one free answer, and comes only where no byte was read and none written. By these clauses a
/// failed write to the notes changes no other status; that it changes none at all is read in the code.
///
/// A capture may begin in the middle of a stream. Take any bytes that may have come before those read, so that
/// the whole reads without a fault, whether by hunts or not. Where `show` hunts at the port, if it has frames, and
/// at each source, has no filter and is done, with any `--recover`, what it wrote follows that whole: from each
/// source's point on it lists the whole's events, in the whole's order, at offsets that count from the first byte read
/// (`fronts`).
///
/// Where `rebuild` or `funnel` is done, the output gained the capture of the script, and that capture reads back,
/// source by source, as exactly what the script's lines give (`reads_back`).
pub fn run<I: Source, O: Sink, N: Sink>(
    alloc: Global,
    words: &[String],
    input: &mut I,
    output: &mut O,
    notes: &mut N,
) -> Status
    // The words.
    ensures usage { result ≡ Status.Usage → IsMisuse (map string_bytes words.now) }
    ensures misuse { IsMisuse (map string_bytes words.now) → (result ≡ Status.Usage) ⊎ (result ≡ Status.NoMemory) }
    ensures untouched { IsMisuse (map string_bytes words.now) →
        Untouched (I.left input.old) (I.left input.new) (O.held output.old) (O.held output.new) }
    ensures usage_note { (fault : UsageFault) → Misuses (map string_bytes words.now) fault → result ≡ Status.Usage →
        Notes (N.held notes.old) (N.held notes.new) (N.faults notes.old) (N.faults notes.new) (usage_line fault) }

    // Want of memory, whatever the words.
    ensures memory_note { result ≡ Status.NoMemory →
        Notes (N.held notes.old) (N.held notes.new) (N.faults notes.old) (N.faults notes.new) (codes "no memory\n") }

    // What was read, written and noted, by the status.
    ensures ran { (job : Job) → AsksFor (map string_bytes words.now) job →
        let before = streams (I.left input.old) (O.held output.old) (N.held notes.old) (N.faults notes.old) in
        let after = streams (I.left input.new) (O.held output.new) (N.held notes.new) (N.faults notes.new) in
        HasDone job.task job.limit before after result }

    // Every read but the last gives at least one byte, whatever the words.
    ensures one_empty_read { I.empty_reads input.new ≤ I.empty_reads input.old + 1 }

    // The causes of what the outside does, and that without a cause all is done.
    ensures read_cause { result ≡ Status.ReadFault → Rose (I.faults input.old) (I.faults input.new) }
    ensures write_cause { result ≡ Status.WriteFault → Rose (O.faults output.old) (O.faults output.new) }
    ensures complete { (job : Job) (bytes : List ℕ) → AsksFor (map string_bytes words.now) job →
        Loses (I.left input.old) (I.left input.new) bytes →
        (Rose (I.faults input.old) (I.faults input.new) → ⊥) →
        (Rose (O.faults output.old) (O.faults output.new) → ⊥) →
        length bytes ≤ limit_of job.task job.limit → IsSoundInput job.task bytes → IsDoneOrNoMemory result }

    // What goes on after faults is done, with or without faults, if nothing outside fails.
    ensures goes_on { (job : Job) (bytes : List ℕ) → AsksFor (map string_bytes words.now) job → GoesOn job.task →
        Loses (I.left input.old) (I.left input.new) bytes →
        (Rose (I.faults input.old) (I.faults input.new) → ⊥) →
        (Rose (O.faults output.old) (O.faults output.new) → ⊥) →
        length bytes ≤ job.limit → IsRecovered result }

    // Where a front of the capture may be lost: what was written follows the whole.
    ensures fronts { (job : Job) (whole : Plan) (lost bytes : List ℕ) → AsksFor (map string_bytes words.now) job →
        ListsRest whole job.task → Loses (I.left input.old) (I.left input.new) bytes →
        IsSoundWhole whole lost bytes → result ≡ Status.Done →
        FollowsWhole whole lost bytes (O.held output.old) (O.held output.new) }

    // What is rebuilt reads back as exactly what the lines of the script give each source.
    ensures reads_back { (job : Job) (p : RebuildPlan) (script : List ℕ) → AsksFor (map string_bytes words.now) job →
        Writes p job.task → Loses (I.left input.old) (I.left input.new) script → result ≡ Status.Done →
        Rebuilds p script (O.held output.old) (O.held output.new) }
{
    match read_words(alloc, words) {
        Asked::Do(job) => run_job(alloc, job, input, output, notes),
        Asked::Fault(fault) => {
            note(notes, fault.line().as_str().as_bytes());
            Status::Usage
        }
        Asked::Refused(text) => {
            note(notes, text.as_bytes());
            Status::Usage
        }
        Asked::NoMemory => {
            note(notes, b"no memory\n");
            Status::NoMemory
        }
    }
}
