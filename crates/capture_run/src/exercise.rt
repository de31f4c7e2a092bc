//! The exercise, done.

ghost use Rattle.std.specs.Prelude.{◌≡◌, ◌≢◌, ◌≤◌, List, ℕ, [], length};
ghost use Rattle.std.specs.declared.option.Option.{Option};
ghost use Rattle.trace_io.specs.Causes.{Rose};
ghost use Rattle.capture_exercise.specs.Exercise.{exercise_capture};
ghost use Rattle.capture_exercise.specs.declared.maker.TheConstants.{MOST_ITEMS, MOST_BYTES};
ghost use Rattle.capture_exercise.specs.Summary.{exercise_summary};
ghost use Rattle.capture_run.specs.Run.{HasMade, streams};

use crate::notes::note;
use crate::status::Status;
use capture_exercise::{Exercise, ExercisePlan, ExerciseSource, exercise_plan, write_exercise};
use trace_io::{Sink, SureSink};
use trace_stream::{Buffers, GREATEST_CAPTURE, Outcome, serve};

/// How many bytes the capture of this many items has, at most `MOST_BYTES`.
fn capture_len(items: u32) -> u64
    requires few { items ≤ MOST_ITEMS }
    ensures len { result ≡ length (exercise_capture items) }
    ensures few { result ≤ MOST_BYTES }
{
    match write_exercise(items, &mut SureSink::new()) {
        Ok(len) => len,
        Err(_) => 0,
    }
}

/// Makes the capture of this many items, loses the first bytes, as many as `lose`, reads the rest in mode hunt, and
/// writes what is in it. No input is read.
pub fn run_exercise<O: Sink, N: Sink>(
    buffers: &mut Buffers,
    items: u32,
    lose: u32,
    output: &mut O,
    notes: &mut N,
) -> Status
    requires pending { buffers.old.pending ≡ [] }
    requires recent { buffers.old.recent ≡ [] }
    requires few { items ≤ MOST_ITEMS }
    ensures made { (left : Option (List ℕ)) →
        let before = streams left (O.held output.old) (N.held notes.old) (N.faults notes.old) in
        let after = streams left (O.held output.new) (N.held notes.new) (N.faults notes.new) in
        HasMade (exercise_summary items lose) before after result }
    ensures no_read { result ≢ Status.ReadFault }
    ensures write_cause { result ≡ Status.WriteFault → Rose (O.faults output.old) (O.faults output.new) }
{
    let capture = capture_len(items);
    let mut action = Exercise::new(ExercisePlan {
        items,
        capture,
        plan: exercise_plan(),
    });
    let mut rest = ExerciseSource::new(items, lose);
    let outcome = serve(
        buffers,
        &mut action,
        GREATEST_CAPTURE,
        &mut rest,
        output,
        notes,
    );
    if let Outcome::WriteFailed = outcome {
        note(notes, b"write fault\n");
        return Status::WriteFault;
    }
    // The summary tells a fault of what is left, if it has one. No read of it fails, and it is within the limit.
    Status::Done
}
