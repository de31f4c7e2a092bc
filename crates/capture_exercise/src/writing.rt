//! The capture of the exercise, written.

ghost use Rattle.std.specs.Prelude.{◌≡◌, ◌≤◌, length, IfOk, OnOk};
ghost use Rattle.std.specs.Io.KnownBytes.{Appends};
ghost use Rattle.capture_exercise.specs.Names.{AppendsPrefix, HasCause};
ghost use Rattle.capture_exercise.specs.Exercise.{exercise_capture};
ghost use Rattle.capture_exercise.specs.declared.maker.TheConstants.{MOST_BYTES};

use crate::maker::MOST_ITEMS;
use crate::source::ExerciseSource;
use trace_io::{Failed, Sink, write_whole};

/// Writes the capture of this many items, at most `MOST_ITEMS`, and answers how many bytes it has: no more than a
/// capture may have.
///
/// # Errors
///
/// `Failed` where the sink fails: it has then taken a prefix of the capture.
pub fn write_exercise<O: Sink>(items: u32, output: &mut O) -> Result<u64, Failed>
    requires few { items ≤ MOST_ITEMS }
    ensures len { IfOk result (λ n. n ≡ length (exercise_capture items)) }
    ensures few { IfOk result (λ n. n ≤ MOST_BYTES) }
    ensures whole { OnOk result (Appends (O.held output.old) (O.held output.new) (exercise_capture items)) }
    ensures front { AppendsPrefix (O.held output.old) (O.held output.new) (exercise_capture items) }
    ensures cause { HasCause (O.faults output.old) (O.faults output.new) result }
{
    let mut source = ExerciseSource::whole(items);
    source.refill();
    while !source.pending().is_empty() {
        let piece = source.pending();
        let count = piece.len();
        write_whole(output, piece)?;
        source.advance(count);
        source.refill();
    }
    Ok(source.made())
}
