//! A run over memory.

ghost use Rattle.std.specs.Prelude.{◌≡◌, map};
ghost use Rattle.std.specs.String.{string_bytes};
ghost use Rattle.lipparoy_c.specs.Calls.{HasCalled};

use crate::ended::Ended;
use crate::memory_room::MemoryRoom;
use capture_run::run;
use std::alloc::Global;
use trace_io::SureSource;

/// Runs the words over the input, and gives what the rooms hold then: the output and the notes, each from its front.
pub(crate) fn run_in_memory(
    alloc: Global,
    words: &[String],
    input: &[u8],
    output: &mut [u8],
    notes: &mut [u8],
) -> Ended
    ensures { HasCalled (map string_bytes words.now) input.now output.new notes.new result }
{
    let output_room = output.len();
    let notes_room = notes.len();
    let mut source = SureSource::new(input);
    let mut written = MemoryRoom::new(output);
    let mut noted = MemoryRoom::new(notes);
    let status = run(alloc, words, &mut source, &mut written, &mut noted);
    Ended {
        status: u64::from(status.number()),
        output: written.taken(output_room),
        notes: noted.taken(notes_room),
    }
}
