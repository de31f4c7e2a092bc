//! All that the program does, as one call for C: over the words of a command and an input in memory, into memory.
#![tactic(auto)]

ghost use Rattle.std.specs.Prelude.{◌≡◌};
ghost use Rattle.std.specs.Str.{IsUtf8};
ghost use Rattle.lipparoy_c.specs.Calls.{HasCalled, IsUnwritten};
ghost use Rattle.lipparoy_c.specs.Words.{words_of};

mod call;
mod ended;
mod memory_room;
mod words;

use call::run_in_memory;
pub use ended::Ended;
use std::alloc::Global;
use std::str::from_utf8;
use words::words_in;

/// Does what the words ask for on the input, as the program does, and tells how that ended.
///
/// The words are apart by ASCII white space. If they are not UTF-8, or if there is no memory to keep them, the status
/// is 11, and nothing is written. Otherwise the status is the number of the run's, and what the run wrote and noted is
/// at the front of the two rooms. A room that is too small is a failed write.
#[unsafe(no_mangle)]
pub extern "C" fn lipparoy_run(
    alloc: Global,
    words: &[u8],
    input: &[u8],
    output: &mut [u8],
    notes: &mut [u8],
    ended: &mut Ended,
)
    ensures ran { (ended.new.status ≡ 11 → ⊥) →
        HasCalled (words_of words.now) input.now output.new notes.new ended.new }
    ensures unwritten { ended.new.status ≡ 11 → IsUnwritten output.old output.new notes.old notes.new ended.new }
    ensures no_text { (IsUtf8 words.now → ⊥) → ended.new.status ≡ 11 }
{
    let Ok(text) = from_utf8(words) else {
        *ended = Ended::unwritten();
        return;
    };
    let Ok(all) = words_in(alloc, text) else {
        *ended = Ended::unwritten();
        return;
    };
    *ended = run_in_memory(alloc, &all, input, output, notes);
}
