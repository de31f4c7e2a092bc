//! What the words give, by `clap`.

ghost use Rattle.std.specs.Prelude.{◌≡◌, IfOk, map};
ghost use Rattle.clap.specs.Words.{FailsBy, rows_of, found_of, fault_of, matches_of};
ghost use Rattle.capture_words.specs.Command.{trace_app};

use crate::command::trace_command;
use clap::{ArgMatches, Error};
use std::alloc::Global;

/// The entries of the words, the program's name in front of them.
///
/// Errors: why `clap` refuses the words, or want of memory.
pub fn entries_of<'a>(alloc: Global, words: &'a [&'a str]) -> Result<ArgMatches<'a>, Error>
    ensures kinds { FailsBy (fault_of trace_app (map (λ s. s.now) words.entry.now)) result }
    ensures rows { IfOk result (λ m. rows_of (found_of m) ≡ matches_of trace_app (map (λ s. s.now) words.entry.now)) }
{
    let command = trace_command(alloc)?;
    command.try_get_matches_from(words)
}
