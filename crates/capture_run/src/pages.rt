//! The texts of the program's own, written.

ghost use Rattle.std.specs.Prelude.{◌≡◌, ◌≢◌, List, ℕ};
ghost use Rattle.std.specs.declared.option.Option.{Option};
ghost use Rattle.trace_io.specs.Causes.{Rose};
ghost use Rattle.capture_run.specs.Pages.{page_text};
ghost use Rattle.capture_run.specs.Run.{HasMade, streams};

use crate::notes::note;
use crate::status::Status;
use capture_words::Page;
use trace_io::{Sink, write_whole};

/// What `version` writes. A release gets its number here and in `specs/Pages.antt`, which the proof compares, and in
/// CHANGES.md, which `scripts/check-documents` compares with what the program writes.
const VERSION: &str = "lipparoy 1.0.0\n";

/// What `help` writes: one screen of at most 80 columns.
const HELP: &str = "\
Usage: lipparoy ACTION [OPTIONS] < CAPTURE

Read and write CoreSight software trace: ITM and STP packets, in the frames of
a trace port or without.

Read a capture:
  show      List its events, one on a line
  split     Write the bytes of one source
  check     Count frames, synchronisations, and each source's bytes and items
  text      Write what software printed to a stimulus port
  vcd       Write values and exceptions over time, for waveform viewers

Write the capture of a script:
  rebuild   Put the script's items into frames
  funnel    Pass them through a funnel of several sources first

Bits and memory:
  realign   Restore whole bytes where a line lost bits
  ring      Write the memory of a trace buffer that took a capture
  unring    Put such a memory in order, its oldest byte first

Others, which read nothing:
  exercise  Make a capture, lose any front of it, and count the rest
  help      Print this help
  version   Print the version

Common calls, for the bytes of one core's SWO pin and for a trace port:
  lipparoy show --frames bare --packets aligned --recover near --itm 1 < CAPTURE
  lipparoy text --frames bare --packets aligned --recover near --itm 1 < CAPTURE
  lipparoy check < CAPTURE

`lipparoy --help` lists the options. Read on in docs/start.md; docs/command.md
has every action, option, line and status.
";

/// The text of a page.
fn text_of(page: Page) -> &'static str
    ensures { result.now ≡ page_text page }
{
    match page {
        Page::Help => HELP,
        Page::Version => VERSION,
    }
}

/// Writes a text of the program's own. No input is read.
pub fn print_page<O: Sink, N: Sink>(page: Page, output: &mut O, notes: &mut N) -> Status
    ensures made { (left : Option (List ℕ)) →
        let before = streams left (O.held output.old) (N.held notes.old) (N.faults notes.old) in
        let after = streams left (O.held output.new) (N.held notes.new) (N.faults notes.new) in
        HasMade (page_text page) before after result }
    ensures no_read { result ≢ Status.ReadFault }
    ensures write_cause { result ≡ Status.WriteFault → Rose (O.faults output.old) (O.faults output.new) }
{
    match write_whole(output, text_of(page).as_bytes()) {
        Ok(()) => Status::Done,
        Err(_) => {
            note(notes, b"write fault\n");
            Status::WriteFault
        }
    }
}
