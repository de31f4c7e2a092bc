//! The notes of a run, each one line.

ghost use Rattle.std.specs.Prelude.{◌≡◌, ◌≤◌, ◌++◌, option_map};
ghost use Rattle.source_events.specs.Report.{stop_of};
ghost use Rattle.trace_text.specs.NoteText.{last_line};
ghost use Rattle.script_rebuild.specs.Rebuilder.{told as told_of_script};
ghost use Rattle.capture_run.specs.Notes.{fault_text, script_note, text_of, done_text, status_of};
ghost use Rattle.trace_stream.specs.Told.{Notes};
ghost use Rattle.capture_run.specs.Notes.{over_text, over_status};

use crate::actions::{DoneNote, FaultNote};
use crate::status::Status;
use port_slip::Slipped;
use script_rebuild::ScriptFault;
use source_events::Stop;
use trace_io::{Sink, write_whole};
use trace_stream::{Buffers, RECENT_ROOM, TEXT_ROOM, Text};
use trace_text::{
    BufferLine, FaultLine, ImageLine, LastLine, LimitLine, ScriptFaultLine, SlippedLine,
};

/// Writes the line. Where that fails nothing changes.
pub fn note<N: Sink>(notes: &mut N, line: &[u8])
    ensures noted { Notes (N.held notes.old) (N.held notes.new) (N.faults notes.old) (N.faults notes.new) line.now }
    ensures later { N.faults notes.old ≤ N.faults notes.new }
{
    let _ = write_whole(notes, line);
}

/// Writes the text of a line. Where that fails nothing changes.
pub fn note_text<N: Sink, T: Text>(notes: &mut N, text: &T)
    requires { T.fits text.now }
    ensures noted { Notes (N.held notes.old) (N.held notes.new) (N.faults notes.old) (N.faults notes.new)
        (T.text text.now) }
    ensures later { N.faults notes.old ≤ N.faults notes.new }
{
    let mut room = [0; TEXT_ROOM];
    let end = text.put(&mut room, 0);
    note(notes, &room[..end]);
}

/// The last bytes up to a fault.
fn note_last<N: Sink>(notes: &mut N, buffers: &Buffers)
    ensures noted { Notes (N.held notes.old) (N.held notes.new) (N.faults notes.old) (N.faults notes.new)
        (last_line buffers.now.recent) }
    ensures later { N.faults notes.old ≤ N.faults notes.new }
{
    let mut bytes = [0; RECENT_ROOM];
    let count = buffers.recent(&mut bytes);
    note_text(
        notes,
        &LastLine {
            bytes: &bytes[..count],
        },
    );
}

/// The fault of the port or of an ITM source, where there is one, and the last bytes up to the fault of the run.
fn note_stop<N: Sink>(notes: &mut N, stop: &Option<Stop>, buffers: &Buffers)
    ensures noted { Notes (N.held notes.old) (N.held notes.new) (N.faults notes.old) (N.faults notes.new)
        (fault_text (option_map stop_of stop.now) ++ last_line buffers.now.recent) }
    ensures later { N.faults notes.old ≤ N.faults notes.new }
{
    if let Some(stop) = stop {
        note_text(
            notes,
            &FaultLine {
                stop: *stop,
                stp: false,
            },
        );
    }
    note_last(notes, buffers);
}

/// The fault of a script, where there is one.
fn note_script<N: Sink>(notes: &mut N, fault: Option<ScriptFault>)
    ensures noted { Notes (N.held notes.old) (N.held notes.new) (N.faults notes.old) (N.faults notes.new)
        (script_note (option_map told_of_script fault)) }
    ensures later { N.faults notes.old ≤ N.faults notes.new }
{
    if let Some(ScriptFault { line, fault }) = fault {
        let line = ScriptFaultLine {
            line,
            number: fault.number(),
            name: fault.name(),
        };
        note_text(notes, &line);
    }
}

/// Notes a fault, over these buffers, and answers how the run ends.
pub fn note_fault<N: Sink>(notes: &mut N, fault: &FaultNote, buffers: &Buffers) -> Status
    ensures noted { Notes (N.held notes.old) (N.held notes.new) (N.faults notes.old) (N.faults notes.new)
        (text_of fault.now buffers.now.recent) }
    ensures later { N.faults notes.old ≤ N.faults notes.new }
    ensures status { result ≡ status_of fault.now }
{
    match fault {
        FaultNote::Capture(stop) => note_stop(notes, stop, buffers),
        FaultNote::Script(fault) => note_script(notes, *fault),
        FaultNote::Recovery => {}
        FaultNote::Image(size) => note_text(notes, &ImageLine { size: *size }),
    }
    fault.status()
}

/// Notes that the input has more bytes than the limit, or than an image, and answers how the run ends.
pub fn note_over<N: Sink>(notes: &mut N, fault: FaultNote, limit: u64) -> Status
    ensures noted { Notes (N.held notes.old) (N.held notes.new) (N.faults notes.old) (N.faults notes.new)
        (over_text fault limit) }
    ensures later { N.faults notes.old ≤ N.faults notes.new }
    ensures status { result ≡ over_status fault }
{
    if let FaultNote::Image(size) = fault {
        note_text(notes, &ImageLine { size });
        return Status::BadImage;
    }
    note_text(notes, &LimitLine { limit });
    Status::Limit
}

/// Notes what is told of a run that is done, and answers that it is.
pub fn note_done<N: Sink>(notes: &mut N, done: DoneNote) -> Status
    ensures noted { Notes (N.held notes.old) (N.held notes.new) (N.faults notes.old) (N.faults notes.new)
        (done_text done) }
    ensures later { N.faults notes.old ≤ N.faults notes.new }
    ensures status { result ≡ Status.Done }
{
    match done {
        DoneNote::Nothing => {}
        DoneNote::Realigned(
            Slipped {
                skipped,
                dropped,
                patterns,
            },
        ) => {
            let line = SlippedLine {
                skipped,
                dropped,
                patterns,
            };
            note_text(notes, &line);
        }
        DoneNote::Buffered {
            pointer,
            full,
            dropped,
        } => {
            let line = BufferLine {
                pointer,
                full,
                dropped,
            };
            note_text(notes, &line);
        }
    }
    Status::Done
}
