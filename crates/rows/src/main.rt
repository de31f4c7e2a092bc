//! Runs the program's one call, and calls of the libraries, on rows from standard input, and writes each row again with
//! what it answers.
//!
//! The answers are the lines that begin with two blanks, so the file `stdin` is the file `stdout` without those lines:
//! `grep -v '^  ' stdout > stdin`. A row is added to `stdout` with the answer that it is to have, which comes from a
//! document, a standard or another program, and never from this one.
//!
//! # Lines of the input
//!
//! - `# ..`, or an empty line, says nothing.
//! - `bytes NAME BYTES` gives these bytes a name.
//! - `words W W ..` are the words of the rows below, with a blank between two; `\s` is a blank in a word.
//! - `reads N N ..` is how many bytes a read of the rows below gives at most; a row runs once for each number.
//! - `writes N N ..` is the same for the bytes that a write takes, to the output and to the notes.
//! - `notes N N ..` is the same for the bytes that the notes have room for, the most first.
//! - `run BYTES` is a row: the call over these bytes.
//! - `each-read BYTES` is a row, and then each of its reads fails, one at a time, for each number of `reads`.
//! - `each-write BYTES` is the same with its writes, for each number of `writes`.
//! - Any other line is a row too: a library, a call of it, and the call's arguments, with blanks between. What
//!   the arguments are is told at the function that reads them, and how numbers and bytes are written in `notation`.
//!   Between two items or two packets there is a `,` and no blank.
//!
//! BYTES are, with a blank between two of them: hexadecimal digits, `HH..*N` (N times these), `NAME`, `NAME[A..B]` (a
//! part of named bytes; each end may be missing), and at the end `'` and any text, in which `\n` is a line feed, `\r` a
//! carriage return and `\\` a backslash. Before them a row may have
//!
//! - `read=K`, `write=K`: the number, from 0 on, of the read or of the write of the output that fails,
//! - `room=N`: how many bytes the output has room for, 65536 where it is not given,
//! - `note=N`: how many lines of the note are told, all where it is not given,
//! - `left`: that it is told how many bytes are not read.
//!
//! # Lines of an answer
//!
//! A call of the program has one answer for all `reads`, `writes` and `notes`; that one gives another is told by `?`.
//!
//! - `  | TEXT` is a line that is written, and `  |~ TEXT` the last one, if it has no line feed.
//! - `  : HH..` are bytes that are written, if they are no text.
//! - `  ! TEXT` is a line of the note, and `  !~ TEXT` the last one, if it has no line feed.
//! - `  left N`: so many bytes are not read.
//! - `  = S` is the status.
//! - `  reads of N`, `  writes of N`: what comes of failing reads or writes of at most N bytes is below.
//! - `    J..K: A..B bytes = S ! NOTE`: where one of the reads or writes J to K fails, the output is a front of the
//!   text above of A to B bytes: all of one length for reads, and each a write longer than the one before for writes.
//! - `    K: as above`: there is no read or write of this number.
//! - `  ? ..`: the row is not understood, an argument is one that the call may not have, or its answers differ.
#![tactic(auto)]

mod answer;
mod buffer_ring_rows;
mod decimal_words_rows;
mod deformatter_rows;
mod desk;
mod dwt_packets_rows;
mod frame_grammar_rows;
mod frame_writer_rows;
mod item_tap_rows;
mod itm_grammar_rows;
mod libraries;
mod names;
mod notation;
mod out;
mod plans;
mod port_slip_rows;
mod port_sync_rows;
mod row;
mod script_text_rows;
mod sheet;
mod source_counts_rows;
mod source_events_rows;
mod source_merge_rows;
mod stp_codec_rows;
mod stp_encoder_rows;
mod stp_grammar_rows;
mod stp_words;
mod trace_clock_rows;
mod trace_funnel_rows;
mod trace_text_rows;
mod trace_values_rows;

use desk::Desk;
use out::Out;
use sheet::Sheet;
use std::io::{self, ErrorKind, Write};

/// What the lines so far have set, answered and written.
#[derive(Drop)]
struct Rows {
    sheet: Sheet,
    desk: Desk,
    out: Out,
}

impl Rows {
    /// Writes a line again, and what it answers.
    fn take_line(&mut self, line: &str) {
        self.out.put(line);
        self.out.put("\n");
        if !line.is_empty() && !line.starts_with('#') {
            self.sheet.take_line(line, &mut self.desk, &mut self.out);
        }
    }
}

fn main(rt: HostRuntime) -> io::Result<()> {
    let mut rows = Rows {
        sheet: Sheet::new(rt.alloc()),
        desk: Desk::new(rt.alloc()),
        out: Out::new(rt.alloc()),
    };
    for line in rt.lines(rt.alloc()) {
        rows.take_line(line?.as_str());
    }
    if !rows.out.is_whole() {
        return Err(ErrorKind::Other.into());
    }
    rt.stdout().write_all(rows.out.text().as_bytes())
}
