//! A call over memory, and what it answers.

use crate::out::Out;
use crate::row::{NOTE_ROOM, ROOM, Row};
use capture_run::run;
use std::alloc::Global;
use trace_io::{MemorySink, MemorySource, Source};

/// How many bytes of hexadecimal digits stand in a line.
const HEX_LINE: usize = 32;

/// What a call answers, writes and notes, and how many bytes it leaves to be read, if its row tells that.
#[derive(Drop)]
pub struct Answer {
    pub status: u8,
    left: usize,
    /// The room for the text, which stays from call to call.
    text: Vec<u8>,
    text_length: usize,
    note: Vec<u8>,
    note_length: usize,
}

/// The first bytes of a room.
fn front(room: &[u8], length: usize) -> &[u8] {
    room.get(..length).unwrap_or(b"")
}

/// How many bytes are left to read.
fn count_left(input: &mut MemorySource<'_>, most: usize) -> usize {
    let mut count = 0usize;
    let mut buf = [0; 4096];
    for _ in 0..=most {
        count = count.saturating_add(input.read(&mut buf).unwrap_or(0));
    }
    count
}

/// These bytes as a text, if they are lines of printable characters.
fn printable(bytes: &[u8]) -> Option<&str> {
    for byte in bytes {
        if *byte != b'\n' && *byte != b' ' && !byte.is_ascii_graphic() {
            return None;
        }
    }
    str::from_utf8(bytes).ok()
}

/// Writes a line of a text after this mark.
fn put_line(mark: &str, line: &str, out: &mut Out) {
    out.put(mark);
    out.put(if line.ends_with('\n') { " " } else { "~ " });
    out.put(line.trim_end_matches('\n'));
    out.put("\n");
}

/// Writes the lines of a text, this many at most, each after this mark.
fn put_lines(mark: &str, text: &str, most: usize, out: &mut Out) {
    for line in text.split_inclusive('\n').take(most) {
        put_line(mark, line, out);
    }
}

/// Writes these bytes in lines of digits.
fn put_bytes(bytes: &[u8], out: &mut Out) {
    for piece in bytes.chunks(HEX_LINE) {
        out.put("  : ");
        out.put_digits(piece);
        out.put("\n");
    }
}

impl Answer {
    /// None yet.
    pub fn new(alloc: Global) -> Answer {
        Answer {
            status: 0,
            left: 0,
            text: Vec::new(alloc),
            text_length: 0,
            note: Vec::new(alloc),
            note_length: 0,
        }
    }

    /// What was written.
    pub fn text(&self) -> &[u8] {
        front(&self.text, self.text_length)
    }

    /// What was noted.
    pub fn note(&self) -> &[u8] {
        front(&self.note, self.note_length)
    }

    /// What was noted, which is a text.
    pub fn note_text(&self) -> &str {
        printable(self.note()).unwrap_or("?\n")
    }

    /// Makes the call of a row over what there is room for.
    fn run(&mut self, words: &[String], row: &Row, alloc: Global) {
        let mut input = MemorySource::new(&row.bytes, &row.read, &row.failing_read);
        let mut output = MemorySink::new(&mut self.text, &row.write, &row.failing_write);
        let mut notes = MemorySink::new(&mut self.note, &row.write, &[]);
        self.status = run(alloc, words, &mut input, &mut output, &mut notes).number();
        self.left = 0;
        if row.tells_left {
            self.left = count_left(&mut input, row.bytes.len());
        }
        self.text_length = output.held().len();
        self.note_length = notes.held().len();
    }

    /// Makes this what the words answer to a row.
    pub fn call(&mut self, words: &[String], row: &Row, out: &mut Out) {
        out.note(self.text.resize(row.room.min(ROOM), 0));
        out.note(self.note.resize(row.note_room.min(NOTE_ROOM), 0));
        self.run(words, row, out.alloc);
    }

    /// Whether the other answer is this one. Its note may be a front of this one's, of the length that has room.
    pub fn agrees(&self, other: &Answer, note_room: usize) -> bool {
        self.status == other.status
            && self.left == other.left
            && self.text() == other.text()
            && other.note() == front(self.note(), note_room.min(self.note_length))
    }

    /// Writes the lines of this answer.
    pub fn tell(&self, row: &Row, out: &mut Out) {
        match printable(self.text()) {
            Some(text) => put_lines("  |", text, usize::MAX, out),
            None => put_bytes(self.text(), out),
        }
        put_lines("  !", self.note_text(), row.note_lines, out);
        if row.tells_left {
            out.put_value("  left ", &self.left);
            out.put("\n");
        }
        out.put_value("  = ", &self.status);
        out.put("\n");
    }
}
