//! The lines of the notes.

ghost use Rattle.std.specs.Prelude.{◌≡◌, ◌+◌, ◌≤◌, ◌++◌, length, take};
ghost use Rattle.trace_stream.specs.declared.recent.TheConstants.{RECENT_ROOM};
ghost use Rattle.trace_text.specs.NoteText.{last_line, limit_line, script_fault_line, slipped_line};
ghost use Rattle.trace_text.specs.NoteText.{buffer_line, image_line};

use crate::room::{put_byte, put_bytes, put_count, put_digits, put_short, put_slice};
use trace_stream::Text;

/// The last bytes up to a fault, at most `RECENT_ROOM`, in hexadecimal: `last H`.
#[derive(Clone, Copy)]
pub struct LastLine<'a> {
    pub bytes: &'a [u8],
}

/// The first fault of a script: `line N R NAME`, with the line's number, and the fault's number and name.
#[derive(Clone, Copy)]
pub struct ScriptFaultLine<'a> {
    /// From 1 on.
    pub line: u64,
    pub number: u8,
    /// At most 12 bytes.
    pub name: &'a str,
}

/// The most bytes of input, of which the capture has more: `limit N`.
#[derive(Clone, Copy)]
pub struct LimitLine {
    pub limit: u64,
}

/// What was not written of realigned bits: `skipped S dropped D patterns P`.
#[derive(Clone, Copy)]
pub struct SlippedLine {
    /// The bits before the first pattern.
    pub skipped: u64,
    /// The bits at the ends of segments that fill no byte.
    pub dropped: u64,
    /// How many patterns there were.
    pub patterns: u64,
}

/// A trace buffer after its last byte: `pointer P full F dropped D`.
#[derive(Clone, Copy)]
pub struct BufferLine {
    /// Where the next byte would go.
    pub pointer: u64,
    /// Whether each place was written.
    pub full: bool,
    /// How many bytes were overwritten.
    pub dropped: u64,
}

/// The size in bytes that an image does not have: `image isn't N bytes`.
#[derive(Clone, Copy)]
pub struct ImageLine {
    pub size: u64,
}

impl Text for LastLine<'_> {
    ghost fits = { λ l. length l.bytes.now ≤ RECENT_ROOM };

    ghost text = { λ l. last_line l.bytes.now };

    fn put(&self, room: &mut [u8], from: usize) -> usize {
        let from = put_bytes(room, from, b"last ");
        let from = put_digits(room, from, self.bytes);
        put_bytes(room, from, b"\n")
    }
}

impl Text for ScriptFaultLine<'_> {
    ghost fits = { λ l. length l.name.now ≤ 12 };

    ghost text = { λ l. script_fault_line l.line l.number l.name.now };

    fn put(&self, room: &mut [u8], from: usize) -> usize {
        let from = put_count(room, from, b"line ", self.line);
        let from = put_byte(room, from, b' ');
        let from = put_short(room, from, self.number);
        let from = put_byte(room, from, b' ');
        let from = put_slice(room, from, self.name.as_bytes());
        put_byte(room, from, b'\n')
    }
}

impl Text for LimitLine {
    ghost text = { λ l. limit_line l.limit };

    fn put(&self, room: &mut [u8], from: usize) -> usize {
        let from = put_count(room, from, b"limit ", self.limit);
        put_bytes(room, from, b"\n")
    }
}

impl Text for SlippedLine {
    ghost text = { λ l. slipped_line l.skipped l.dropped l.patterns };

    fn put(&self, room: &mut [u8], from: usize) -> usize {
        let from = put_count(room, from, b"skipped ", self.skipped);
        let from = put_count(room, from, b" dropped ", self.dropped);
        let from = put_count(room, from, b" patterns ", self.patterns);
        put_byte(room, from, b'\n')
    }
}

impl Text for BufferLine {
    ghost text = { λ l. buffer_line l.pointer l.full l.dropped };

    fn put(&self, room: &mut [u8], from: usize) -> usize {
        let from = put_count(room, from, b"pointer ", self.pointer);
        let from = put_bytes(room, from, b" full ");
        let from = put_byte(room, from, if self.full { b'1' } else { b'0' });
        let from = put_count(room, from, b" dropped ", self.dropped);
        put_byte(room, from, b'\n')
    }
}

impl Text for ImageLine {
    ghost text = { λ l. image_line l.size };

    fn put(&self, room: &mut [u8], from: usize) -> usize {
        let from = put_count(room, from, b"image isn't ", self.size);
        put_bytes(room, from, b" bytes\n")
    }
}
