//! Rows of `deformatter`.

ghost use Rattle.std.specs.Prelude.{◌≡◌, ◌≤◌, ◌^◌, true};
ghost use Rattle.deformatter.specs.Reader.{is_live, tail_of, skipped_by};

use crate::notation::{Words, put_cells};
use crate::out::Out;
use arrayvec::ArrayVec;
use deformatter::{PortReader, PortStep};
use std::alloc::Global;
use trace_values::{Cell, FramesMode};

/// More bytes than a row has.
const MANY: usize = 1 << 20;

/// What a port says: the lines of its answers, and its cells.
#[derive(Drop)]
struct Heard {
    lines: Out,
    cells: Vec<Cell>,
}

/// Whether the port takes another byte.
fn is_ready(port: &PortReader) -> bool
    ensures live { result ≡ true → is_live port.now ≡ true }
    ensures tail { result ≡ true → tail_of port.now ≤ 2 ^ 20 }
    ensures skipped { result ≡ true → skipped_by port.now ≤ 2 ^ 20 }
{
    port.is_live() && port.tail() <= MANY as u64 && port.skipped() <= MANY as u64
}

impl Heard {
    /// Nothing is said yet.
    fn new(alloc: Global) -> Heard {
        Heard {
            lines: Out::new(alloc),
            cells: Vec::new(alloc),
        }
    }

    /// Writes the line of an answer but `Quiet`, with the offset of its byte, and appends the cells.
    fn add(&mut self, at: usize, step: PortStep, cells: &[Cell]) {
        if step != PortStep::Quiet {
            self.lines.values(&at, &step);
        }
        self.lines.note(self.cells.extend_from_slice(cells));
    }

    /// Feeds a byte.
    fn feed(&mut self, port: &mut PortReader, at: usize, byte: u8) {
        if is_ready(port) {
            let mut cells = ArrayVec::new();
            let step = port.feed(at as u64, byte, &mut cells);
            self.add(at, step, cells.as_slice());
        }
    }

    /// Feeds as many bytes as the port takes at once, and answers how many.
    fn feed_block(&mut self, port: &mut PortReader, at: usize, bytes: &[u8]) -> usize {
        if bytes.is_empty() || at > MANY || bytes.len() > MANY || !is_ready(port) {
            return 0;
        }
        let mut cells = ArrayVec::new();
        let taken = port.feed_block(at as u64, bytes, &mut cells);
        let last = at.saturating_add(taken.bytes).saturating_sub(1);
        self.add(last, taken.step, cells.as_slice());
        taken.bytes
    }

    /// Feeds a piece, the first byte of which is at this offset, as many bytes at once as the port takes.
    fn feed_piece(&mut self, port: &mut PortReader, from: usize, piece: &[u8]) {
        let mut used = 0usize;
        for _ in 0..piece.len() {
            let rest = piece.get(used..).unwrap_or(b"");
            used = used.saturating_add(self.feed_block(port, from.saturating_add(used), rest));
        }
    }

    /// Writes all cells, and, but after a fault, how many bytes are left over and were skipped.
    fn end(mut self, port: &PortReader) -> Out {
        if !self.cells.is_empty() {
            put_cells(&self.cells, &mut self.lines);
        }
        if port.is_live() {
            self.lines.put_value("  tail ", &port.tail());
            self.lines.put_value(" skipped ", &port.skipped());
            self.lines.put("\n");
        }
        self.lines
    }
}

/// What the bytes say one by one.
fn told(alloc: Global, mode: FramesMode, bytes: &[u8]) -> Out {
    let mut port = PortReader::new(mode);
    let mut heard = Heard::new(alloc);
    for (at, byte) in bytes.iter().enumerate() {
        heard.feed(&mut port, at, *byte);
    }
    heard.end(&port)
}

/// What the bytes say in two pieces.
fn told_in_two(alloc: Global, mode: FramesMode, front: &[u8], rest: &[u8]) -> Out {
    let mut port = PortReader::new(mode);
    let mut heard = Heard::new(alloc);
    heard.feed_piece(&mut port, 0, front);
    heard.feed_piece(&mut port, front.len(), rest);
    heard.end(&port)
}

/// Writes a `?` where two pieces say something else than this text.
fn compare(text: &str, mode: FramesMode, (front, rest): (&[u8], &[u8]), out: &mut Out) {
    if told_in_two(out.alloc, mode, front, rest).text() != text {
        out.put("  ? another cut\n");
    }
}

/// What the bytes say one by one. In two pieces, with each cut, they must say the same.
fn hear(mode: FramesMode, bytes: &[u8], out: &mut Out) {
    let told = told(out.alloc, mode, bytes);
    out.put(told.text());
    for cut in 0..bytes.len() {
        compare(told.text(), mode, bytes.split_at(cut), out);
    }
}

/// Runs the row of this call: `aligned BYTES`, `hunting BYTES` or `bare BYTES`.
pub fn run(call: &str, words: Words<'_>, out: &mut Out) {
    let bytes = words.bytes(out);
    match call {
        "aligned" => hear(FramesMode::Aligned, &bytes, out),
        "bare" => hear(FramesMode::Bare, &bytes, out),
        "hunting" => hear(FramesMode::Hunt, &bytes, out),
        _ => out.put("  ? no such call\n"),
    }
}
