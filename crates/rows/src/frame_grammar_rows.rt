//! Rows of `frame_grammar`.

use crate::notation::{Words, put_cells, put_source};
use crate::out::Out;
use arrayvec::ArrayVec;
use frame_grammar::frame::{FRAME_BYTES, cells_of};
use frame_grammar::gather::{PlacedFrame, gather_frame_at};
use frame_grammar::plain::plain_frame;
use frame_grammar::source_bytes::copy_source_bytes;
use trace_values::SourceId;

/// The offsets of the bytes of each frame whose cells are told.
const OFFSETS: [u64; FRAME_BYTES] = [
    40, 41, 44, 45, 46, 47, 52, 53, 54, 55, 56, 57, 58, 59, 60, 61,
];

/// Writes the line of the ID after a frame.
fn put_after(after: Option<SourceId>, out: &mut Out) {
    put_source("  after ", after, out);
    out.put("\n");
}

/// Writes the cells of a frame after this ID, and the ID after it.
fn put_cells_of(before: Option<SourceId>, bytes: &[u8], out: &mut Out) {
    match plain_frame(bytes) {
        Some(frame) => {
            let mut cells = ArrayVec::new();
            let after = cells_of(frame, &OFFSETS, before, &mut cells);
            put_cells(cells.as_slice(), out);
            put_after(after, out);
        }
        None => out.put("  ? no frame\n"),
    }
}

/// `cells_of BEFORE FRAME`: the cells of a frame after this ID, and the ID after it.
fn cells(mut words: Words<'_>, out: &mut Out) {
    let before = words.source();
    put_cells_of(before, &words.bytes(out), out);
}

/// Writes the bytes of a source in a frame after this ID, and the ID after it.
fn put_source_bytes(source: SourceId, before: Option<SourceId>, bytes: &[u8], out: &mut Out) {
    match plain_frame(bytes) {
        Some(frame) => {
            let mut into = [0xee; FRAME_BYTES];
            let copied = copy_source_bytes(frame, before, source, &mut into);
            out.bytes("  bytes ", &into[..copied.len]);
            put_after(copied.after, out);
        }
        None => out.put("  ? no frame\n"),
    }
}

/// `copy_source_bytes SOURCE BEFORE FRAME`: the bytes of this source in a frame after this ID, and the ID after it.
fn source_bytes(mut words: Words<'_>, out: &mut Out) {
    let source = words.source().unwrap_or_default();
    let before = words.source();
    put_source_bytes(source, before, &words.bytes(out), out);
}

/// Writes a frame, its size, how many half synchronisations are in it, and how far each of its bytes is behind the
/// first.
fn put_frame(frame: &PlacedFrame, out: &mut Out) {
    out.bytes("  frame ", &frame.bytes);
    out.put_value("  at ", &frame.at);
    out.put_value(" size ", &frame.size());
    out.put_value(" halves ", &frame.halves);
    out.bytes("\n  behind ", &frame.behind);
}

/// Writes the frame at the front of a piece whose first byte is at this offset.
fn put_gathered(at: u8, piece: &[u8], out: &mut Out) {
    if piece.len() > 5000 {
        return out.put("  ? a long piece\n");
    }
    match gather_frame_at(u64::from(at), piece) {
        Some(frame) => put_frame(&frame, out),
        None => out.put("  none\n"),
    }
}

/// `gather_frame_at AT PIECE`: the frame at the front of a piece whose first byte is at this offset.
fn gather(mut words: Words<'_>, out: &mut Out) {
    let at = words.byte();
    put_gathered(at, &words.bytes(out), out);
}

/// `plain_frame PIECE`: the frame that a piece begins with.
fn plain(piece: &[u8], out: &mut Out) {
    match plain_frame(piece) {
        Some(frame) => out.bytes("  frame ", frame),
        None => out.put("  none\n"),
    }
}

/// Runs the row of this call.
pub fn run(call: &str, words: Words<'_>, out: &mut Out) {
    match call {
        "cells_of" => cells(words, out),
        "copy_source_bytes" => source_bytes(words, out),
        "gather_frame_at" => gather(words, out),
        "plain_frame" => plain(&words.bytes(out), out),
        _ => out.put("  ? no such call\n"),
    }
}
