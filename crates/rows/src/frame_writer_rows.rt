//! Rows of `frame_writer`.

use crate::notation::Words;
use crate::out::Out;
use arrayvec::ArrayVec;
use frame_writer::{FrameWriter, SureWriter};
use trace_values::{COUNT_ROOM, SourceId};

/// Bytes, each with its source.
type Tagged = Vec<(SourceId, u8)>;

/// Adds these bytes of a source.
fn add_all(id: SourceId, bytes: &[u8], tagged: &mut Tagged, out: &mut Out) {
    for &byte in bytes {
        out.note(tagged.extend_from_slice(&[(id, byte)]));
    }
}

/// Adds the bytes of `ID:HH..`.
fn add(word: &str, tagged: &mut Tagged, out: &mut Out) {
    let (id, digits) = word.split_once(':').unwrap_or((word, ""));
    let id = Words { rest: id }.source().unwrap_or_default();
    let bytes = Words { rest: digits }.bytes(out);
    add_all(id, &bytes, tagged, out);
}

/// The bytes of `ID:HH.. ID:HH..`, each with its source.
fn tagged_of(words: Words<'_>, out: &mut Out) -> Tagged {
    let mut tagged = Vec::new(out.alloc);
    for word in words.rest.split(' ') {
        add(word, &mut tagged, out);
    }
    tagged
}

/// Puts a byte of a source, but of a source 0 none, and writes what it completes.
fn put(id: SourceId, byte: u8, writer: &mut FrameWriter, out: &mut Out) {
    if id.number() > 0 && writer.frames() < COUNT_ROOM {
        let mut frame = ArrayVec::new();
        writer.put(id, byte, &mut frame);
        out.put_digits(frame.as_slice());
    }
}

/// Writes the end of a capture, and how many frames it has.
fn put_end(writer: FrameWriter, out: &mut Out) {
    let mut frame = ArrayVec::new();
    let frames = writer.finish(&mut frame);
    out.put_digits(frame.as_slice());
    out.put(if frames == 0 { "none" } else { "" });
    out.put_value("\n  frames ", &frames);
    out.put("\n");
}

/// Writes the capture of these bytes.
fn put_capture(mut writer: FrameWriter, tagged: &[(SourceId, u8)], out: &mut Out) {
    out.put("  capture ");
    for (id, byte) in tagged {
        put(*id, *byte, &mut writer, out);
    }
    put_end(writer, out);
}

/// `capture EVERY HALVES ID:HH.. ID:HH..`: the capture of these bytes of these sources, with a full synchronisation
/// before each `EVERY`th frame and so many half synchronisations in each gap, and how many frames it has.
fn capture(mut words: Words<'_>, out: &mut Out) {
    let (every, halves) = (words.quarter(), words.byte());
    if halves <= 8 {
        put_capture(FrameWriter::new(every, halves), &tagged_of(words, out), out);
    } else {
        out.put("  ? many half synchronisations\n");
    }
}

/// Puts a byte of a source, the one of this number, and writes what becomes sure with it.
fn put_sure(number: usize, (id, byte): (SourceId, u8), writer: &mut SureWriter, out: &mut Out) {
    if id.number() > 0 && writer.frames() < COUNT_ROOM {
        let mut frames = ArrayVec::new();
        writer.put(id, byte, &mut frames);
        if !frames.is_empty() {
            out.put_value("  with byte ", &number);
            out.bytes("\n  sure ", frames.as_slice());
        }
    }
}

/// Writes the rest of a capture.
fn put_rest(writer: &SureWriter, out: &mut Out) {
    let mut rest = ArrayVec::new();
    writer.copied().rest(&mut rest);
    out.bytes("  rest ", rest.as_slice());
}

/// `sure ID:HH.. ID:HH..`: what becomes sure with which byte, counted from 0 on, and the rest of the capture.
fn sure(words: Words<'_>, out: &mut Out) {
    let mut writer = SureWriter::new(0, 0);
    for (number, tagged) in tagged_of(words, out).iter().enumerate() {
        put_sure(number, *tagged, &mut writer, out);
    }
    put_rest(&writer, out);
}

/// Runs the row of this call.
pub fn run(call: &str, words: Words<'_>, out: &mut Out) {
    match call {
        "capture" => capture(words, out),
        "sure" => sure(words, out),
        _ => out.put("  ? no such call\n"),
    }
}
