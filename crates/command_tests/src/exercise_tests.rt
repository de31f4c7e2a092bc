//! The capture of the exercise, read in pieces of any length, and written where a write fails.

ghost use Rattle.std.specs.Prelude.{◌<◌, length};

use crate::same::same;
use capture_exercise::{ExerciseSource, write_exercise};
use std::process::Abort;
use trace_io::{Failed, MemorySink, Source, SureSink};

/// The capture of three items: a full synchronisation and two frames.
const THREE: [u8; 36] = [
    0xFF, 0xFF, 0xFF, 0x7F, 0x03, 0x00, 0x00, 0x00, 0x00, 0x00, 0x05, 0x80, 0xFE, 0xFF, 0xFE, 0xFF,
    0xFE, 0xFF, 0xFE, 0xF8, 0xFE, 0xFF, 0xFE, 0x0F, 0x21, 0x00, 0x01, 0x00, 0x00, 0x00, 0x00, 0x00,
    0x00, 0x00, 0x00, 0x03,
];

/// What a read gives; nothing where it fails.
fn given<'a>(source: &mut ExerciseSource, room: &'a mut [u8]) -> &'a [u8]
    requires { 0 < length room.old }
{
    match source.read(room) {
        Ok(count) if count <= room.len() => &room[..count],
        _ => &[],
    }
}

/// Reads what is left of the capture in pieces of at most this many bytes.
fn check_pieces(rt: &impl Abort, lose: u32, len: usize) {
    let mut source = ExerciseSource::new(3, lose);
    let mut buf = [0; 64];
    let mut rest = &THREE[(lose as usize).min(36)..];
    for _ in 0..37 {
        let piece = given(&mut source, &mut buf[..len.max(1).min(64)]);
        let is_next = rest.starts_with(piece) && piece.is_empty() == rest.is_empty();
        same(rt, &(lose, len), &is_next, &true);
        rest = &rest[piece.len().min(rest.len())..];
    }
}

#[test]
fn gives_the_capture_of_three_items_in_any_pieces(rt: HostRuntime) {
    let mut room = [0; 64];
    let mut sink = MemorySink::new(&mut room, &[], &[]);
    same(&rt, &"three", &write_exercise(3, &mut sink), &Ok(36));
    same(&rt, &"bytes", &sink.held(), &THREE.as_slice());
    let none = write_exercise(0, &mut SureSink::new());
    same(&rt, &"none", &none, &Ok(0));
    for lose in [0, 1, 35, 36, 37, 1000] {
        for len in [1, 7, 64] {
            check_pieces(&rt, lose, len);
        }
    }
}

#[test]
fn answers_a_write_that_fails_once(rt: HostRuntime) {
    // Each write takes 5 bytes, and a later one would go on.
    for failing in 0..8u64 {
        let mut room = [0; 64];
        let fail = [failing];
        let mut sink = MemorySink::new(&mut room, &[5], &fail);
        same(&rt, &failing, &write_exercise(3, &mut sink), &Err(Failed));
        let held = sink.held();
        same(&rt, &failing, &held, &&THREE[..held.len().min(36)]);
    }
}
