//! Rows of `port_slip`.

use crate::notation::Words;
use crate::out::Out;
use arrayvec::ArrayVec;
use port_slip::{Slip, Slipped};

/// More bytes than a row has.
const MANY: u64 = 1 << 20;

/// Pushes a byte, and adds what becomes sure with it.
fn push(slip: &mut Slip, byte: u8, sure: &mut Vec<u8>, out: &mut Out) {
    if slip.pushed() < MANY {
        let mut given = ArrayVec::new();
        slip.push(byte, &mut given);
        out.note(sure.extend_from_slice(given.as_slice()));
    }
}

/// Writes how many bits were not written, and how many patterns there were.
fn put_slipped(slipped: Slipped, out: &mut Out) {
    out.put_value("  skipped ", &slipped.skipped);
    out.put_value(" dropped ", &slipped.dropped);
    out.put_value(" patterns ", &slipped.patterns);
    out.put("\n");
}

/// `push BYTES`: how many bytes were pushed, the realigned bytes, and what was not written.
fn push_all(bytes: &[u8], out: &mut Out) {
    let mut slip = Slip::new();
    let mut realigned = Vec::new(out.alloc);
    for byte in bytes {
        push(&mut slip, *byte, &mut realigned, out);
    }
    out.value(&slip.pushed());
    let mut rest = ArrayVec::new();
    let slipped = slip.finish(&mut rest);
    out.note(realigned.extend_from_slice(rest.as_slice()));
    out.bytes("  bytes ", &realigned);
    put_slipped(slipped, out);
}

/// Runs the row of this call.
pub fn run(call: &str, words: Words<'_>, out: &mut Out) {
    match call {
        "push" => push_all(&words.bytes(out), out),
        _ => out.put("  ? no such call\n"),
    }
}
