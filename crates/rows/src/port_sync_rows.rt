//! Rows of `port_sync`.

use crate::notation::Words;
use crate::out::Out;
use port_sync::{Aligner, Half, Hunter};

/// Pushes a byte, and writes what it gives but `Waiting`, with its index; nothing after a fault.
fn push_byte(aligner: &mut Aligner, at: usize, byte: u8, out: &mut Out) {
    if aligner.is_live() {
        let half = aligner.push(byte);
        if half != Half::Waiting {
            out.put_value("  ", &at);
            out.put_value(" ", &half);
        }
    }
}

/// Writes what these bytes give, up to a fault, and how many bytes are left over.
fn push(aligner: &mut Aligner, bytes: &[u8], out: &mut Out) {
    for (at, byte) in bytes.iter().enumerate() {
        push_byte(aligner, at, *byte, out);
    }
    if aligner.is_live() {
        out.put_value("  left ", &aligner.len());
    }
    out.put("\n");
}

/// What has taken this many halfwords of a frame.
fn aligner_after(halfwords: u8) -> Aligner {
    let mut aligner = Aligner::new();
    for number in 0..u16::from(halfwords) * 2 {
        if aligner.is_live() {
            aligner.push(if number % 2 == 0 { 0x02 } else { 0xff });
        }
    }
    aligner
}

/// `push HALFWORDS BYTES,BYTES..`: what each of these gives after this many halfwords of a frame.
fn align(mut words: Words<'_>, out: &mut Out) {
    let halfwords = words.byte();
    for text in words.rest.split(',') {
        let bytes = Words { rest: text }.bytes(out);
        push(&mut aligner_after(halfwords), &bytes, out);
    }
}

/// `hunt BYTES`: the index of each byte that ends a full synchronisation.
fn hunt(bytes: &[u8], out: &mut Out) {
    let mut hunter = Hunter::new();
    for (at, byte) in bytes.iter().enumerate() {
        if hunter.push(*byte) {
            out.value(&at);
        }
    }
}

/// Runs the row of this call.
pub fn run(call: &str, words: Words<'_>, out: &mut Out) {
    match call {
        "push" => align(words, out),
        "hunt" => hunt(&words.bytes(out), out),
        _ => out.put("  ? no such call\n"),
    }
}
