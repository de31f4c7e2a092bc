//! Rows of `buffer_ring`.

ghost use Rattle.std.specs.Prelude.{◌≡◌, ◌<◌, ◌^◌, true};
ghost use Rattle.buffer_ring.specs.Buffer.{pushed_by};

use crate::notation::Words;
use crate::out::Out;
use buffer_ring::TraceBuffer;

/// More bytes than a row has.
const MANY: u64 = 1 << 20;

/// The greatest size of a buffer.
const GREATEST_SIZE: usize = 1 << 24;

/// Whether the buffer takes another byte.
fn is_ready(buffer: &TraceBuffer) -> bool
    ensures { result ≡ true → pushed_by buffer.now < 2 ^ 36 }
{
    buffer.dropped() < MANY && buffer.image().len() <= GREATEST_SIZE
}

/// Pushes a byte.
fn push(buffer: &mut TraceBuffer, byte: u8) {
    if is_ready(buffer) {
        buffer.push(byte);
    }
}

/// Writes the memory of a buffer, and what is known of it.
fn put_buffer(buffer: &TraceBuffer, out: &mut Out) {
    out.bytes("  image ", buffer.image());
    out.put_value("  pointer ", &buffer.pointer());
    out.put_value(" full ", &buffer.is_full());
    out.put_value(" dropped ", &buffer.dropped());
    out.put("\n");
}

/// What a buffer has after these bytes.
fn push_all(mut buffer: TraceBuffer, bytes: &[u8], out: &mut Out) {
    for byte in bytes {
        push(&mut buffer, *byte);
    }
    put_buffer(&buffer, out);
}

/// `push SIZE BYTES`: what a buffer of this size has after these bytes.
fn fill(mut words: Words<'_>, out: &mut Out) {
    let size = words.half() as usize;
    let bytes = words.bytes(out);
    if size < 16 {
        return out.put("  ? a small size\n");
    }
    match TraceBuffer::new(out.alloc, size) {
        Ok(buffer) => push_all(buffer, &bytes, out),
        Err(_) => out.fail(),
    }
}

/// Runs the row of this call.
pub fn run(call: &str, words: Words<'_>, out: &mut Out) {
    match call {
        "push" => fill(words, out),
        _ => out.put("  ? no such call\n"),
    }
}
