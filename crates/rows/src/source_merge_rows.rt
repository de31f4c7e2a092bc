//! Rows of `source_merge`.

ghost use Rattle.std.specs.Prelude.{◌≡◌, ◌≤◌, ◌^◌, true};
ghost use Rattle.source_merge.specs.Engine.{is_live, next_of};

use crate::notation::{Words, put_source};
use crate::out::Out;
use crate::plans::plan_of;
use arrayvec::ArrayVec;
use source_events::{Event, Packet};
use source_merge::{Engine, Flow};
use std::alloc::Global;
use trace_values::{FramesMode, PacketsMode};

/// More bytes than a row has.
const MANY: usize = 1 << 20;

/// Whether the engine takes another byte.
fn is_ready(engine: &Engine) -> bool
    ensures live { result ≡ true → is_live engine.now ≡ true }
    ensures next { result ≡ true → next_of engine.now ≤ 2 ^ 20 }
{
    engine.is_live() && engine.next() <= MANY as u64
}

/// Writes the line of an event that is decided with the byte at this offset.
fn put_event(at: u64, event: &Event<Packet>, out: &mut Out) {
    out.put_value("  ", &at);
    out.put_value(": ", &event.at);
    out.put_value(".", &event.half);
    put_source(" ", event.source, out);
    out.put_value(" ", &event.what);
    out.put("\n");
}

/// Writes the lines of an answer to the byte at this offset: its events, and a fault.
fn put_answer(at: u64, flow: Flow, events: &[Event<Packet>], out: &mut Out) {
    for event in events {
        put_event(at, event, out);
    }
    if let Flow::Stopped(stop) = flow {
        out.put_value("  ", &at);
        out.put_value(": ", &stop);
        out.put("\n");
    }
}

/// Feeds a byte.
fn feed(engine: &mut Engine, byte: u8, out: &mut Out) {
    if is_ready(engine) {
        let at = engine.next();
        let mut events = ArrayVec::new();
        let flow = engine.feed(at, byte, &mut events);
        put_answer(at, flow, events.as_slice(), out);
    }
}

/// Feeds as many bytes as the engine takes at once, and answers how many.
fn feed_block(engine: &mut Engine, piece: &[u8], out: &mut Out) -> usize {
    if piece.is_empty() || piece.len() > MANY || !is_ready(engine) {
        return 0;
    }
    let at = engine.next();
    let mut events = ArrayVec::new();
    let fed = engine.feed_block(at, piece, &mut events);
    let last = at.saturating_add(fed.bytes as u64).saturating_sub(1);
    put_answer(last, fed.flow, events.as_slice(), out);
    fed.bytes
}

/// Feeds a piece, as many bytes at once as the engine takes.
fn feed_piece(engine: &mut Engine, piece: &[u8], out: &mut Out) {
    let mut used = 0usize;
    for _ in 0..piece.len() {
        let rest = piece.get(used..).unwrap_or(b"");
        used = used.saturating_add(feed_block(engine, rest, out));
    }
}

/// Writes what offset is next, and whether there was a fault.
fn put_end(engine: &Engine, out: &mut Out) {
    out.put_value("  next ", &engine.next());
    out.put(if engine.is_live() {
        " live\n"
    } else {
        " stopped\n"
    });
}

/// `PACKETS ITM STP`: an engine of a plan that begins to read sources so and maps these, if it is sound.
fn engine_of(frames: FramesMode, words: &mut Words<'_>) -> Option<Engine> {
    let packets = match words.word() {
        "hunt" => PacketsMode::Hunt,
        _ => PacketsMode::Aligned,
    };
    let plan = plan_of(frames, packets, words);
    if plan.is_sound() {
        Some(Engine::new(plan))
    } else {
        None
    }
}

/// What an engine says of the bytes one by one.
fn told(mut engine: Engine, bytes: &[u8], alloc: Global) -> Out {
    let mut out = Out::new(alloc);
    for byte in bytes {
        feed(&mut engine, *byte, &mut out);
    }
    put_end(&engine, &mut out);
    out
}

/// What it says of them in two pieces.
fn told_in_two(mut engine: Engine, (front, rest): (&[u8], &[u8]), alloc: Global) -> Out {
    let mut out = Out::new(alloc);
    feed_piece(&mut engine, front, &mut out);
    feed_piece(&mut engine, rest, &mut out);
    put_end(&engine, &mut out);
    out
}

/// What the bytes say one by one, of which each line begins with the offset of the byte that decides it. In two pieces,
/// with each cut, they must say the same.
fn hear(frames: FramesMode, words: Words<'_>, out: &mut Out) {
    let mut rest = words;
    let Some(engine) = engine_of(frames, &mut rest) else {
        return out.put("  ? no sound plan\n");
    };
    let bytes = rest.bytes(out);
    let told = told(engine, &bytes, out.alloc);
    out.put(told.text());
    for cut in 0..bytes.len() {
        compare(told.text(), (frames, words), bytes.split_at(cut), out);
    }
}

/// Writes a `?` where two pieces say something else than this text.
fn compare(
    text: &str,
    (frames, mut words): (FramesMode, Words<'_>),
    pieces: (&[u8], &[u8]),
    out: &mut Out,
) {
    if let Some(engine) = engine_of(frames, &mut words) {
        if told_in_two(engine, pieces, out.alloc).text() != text {
            out.put("  ? another cut\n");
        }
    }
}

/// Runs the row of this call: `hunt PACKETS ITM STP BYTES`, `aligned ..` or `bare ..`.
pub fn run(call: &str, words: Words<'_>, out: &mut Out) {
    match FramesMode::named(call) {
        Some(frames) => hear(frames, words, out),
        None => out.put("  ? no such call\n"),
    }
}
