//! Rows of `stp_codec`.

use crate::notation::Words;
use crate::out::Out;
use crate::stp_words::order_of;
use std::alloc::Global;
use stp_codec::{StpDecoder, WINDOW};
use stp_grammar::item::StpItem;
use stp_grammar::packet::Order;
use trace_values::{Found, Machine, Step, TakenAtOnce};

/// More bytes than a row has.
const MANY: usize = 5000;

/// The sizes of the pieces that a row is cut into.
const SIZES: [usize; 6] = [1, 2, 3, 5, 8, MANY];

/// Writes the line of a decoder's answer, with the offset of its byte, if it says something.
fn put_step(at: usize, step: Step<StpItem>, out: &mut Out) {
    match step {
        Step::Quiet | Step::Skipping => {}
        _ => out.values(&at, &step),
    }
}

fn decoder_of(order: Order, hunts: bool) -> StpDecoder {
    if hunts {
        StpDecoder::hunting(order)
    } else {
        StpDecoder::aligned(order)
    }
}

/// What the decoder says of a byte; nothing after a fault.
fn feed_byte(decoder: &mut StpDecoder, at: usize, byte: u8) -> Step<StpItem> {
    if !decoder.is_live() || decoder.held() >= 10000 || decoder.skipped() >= 10000 {
        return Step::Quiet;
    }
    decoder.feed(at as u64, byte)
}

/// Takes the first `count` of these bytes by what `find_part` finds that they are, and where that is unknown by
/// `take_part`.
fn take_front(
    decoder: &mut StpDecoder,
    ahead: &[u8],
    count: usize,
) -> Option<TakenAtOnce<StpItem>> {
    if count > MANY || ahead.len() < count + WINDOW {
        return None;
    }
    if !decoder.is_live() || decoder.held() >= 10000 || decoder.skipped() >= 10000 {
        return None;
    }
    match decoder.find_part(ahead, count) {
        Found::Ends(parts) => {
            let taken = decoder.end_part(ahead, parts);
            Some(TakenAtOnce {
                bytes: taken.bytes,
                half: taken.half,
                item: if taken.said.has_item() {
                    taken.said.item()
                } else {
                    None
                },
            })
        }
        Found::Waits => Some(TakenAtOnce {
            bytes: count,
            half: 1,
            item: None,
        }),
        Found::Unknown => decoder.take_part(&ahead[..count]),
    }
}

/// What a decoder says of the first byte of a piece.
fn feed_first(decoder: &mut StpDecoder, at: usize, piece: &[u8]) -> (usize, Step<StpItem>) {
    match piece.first() {
        Some(byte) => (1, feed_byte(decoder, at, *byte)),
        None => (1, Step::Quiet),
    }
}

/// How many bytes were taken at once, and what the last of them says.
fn told_at_once(taken: TakenAtOnce<StpItem>) -> (usize, Step<StpItem>) {
    match taken.item {
        Some(item) => (
            taken.bytes,
            Step::Item {
                half: taken.half,
                item,
            },
        ),
        None => (taken.bytes, Step::Quiet),
    }
}

/// Takes some of a piece, and at least one byte where there is one: how many, and what the last of them says. The piece
/// is copied to the front of `ahead`, where other bytes are behind it.
fn take_some(
    decoder: &mut StpDecoder,
    at: usize,
    piece: &[u8],
    ahead: &mut [u8],
) -> (usize, Step<StpItem>) {
    let count = piece.len();
    if count > MANY || ahead.len() < count {
        return (1, Step::Quiet);
    }
    ahead[..count].copy_from_slice(piece);
    match take_front(decoder, ahead, count) {
        Some(taken) => told_at_once(taken),
        None => feed_first(decoder, at, piece),
    }
}

/// Takes a piece, the first byte of which is at this offset.
fn take_piece(
    decoder: &mut StpDecoder,
    from: usize,
    piece: &[u8],
    ahead: &mut [u8],
    out: &mut Out,
) {
    let mut used = 0usize;
    for _ in 0..piece.len() {
        let rest = piece.get(used..).unwrap_or(b"");
        if rest.is_empty() {
            return;
        }
        let (count, step) = take_some(decoder, from.saturating_add(used), rest, ahead);
        used = used.saturating_add(count);
        put_step(from.saturating_add(used).saturating_sub(1), step, out);
    }
}

/// Writes how many nibbles a decoder holds and skipped, and whether its reading has begun.
fn put_end(decoder: &StpDecoder, out: &mut Out) {
    out.put_value("  held ", &decoder.held());
    out.put_value(" skipped ", &decoder.skipped());
    out.put_value(" locked ", &decoder.is_locked());
    out.put("\n");
}

/// What a decoder says of the bytes one by one, how many nibbles it holds and skipped, and whether it is locked.
fn told(alloc: Global, mut decoder: StpDecoder, bytes: &[u8]) -> Out {
    let mut out = Out::new(alloc);
    for (at, byte) in bytes.iter().enumerate() {
        put_step(at, feed_byte(&mut decoder, at, *byte), &mut out);
    }
    put_end(&decoder, &mut out);
    out
}

/// The same of the bytes in pieces of this size before this byte, where the part of a packet in a piece is taken at
/// once.
fn told_in_pieces(
    alloc: Global,
    mut decoder: StpDecoder,
    bytes: &[u8],
    (size, behind): (usize, u8),
) -> Out {
    let mut out = Out::new(alloc);
    let mut ahead = [behind; MANY + WINDOW];
    let mut at = 0usize;
    for piece in bytes.chunks(size.max(1)) {
        take_piece(&mut decoder, at, piece, &mut ahead, &mut out);
        at = at.saturating_add(piece.len());
    }
    put_end(&decoder, &mut out);
    out
}

/// Writes a `?` where pieces of this size say something else than this text.
fn compare(text: &str, (order, hunts): (Order, bool), bytes: &[u8], size: usize, out: &mut Out) {
    for behind in [0x00, 0xff] {
        let pieces = told_in_pieces(out.alloc, decoder_of(order, hunts), bytes, (size, behind));
        if pieces.text() != text {
            out.put("  ? other pieces\n");
        }
    }
}

/// What the bytes say one by one, and what is held at the end. In pieces of each size they must say the same.
fn feed(order: Order, hunts: bool, bytes: &[u8], out: &mut Out) {
    let alone = told(out.alloc, decoder_of(order, hunts), bytes);
    out.put(alone.text());
    for size in SIZES {
        compare(alone.text(), (order, hunts), bytes, size, out);
    }
}

/// Runs the row `feed ORDER MODE BYTES`, where the mode is `hunting` or `aligned`.
pub fn run(mut words: Words<'_>, out: &mut Out) {
    let order = order_of(words.word());
    let hunts = words.word() == "hunting";
    feed(order, hunts, &words.bytes(out), out);
}
