//! Rows of `stp_grammar`.

use crate::notation::Words;
use crate::out::Out;
use crate::stp_words::{item_of, order_of, packet_of};
use stp_grammar::attribution::Attribution;
use stp_grammar::item::StpItem;
use stp_grammar::packet::{Order, StpPacket};
use stp_grammar::partial::Partial;
use stp_grammar::proper::{is_proper, is_proper_stp};
use trace_values::Next;

/// `is_proper PACKET`: the packet, and whether its numbers are in their ranges.
fn put_packet(packet: &StpPacket, out: &mut Out) {
    out.values(packet, &is_proper(packet));
}

/// `is_proper_stp ITEM`: the item, and whether its numbers are in their ranges.
fn put_item(item: &StpItem, out: &mut Out) {
    out.values(item, &is_proper_stp(item));
}

/// Writes the item of a packet, if it has one.
fn take(attribution: &mut Attribution, packet: StpPacket, out: &mut Out) {
    if is_proper(&packet) {
        out.optional(&attribution.take(packet));
    } else {
        out.put("  ? no packet\n");
    }
}

/// `take PACKET,PACKET..`: the item of each packet after those before it, if it has one.
fn items(words: Words<'_>, out: &mut Out) {
    let mut attribution = Attribution::new();
    for text in words.rest.split(',') {
        take(&mut attribution, packet_of(Words { rest: text }), out);
    }
}

/// Writes what the nibble that ends a packet says, and its index, or how many nibbles are left.
fn nibbles(order: Order, digits: &[u8], out: &mut Out) {
    let mut partial = Partial::Start;
    for at in 0..digits.len() {
        if at > 1000 || partial.len() != at as u64 {
            return out.put("  ? nibbles\n");
        }
        // a digit 0 to 9 or A to F
        let nibble = (digits[at] % 16 + digits[at] / 64 * 9) % 16;
        match partial.with_nibble(order, nibble) {
            Next::Go(next) => partial = next,
            Next::End(packet) => return out.values(&at, &packet),
            Next::Fail(reason) => return out.values(&at, &reason),
        }
    }
    out.put_value("  left ", &partial.len());
    out.put("\n");
}

/// `with_nibble ORDER DIGITS`: what the nibble that ends a packet says, and its index, or how many nibbles are left.
fn with_nibble(mut words: Words<'_>, out: &mut Out) {
    let order = order_of(words.word());
    nibbles(order, words.word().as_bytes(), out);
}

/// Runs the row of this call.
pub fn run(call: &str, words: Words<'_>, out: &mut Out) {
    match call {
        "is_proper" => put_packet(&packet_of(words), out),
        "is_proper_stp" => put_item(&item_of(words), out),
        "take" => items(words, out),
        "with_nibble" => with_nibble(words, out),
        _ => out.put("  ? no such call\n"),
    }
}
