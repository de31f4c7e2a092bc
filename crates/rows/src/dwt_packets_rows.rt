//! Rows of `dwt_packets`.

use crate::itm_grammar_rows::size_of;
use crate::notation::{Words, number_of};
use crate::out::Out;
use dwt_packets::{Change, DwtItem, is_proper_item, meaning, packet_of};
use itm_grammar::packet::{ItmPacket, Size};
use itm_grammar::proper::is_proper;

/// Writes what a packet means, and the packet of that.
fn put_meaning(item: &DwtItem, out: &mut Out) {
    out.value(item);
    if is_proper_item(item) {
        out.value(&packet_of(item));
    } else {
        out.put("  ? no item\n");
    }
}

/// Writes what the packet of these numbers means.
fn put_packet(disc: u8, size: Size, value: u32, out: &mut Out) {
    if is_proper(&ItmPacket::Hardware { disc, size, value }) {
        put_meaning(&meaning(disc, size, value), out);
    } else {
        out.put("  ? no packet\n");
    }
}

/// `meaning DISCRIMINATOR SIZE VALUE`: what the packet means, and the packet of that.
fn packet(mut words: Words<'_>, out: &mut Out) {
    let disc = words.byte();
    let size = size_of(words.word());
    put_packet(disc, size, words.quarter(), out);
}

fn change_of(word: &str) -> Change {
    match word {
        "enter" => Change::Enter,
        "exit" => Change::Exit,
        _ => Change::Return,
    }
}

/// `read COMPARATOR SIZE VALUE`, `write COMPARATOR SIZE VALUE`, or `other DISCRIMINATOR SIZE VALUE`.
fn value_item_of(kind: &str, number: u8, size: Size, value: u32) -> DwtItem {
    match kind {
        "read" => DwtItem::Read {
            comparator: number,
            size,
            value,
        },
        "write" => DwtItem::Written {
            comparator: number,
            size,
            value,
        },
        _ => DwtItem::Other {
            disc: number,
            size,
            value,
        },
    }
}

/// `pc COMPARATOR PC`, or `address COMPARATOR LOW`.
fn place_item_of(kind: &str, comparator: u8, place: u64) -> DwtItem {
    match kind {
        "pc" => DwtItem::MatchPc {
            comparator,
            pc: (place % 0x1_0000_0000) as u32,
        },
        _ => DwtItem::MatchAddress {
            comparator,
            low: (place % 0x1_0000) as u16,
        },
    }
}

/// An item: `counters BITS`, `exception NUMBER CHANGE`, or one with a comparator or a discriminator.
fn item_of(kind: &str, number: u16, word: &str, value: u32) -> DwtItem {
    let low = (number % 0x100) as u8;
    match kind {
        "counters" => DwtItem::Counters(low),
        "exception" => DwtItem::Exception {
            number,
            change: change_of(word),
        },
        "pc" | "address" => place_item_of(kind, low, number_of(word).unwrap_or(0)),
        _ => value_item_of(kind, low, size_of(word), value),
    }
}

/// Writes an item, and whether some packet means it.
fn put_item(item: &DwtItem, out: &mut Out) {
    out.values(item, &is_proper_item(item));
}

/// `is_proper_item ITEM`: the item, and whether some packet means it.
fn proper(mut words: Words<'_>, out: &mut Out) {
    let (kind, number, word) = (words.word(), words.half(), words.word());
    put_item(&item_of(kind, number, word, words.quarter()), out);
}

/// Runs the row of this call.
pub fn run(call: &str, words: Words<'_>, out: &mut Out) {
    match call {
        "meaning" => packet(words, out),
        "is_proper_item" => proper(words, out),
        _ => out.put("  ? no such call\n"),
    }
}
