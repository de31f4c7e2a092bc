//! How the packets and the items of a system trace are written in a row.

use crate::notation::Words;
use stp_grammar::item::{Place, Stamp, StpItem};
use stp_grammar::packet::{Order, Row, StpPacket, Width};

/// The order `msn` or `lsn` of nibbles.
pub fn order_of(word: &str) -> Order {
    match word {
        "lsn" => Order::Lsn,
        _ => Order::Msn,
    }
}

/// The width of a datum `d4`, `d8`, `d16`, `d32` or `d64`, which may have an `m` after it.
fn width_of(word: &str) -> Option<Width> {
    match word.strip_suffix('m').unwrap_or(word) {
        "d4" => Some(Width::Four),
        "d8" => Some(Width::Eight),
        "d16" => Some(Width::Sixteen),
        "d32" => Some(Width::ThirtyTwo),
        "d64" => Some(Width::SixtyFour),
        _ => None,
    }
}

/// Whether a datum is marked: then an `m` is after its width.
fn is_marked(word: &str) -> bool {
    word.ends_with('m')
}

/// A timestamp: `natural TIME`, `gray TIME`, `raw SIZE WORD`, or none.
fn stamp_of(mut words: Words<'_>) -> Stamp {
    let kind = words.word();
    let number = words.number();
    match kind {
        "natural" => Stamp::Natural(number),
        "gray" => Stamp::Gray(number),
        "raw" => Stamp::Raw {
            size: (number % 0x100) as u8,
            word: words.number(),
        },
        _ => Stamp::None,
    }
}

/// A number of a place, or `-`.
fn part_of(words: &mut Words<'_>) -> Option<u16> {
    match words.optional() {
        Some(number) => Some((number % 0x1_0000) as u16),
        None => None,
    }
}

/// A place: `MASTER CHANNEL`.
fn place_of(words: &mut Words<'_>) -> Place {
    Place {
        master: part_of(words),
        channel: part_of(words),
    }
}

/// A datum of this width: `PLACE VALUE STAMP`.
fn datum_of(width: Width, marked: bool, mut words: Words<'_>) -> StpItem {
    StpItem::Datum {
        place: place_of(&mut words),
        width,
        value: words.number(),
        marked,
        stamp: stamp_of(words),
    }
}

/// `PLACE CODE`
fn master_error_of(mut words: Words<'_>) -> StpItem {
    StpItem::MasterError {
        place: place_of(&mut words),
        code: words.byte(),
    }
}

/// `PLACE STAMP`
fn flag_of(mut words: Words<'_>) -> StpItem {
    StpItem::Flag {
        place: place_of(&mut words),
        stamp: stamp_of(words),
    }
}

/// `CODE STAMP`
fn trigger_of(mut words: Words<'_>) -> StpItem {
    StpItem::Trigger {
        code: words.byte(),
        stamp: stamp_of(words),
    }
}

/// `HERTZ STAMP`
fn frequency_of(mut words: Words<'_>) -> StpItem {
    StpItem::Frequency {
        hertz: words.quarter(),
        stamp: stamp_of(words),
    }
}

/// `flag PLACE STAMP`, `trig CODE STAMP`, `freq HERTZ STAMP`, or `null STAMP`.
fn stamped_item_of(kind: &str, words: Words<'_>) -> StpItem {
    match kind {
        "flag" => flag_of(words),
        "trig" => trigger_of(words),
        "freq" => frequency_of(words),
        _ => StpItem::NullStamp {
            stamp: stamp_of(words),
        },
    }
}

/// `async`, `version NUMBER`, `merr PLACE CODE`, `gerr CODE`, or what may have a timestamp.
fn other_item_of(kind: &str, mut words: Words<'_>) -> StpItem {
    match kind {
        "async" => StpItem::Async,
        "version" => StpItem::Version(words.byte()),
        "merr" => master_error_of(words),
        "gerr" => StpItem::GlobalError { code: words.byte() },
        _ => stamped_item_of(kind, words),
    }
}

/// An item: a datum with a place, a value and a timestamp, or another.
pub fn item_of(mut words: Words<'_>) -> StpItem {
    let kind = words.word();
    match width_of(kind) {
        Some(width) => datum_of(width, is_marked(kind), words),
        None => other_item_of(kind, words),
    }
}

/// The row of a packet that is no datum.
fn other_row_of(word: &str, stamped: bool) -> Row {
    match word {
        "master8" => Row::Master8,
        "channel8" => Row::Channel8,
        "channel16" => Row::Channel16,
        "version" => Row::Version,
        "flag" => Row::Flag { stamped },
        "null_ts" => Row::NullStamp,
        _ => Row::Null,
    }
}

/// The row of a packet that has a timestamp or none: a datum, `master8`, `channel8`, `channel16`, `version`, `flag`,
/// `null_ts` or `null`.
fn row_of(word: &str, stamped: bool) -> Row {
    match width_of(word) {
        Some(width) => Row::Datum {
            width,
            marked: is_marked(word),
            stamped,
        },
        None => other_row_of(word, stamped),
    }
}

/// `ROW PAYLOAD`
fn plain_of(mut words: Words<'_>) -> StpPacket {
    StpPacket::Plain {
        row: row_of(words.word(), false),
        payload: words.number(),
    }
}

/// `ROW PAYLOAD SIZE WORD`
fn stamped_of(mut words: Words<'_>) -> StpPacket {
    StpPacket::Stamped {
        row: row_of(words.word(), true),
        payload: words.number(),
        size: words.byte(),
        word: words.number(),
    }
}

/// A packet: `async`, `plain ROW PAYLOAD`, or `stamped ROW PAYLOAD SIZE WORD`.
pub fn packet_of(mut words: Words<'_>) -> StpPacket {
    match words.word() {
        "plain" => plain_of(words),
        "stamped" => stamped_of(words),
        _ => StpPacket::Async,
    }
}
