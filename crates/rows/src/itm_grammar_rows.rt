//! Rows of `itm_grammar`.

use crate::notation::Words;
use crate::out::Out;
use itm_grammar::packet::{ItmPacket, Lateness, Size};
use itm_grammar::partial::Partial;
use itm_grammar::proper::is_proper;
use itm_grammar::shortest::shortest_len;
use trace_values::{COUNT_ROOM, Next};

/// The size `u8`, `u16` or `u32`.
pub fn size_of(word: &str) -> Size {
    match word {
        "u8" => Size::One,
        "u16" => Size::Two,
        _ => Size::Four,
    }
}

/// What a local timestamp was late by, by its name in this project's texts.
fn lateness_of(word: &str) -> Lateness {
    match word {
        "exact" => Lateness::Exact,
        "stamp-late" => Lateness::StampLate,
        "packet-late" => Lateness::PacketLate,
        _ => Lateness::BothLate,
    }
}

/// `PORT SIZE VALUE`
fn software_of(mut words: Words<'_>) -> ItmPacket {
    ItmPacket::Software {
        port: words.byte(),
        size: size_of(words.word()),
        value: words.quarter(),
    }
}

/// `LATENESS DELTA`
fn local_of(mut words: Words<'_>) -> ItmPacket {
    ItmPacket::Local {
        lateness: lateness_of(words.word()),
        delta: words.quarter(),
    }
}

/// `LENGTH VALUE CHANGE WRAP`, where a flag is 0 or 1.
fn first_of(mut words: Words<'_>) -> ItmPacket {
    ItmPacket::GlobalFirst {
        len: words.byte(),
        value: words.quarter(),
        change: words.number() == 1,
        wrap: words.number() == 1,
    }
}

/// `itm VALUE` or `dwt VALUE`
fn extension_of(mut words: Words<'_>) -> ItmPacket {
    ItmPacket::Extension {
        dwt: words.word() == "dwt",
        value: words.quarter(),
    }
}

/// A packet: `sync`, `overflow`, `software ..`, `local ..`, `first ..` or `extension ..`.
fn packet_of(kind: &str, words: Words<'_>) -> ItmPacket {
    match kind {
        "sync" => ItmPacket::Sync,
        "overflow" => ItmPacket::Overflow,
        "software" => software_of(words),
        "local" => local_of(words),
        "first" => first_of(words),
        _ => extension_of(words),
    }
}

/// Writes a packet, and how many bytes its shortest spelling has.
fn put_shortest(packet: &ItmPacket, out: &mut Out) {
    out.value(packet);
    if is_proper(packet) {
        out.value(&shortest_len(packet));
    } else {
        out.put("  no packet\n");
    }
}

/// `shortest_len PACKET`: the packet, and how many bytes its shortest spelling has.
fn shortest(mut words: Words<'_>, out: &mut Out) {
    let kind = words.word();
    put_shortest(&packet_of(kind, words), out);
}

/// `with_byte BYTES`: the packets that the bytes are, each with the index of its last byte, and how many bytes are left
/// over, or the index of the first that breaks and why.
fn packets(bytes: &[u8], out: &mut Out) {
    let mut partial = Partial::Header;
    for at in 0..bytes.len() {
        if partial.len() > COUNT_ROOM {
            break;
        }
        match partial.with_byte(bytes[at]) {
            Next::Go(next) => partial = next,
            Next::End(packet) => {
                out.values(&at, &packet);
                partial = Partial::Header;
            }
            Next::Fail(reason) => return out.values(&at, &reason),
        }
    }
    out.put_value("  left ", &partial.len());
    out.put("\n");
}

/// Runs the row of this call.
pub fn run(call: &str, words: Words<'_>, out: &mut Out) {
    match call {
        "shortest_len" => shortest(words, out),
        "with_byte" => packets(&words.bytes(out), out),
        _ => out.put("  ? no such call\n"),
    }
}
