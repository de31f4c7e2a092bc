//! How many bytes a packet takes.

ghost use Rattle.std.specs.Prelude.{◌≡◌, ◌≤◌, ℕ, List, length, false};
ghost use Rattle.itm_grammar.specs.Spelling.{Spells};
ghost use Rattle.itm_grammar.specs.Proper.{IsProper};
ghost use Rattle.itm_grammar.specs.Shortest.{short, shortest_len, group_count, is_short};

use crate::packet::{ItmPacket, Lateness};

/// How many payload bytes of seven bits each a number needs, at least one and at most four.
fn group_count(value: u32) -> usize
    ensures { result ≡ group_count value }
{
    if value < 0x80 {
        1
    } else if value < 0x4000 {
        2
    } else if value < 0x20_0000 {
        3
    } else {
        4
    }
}

/// Whether a local timestamp has the short form.
fn is_short(lateness: Lateness, delta: u32) -> bool
    ensures { result ≡ is_short lateness delta }
{
    match lateness {
        Lateness::Exact => 0 < delta && delta < 7,
        _ => false,
    }
}

fn local_len(lateness: Lateness, delta: u32) -> usize
    ensures { result ≡ shortest_len (ItmPacket.Local lateness delta) }
{
    if is_short(lateness, delta) {
        1
    } else {
        1 + group_count(delta)
    }
}

fn len_of(packet: &ItmPacket) -> usize
    ensures { result ≡ shortest_len packet.now }
{
    match *packet {
        ItmPacket::Sync => 6,
        ItmPacket::Overflow => 1,
        ItmPacket::Software { size, .. } => 1 + usize::from(size.byte_count()),
        ItmPacket::Hardware { size, .. } => 1 + usize::from(size.byte_count()),
        ItmPacket::Local { lateness, delta } => local_len(lateness, delta),
        ItmPacket::GlobalFirst { len, .. } => 1 + usize::from(len),
        ItmPacket::GlobalSecond { wide, .. } => if wide { 7 } else { 5 },
        ItmPacket::Extension { value, .. } => extension_len(value),
    }
}

fn extension_len(value: u32) -> usize
    ensures { result ≡ shortest_len (ItmPacket.Extension false value) }
{
    if value < 8 {
        1
    } else {
        1 + group_count(value / 8)
    }
}

/// How many bytes the shortest spelling of the packet has, 1 to 7: a local timestamp is short where it can
/// be, and timestamps and extensions have no payload byte more than they need.
pub fn shortest_len(packet: &ItmPacket) -> usize
    requires { IsProper packet.now }
    ensures value { result ≡ shortest_len packet.now }
    ensures spelling { Spells packet.now (short packet.now) × (length (short packet.now) ≡ result) }
    ensures least { (r : List ℕ) → Spells packet.now r → result ≤ length r }
{
    len_of(packet)
}
