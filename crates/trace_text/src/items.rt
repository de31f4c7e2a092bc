//! The texts of ITM packets.

ghost use Rattle.std.specs.Prelude.{◌≡◌, ◌+◌, ◌≤◌, ◌<◌, ◌^◌, ◌∷◌, [], ◌++◌, length, codes, decimal};
ghost use Rattle.std.specs.Prelude.{if◌then◌else◌};
ghost use Rattle.itm_grammar.specs.Proper.{IsProper};
ghost use Rattle.itm_grammar.specs.declared.packet.ItmPacket.TheVariants.{Local, GlobalFirst, GlobalSecond, Extension};
ghost use Rattle.trace_text.specs.Values.{value_text};
ghost use Rattle.trace_text.specs.ItemText.{lateness_text, flag_text, item_text};
ghost use Rattle.trace_text.specs.Puts.{Puts, PutsAll};

use crate::hardware::put_hardware;
use crate::room::{
    ITEM_ROOM, PART_ROOM, WORD_ROOM, put_bytes, put_count, put_digits, put_entry, put_number,
    put_part, put_port, put_short, put_slice, put_value,
};
use crate::tables::{BITS, FLAGS, LATENESS_LENS, LATENESSES};
use dwt_packets::meaning;
use itm_grammar::packet::{ItmPacket, Lateness, Size};

/// Puts `local`, how late a local timestamp is, and a space after it. No branch depends on how long the word is.
#[inline(always)]
fn put_lateness(room: &mut [u8], from: usize, lateness: Lateness) -> usize
    requires room { from + 18 ≤ length room.old }
    ensures { Puts room.old room.new from result 18 (codes "local " ++ (lateness_text lateness ++ codes " ")) }
{
    put_part(room, from, LATENESSES, 18, LATENESS_LENS, lateness as u8)
}

#[inline]
fn put_local(room: &mut [u8], from: usize, lateness: Lateness, delta: u32) -> usize
    requires room { from + PART_ROOM ≤ length room.old }
    ensures { Puts room.old room.new from result PART_ROOM (item_text (Local lateness delta)) }
{
    let from = put_lateness(room, from, lateness);
    put_number(room, from, u64::from(delta))
}

/// Puts the two flags of a first global timestamp, each with a space before it.
#[inline(always)]
fn put_flags(room: &mut [u8], from: usize, change: bool, wrap: bool) -> usize
    requires room { from + 4 ≤ length room.old }
    ensures { PutsAll room.old room.new from result 4
        (codes " " ++ (flag_text change ++ (codes " " ++ flag_text wrap))) }
{
    put_entry(room, from, FLAGS, 4, 2 * change as usize + wrap as usize, 4)
}

#[inline]
fn put_first_stamp(
    room: &mut [u8],
    from: usize,
    len: u8,
    value: u32,
    change: bool,
    wrap: bool,
) -> usize
    requires room { from + ITEM_ROOM ≤ length room.old }
    ensures { Puts room.old room.new from result ITEM_ROOM (item_text (GlobalFirst len value change wrap)) }
{
    let from = put_bytes(room, from, b"global1 ");
    let from = put_short(room, from, len);
    let from = put_count(room, from, b" ", u64::from(value));
    put_flags(room, from, change, wrap)
}

/// Puts how many bits the time of a second global timestamp has, and a space after it.
#[inline(always)]
fn put_bits(room: &mut [u8], from: usize, wide: bool) -> usize
    requires room { from + 4 ≤ length room.old }
    ensures { PutsAll room.old room.new from result 3
        ((if wide then codes "64" else codes "48") ++ codes " ") }
{
    put_entry(room, from, BITS, 4, wide as usize, 3)
}

#[inline]
fn put_second_stamp(room: &mut [u8], from: usize, wide: bool, value: u64) -> usize
    requires room { from + PART_ROOM ≤ length room.old }
    ensures { Puts room.old room.new from result PART_ROOM (item_text (GlobalSecond wide value)) }
{
    let from = put_bytes(room, from, b"global2 ");
    let from = put_bits(room, from, wide);
    put_number(room, from, value)
}

fn extension_words(dwt: bool) -> &'static str
    ensures text { result.now ≡ codes "ext " ++ ((if dwt then codes "dwt" else codes "itm") ++ codes " ") }
    ensures bound { length result.now ≤ WORD_ROOM }
{
    if dwt { "ext dwt " } else { "ext itm " }
}

#[inline]
fn put_extension(room: &mut [u8], from: usize, dwt: bool, value: u32) -> usize
    requires room { from + PART_ROOM ≤ length room.old }
    ensures { Puts room.old room.new from result PART_ROOM (item_text (Extension dwt value)) }
{
    let from = put_slice(room, from, extension_words(dwt).as_bytes());
    put_digits(room, from, &value.to_be_bytes())
}

/// Puts the number and the value of a source packet.
#[inline(always)]
pub(crate) fn put_source(room: &mut [u8], from: usize, number: u8, size: Size, value: u32) -> usize
    requires room { from + PART_ROOM ≤ length room.old }
    ensures { Puts room.old room.new from result PART_ROOM (decimal number ++ (codes " " ++ value_text size value)) }
{
    let from = put_short(room, from, number);
    let from = put_bytes(room, from, b" ");
    put_value(room, from, size, value)
}

/// Puts the text of a packet; a hardware packet has that of its meaning.
#[inline(always)]
pub(crate) fn put_item(room: &mut [u8], from: usize, packet: &ItmPacket) -> usize
    requires proper { IsProper packet.now }
    requires room { from + ITEM_ROOM ≤ length room.old }
    ensures { Puts room.old room.new from result ITEM_ROOM (item_text packet.now) }
{
    match *packet {
        ItmPacket::Sync => put_bytes(room, from, b"sync"),
        ItmPacket::Overflow => put_bytes(room, from, b"overflow"),
        ItmPacket::Software { port, size, value } => {
            let from = put_port(room, from, port);
            put_value(room, from, size, value)
        }
        ItmPacket::Hardware { disc, size, value } => {
            put_hardware(room, from, &meaning(disc, size, value))
        }
        ItmPacket::Local { lateness, delta } => put_local(room, from, lateness, delta),
        ItmPacket::GlobalFirst {
            len,
            value,
            change,
            wrap,
        } => put_first_stamp(room, from, len, value, change, wrap),
        ItmPacket::GlobalSecond { wide, value } => put_second_stamp(room, from, wide, value),
        ItmPacket::Extension { dwt, value } => put_extension(room, from, dwt, value),
    }
}
