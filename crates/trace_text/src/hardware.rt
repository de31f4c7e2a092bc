//! The texts of hardware packets, by what they mean.

ghost use Rattle.std.specs.Prelude.{◌≡◌, ◌+◌, ◌≤◌, ◌++◌, length, codes, decimal};
ghost use Rattle.trace_text.specs.HardwareText.{change_text, hardware_text};
ghost use Rattle.trace_text.specs.Puts.{Puts};

use crate::items::put_source;
use crate::room::{
    ITEM_ROOM, PART_ROOM, WORD_ROOM, put_bytes, put_count, put_digits, put_short, put_slice,
    put_value,
};
use dwt_packets::{Change, DwtItem};

/// Puts the comparator, `cmp C`, and a word after it.
#[inline]
fn put_comparator(room: &mut [u8], from: usize, comparator: u8, word: &str) -> usize
    requires few { length word.now ≤ WORD_ROOM }
    requires room { from + PART_ROOM ≤ length room.old }
    ensures { Puts room.old room.new from result PART_ROOM
        (codes "cmp " ++ (decimal comparator ++ word.now)) }
{
    let from = put_bytes(room, from, b"cmp ");
    let from = put_short(room, from, comparator);
    put_slice(room, from, word.as_bytes())
}

/// Puts what the processor did at an exception, `exception N C`.
#[inline]
fn put_exception(room: &mut [u8], from: usize, number: u16, change: Change) -> usize
    requires room { from + PART_ROOM ≤ length room.old }
    ensures { Puts room.old room.new from result PART_ROOM
        (codes "exception " ++ (decimal number ++ change_text change)) }
{
    let from = put_count(room, from, b"exception ", u64::from(number));
    match change {
        Change::Enter => put_bytes(room, from, b" enter"),
        Change::Exit => put_bytes(room, from, b" exit"),
        Change::Return => put_bytes(room, from, b" return"),
    }
}

/// Puts the text of what a hardware packet means.
#[inline]
pub(crate) fn put_hardware(room: &mut [u8], from: usize, item: &DwtItem) -> usize
    requires room { from + ITEM_ROOM ≤ length room.old }
    ensures { Puts room.old room.new from result ITEM_ROOM (hardware_text item.now) }
{
    match *item {
        DwtItem::Counters(counters) => {
            let from = put_bytes(room, from, b"counters ");
            put_digits(room, from, &[counters])
        }
        DwtItem::Exception { number, change } => put_exception(room, from, number, change),
        DwtItem::Sample { pc } => {
            let from = put_bytes(room, from, b"pc ");
            put_digits(room, from, &pc.to_be_bytes())
        }
        DwtItem::Asleep => put_bytes(room, from, b"asleep"),
        DwtItem::MatchPc { comparator, pc } => {
            let from = put_comparator(room, from, comparator, " pc ");
            put_digits(room, from, &pc.to_be_bytes())
        }
        DwtItem::MatchAddress { comparator, low } => {
            let bytes = u32::from(low).to_be_bytes();
            let from = put_comparator(room, from, comparator, " addr ");
            put_digits(room, from, &bytes[2..])
        }
        DwtItem::Read {
            comparator,
            size,
            value,
        } => {
            let from = put_comparator(room, from, comparator, " read ");
            put_value(room, from, size, value)
        }
        DwtItem::Written {
            comparator,
            size,
            value,
        } => {
            let from = put_comparator(room, from, comparator, " write ");
            put_value(room, from, size, value)
        }
        DwtItem::Other { disc, size, value } => {
            let from = put_bytes(room, from, b"hw ");
            put_source(room, from, disc, size, value)
        }
    }
}
