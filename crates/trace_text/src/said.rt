//! The lines of what STP packets say, from their parts. Those of data, flags, triggers, frequencies, NULL_TS and
//! errors, which are most, are put with one branch by what the packet is: whether its value is a frequency, in decimal.
//! So is that of ASYNC, which has no value.

ghost use Rattle.std.specs.Prelude.{◌≡◌, ◌+◌, ◌*◌, ◌/◌, ◌^◌, ◌≤◌, ◌<◌, ◌++◌, ◌==◌, true, false, length, Some};
ghost use Rattle.std.specs.Option.{is_some};
ghost use Rattle.stp_grammar.specs.Opcodes.{line_of, row_at};
ghost use Rattle.stp_grammar.specs.Said.{said_item, IsProperSaid};
ghost use Rattle.stp_grammar.specs.declared.item.StpItem.TheVariants.{Version};
ghost use Rattle.trace_text.specs.Digits.{hundreds_of, place_of};
ghost use Rattle.trace_text.specs.LineText.{event_line, stp_event};
ghost use Rattle.trace_text.specs.SaidText.{is_told, is_placed, is_counted, is_late, is_timed};
ghost use Rattle.trace_text.specs.SaidText.{value_at, said_text, said_line};
ghost use Rattle.trace_text.specs.declared.remark.Remark.TheVariants.{None as NoRemark};
ghost use Rattle.trace_text.specs.Puts.{Puts};

use crate::digits::Digits;
use crate::lengths::{few_digits, few_half_digits, few_id_digits};
use crate::lines::{EVENT_ROOM, put_half, put_source, put_stp_line};
use crate::room::{ITEM_ROOM, NUMBER_ROOM, put_byte, put_number, put_part};
use crate::said_tables::{
    DIGIT_COUNTS, MARK_LENS, MARKS, PLACE_COUNTS, STAMP_COUNTS, WIDTH_LENS, WIDTHS, WORD_LENS,
    WORDS, WRITTEN,
};
use crate::stp::{put_nibbles, put_stamp_times};
use stp_grammar::item::StpItem;
use stp_grammar::said::{ASYNC, Said};
use trace_stream::{OUTLET_ROOM, Outlet, TEXT_ROOM, Text};
use trace_values::SourceId;

/// The line of a packet of the row of this number, or of ASYNC, is put by the tables.
#[inline(always)]
fn is_written(number: u8) -> bool
    requires { number < 36 }
    ensures { result ≡ is_told number }
{
    (WRITTEN >> number) % 2 == 1
}

/// How many places the line has: 1 or 0.
#[inline(always)]
fn place_count(number: u8) -> usize
    requires { number < 36 }
    ensures placed { (result == 1) ≡ is_placed (row_at number) }
    ensures few { result ≤ 1 }
{
    let counts = PLACE_COUNTS;
    counts[number as usize] as usize
}

/// How many timestamps the line has: 1 or 0.
#[inline(always)]
fn stamp_count(number: u8) -> usize
    requires { number < 36 }
    ensures timed { (result == 1) ≡ is_timed (row_at number) }
    ensures few { result ≤ 1 }
{
    let counts = STAMP_COUNTS;
    counts[number as usize] as usize
}

/// The value is put in decimal, or there is none: these are the two rows of frequencies, the last ones, and ASYNC.
#[inline(always)]
fn is_late(number: u8) -> bool
    requires { number < 36 }
    ensures { result ≡ is_late number }
{
    number >= 33
}

/// How many hexadecimal digits the value has.
#[inline(always)]
fn digit_count(number: u8) -> u8
    requires number { number < 36 }
    requires written { is_told number ≡ true }
    requires hexadecimal { is_counted (row_at number) ≡ false }
    ensures count { result ≡ (line_of (row_at number)).payload }
    ensures few { result ≤ 16 }
{
    let counts = DIGIT_COUNTS;
    counts[number as usize]
}

/// Puts the value, of at most sixteen digits: a frequency in decimal, and another in hexadecimal. ASYNC has none.
#[inline(always)]
fn put_payload(room: &mut [u8], from: usize, number: u8, payload: u64) -> usize
    requires number { number < 36 }
    requires written { is_told number ≡ true }
    requires fits { payload < 16 ^ (line_of (row_at number)).payload }
    requires room { from + NUMBER_ROOM ≤ length room.old }
    ensures { Puts room.old room.new from result 16 (value_at (row_at number) payload) }
{
    if !is_late(number) {
        put_nibbles(room, from, digit_count(number), payload)
    } else if number == ASYNC {
        from
    } else {
        put_number(room, from, payload)
    }
}

/// Puts a datum, a flag, a trigger, a frequency, a NULL_TS, an error or an ASYNC, whose place is kept.
#[inline(always)]
fn put_said(room: &mut [u8], from: usize, digits: &Digits, said: Said) -> usize
    requires proper { IsProperSaid said }
    requires written { is_told said.number ≡ true }
    requires kept { place_of digits.now.place ≡ said.place }
    requires room { from + ITEM_ROOM ≤ length room.old }
    ensures { Puts room.old room.new from result ITEM_ROOM (said_text (said_item said)) }
{
    let number = said.number;
    let from = put_part(room, from, WORDS, 8, WORD_LENS, number);
    let from = digits
        .place
        .put_times(room, from, said.place, place_count(number));
    let from = put_part(room, from, WIDTHS, 8, WIDTH_LENS, number);
    let from = put_payload(room, from, number, said.payload);
    let from = put_part(room, from, MARKS, 4, MARK_LENS, number);
    put_stamp_times(room, from, said.stamp, stamp_count(number))
}

/// The line of a datum, a flag, a trigger, a frequency, a NULL_TS, an error or an ASYNC, at an offset whose digits but
/// for the last two are kept, as is its place.
#[derive(Drop)]
pub(crate) struct SaidLine<'a> {
    pub(crate) digits: &'a Digits,
    pub(crate) at: u64,
    pub(crate) half: u8,
    pub(crate) id: SourceId,
    pub(crate) said: Said,
}

impl Text for SaidLine<'_> {
    ghost fits = { λ l. IsProperSaid l.said × (is_told l.said.number ≡ true)
        × (is_some (said_item l.said) ≡ true)
        × (hundreds_of l.digits.now ≡ l.at / 100) × (place_of l.digits.now.place ≡ l.said.place) };

    ghost text = { λ l. said_line l.at l.half l.id (said_item l.said) };

    #[inline(always)]
    fn put(&self, room: &mut [u8], from: usize) -> usize {
        let from = self.digits.put(room, from, self.at);
        let from = put_half(room, from, true, self.half);
        let from = put_source(room, from, Some(self.id));
        let from = put_said(room, from, self.digits, self.said);
        put_byte(room, from, b'\n')
    }
}

/// Puts the line of a VERSION of this STP source, which ends in this half of the byte at this offset. It is kept out of
/// line, and is given numbers alone, so that no item is in memory but here.
#[inline(never)]
fn put_version_line(
    outlet: &mut Outlet,
    digits: &mut Digits,
    at: u64,
    half: u8,
    id: SourceId,
    version: u8,
)
    requires proper { version < 16 }
    requires room { length outlet.old + TEXT_ROOM ≤ OUTLET_ROOM }
    ensures line { outlet.new ≡ outlet.old ++ event_line true (stp_event at half id (Version version)) NoRemark }
    ensures bound { length outlet.new ≤ length outlet.old + EVENT_ROOM }
{
    put_stp_line(outlet, digits, at, half, id, StpItem::Version(version));
}

/// Puts the line of what a packet of this STP source says, which has an item, and ends in this half of the byte at
/// this offset. It is what `print` puts for the event of that item, neither of which is made where the line is put by
/// its row: of the others only a VERSION has an item. The digits of the offset and the text of a place are kept for the
/// next line.
#[inline(always)]
pub fn put_said_line(
    outlet: &mut Outlet,
    digits: &mut Digits,
    at: u64,
    half: u8,
    id: SourceId,
    said: Said,
)
    requires proper { IsProperSaid said }
    requires some { is_some (said_item said) ≡ true }
    requires room { length outlet.old + TEXT_ROOM ≤ OUTLET_ROOM }
    ensures line { (item : StpItem) → said_item said ≡ Some item →
        outlet.new ≡ outlet.old ++ event_line true (stp_event at half id item) NoRemark }
    ensures bound { length outlet.new ≤ length outlet.old + EVENT_ROOM }
{
    if !is_written(said.number) {
        put_version_line(outlet, digits, at, half, id, said.payload as u8);
        return;
    }
    few_digits(at);
    few_half_digits(half);
    few_id_digits(id);
    digits.keep(at);
    digits.place.keep(said.place);
    let line = SaidLine {
        digits,
        at,
        half,
        id,
        said,
    };
    outlet.put(&line);
}
