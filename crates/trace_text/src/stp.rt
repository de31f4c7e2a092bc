//! The texts of the items of a system trace.

ghost use Rattle.std.specs.Prelude.{◌≡◌, ◌+◌, ◌/◌, ◌^◌, ◌≤◌, ◌<◌, ◌++◌, ◌∷◌, ◌==◌, [], length, codes, decimal};
ghost use Rattle.std.specs.Prelude.{if◌then◌else◌};
ghost use Rattle.hex.specs.Hex.{encode_lower};
ghost use Rattle.stp_grammar.specs.Proper.{bits_of, IsProperItem, IsProperStamp};
ghost use Rattle.stp_grammar.specs.declared.item.StpItem.TheVariants.{Trigger};
ghost use Rattle.trace_text.specs.HexDigits.{hex_digits};
ghost use Rattle.trace_text.specs.Digits.{KeepsPlace, place_of};
ghost use Rattle.trace_text.specs.StpText.{known_text, place_text, width_text, mark_text, stamp_text, stp_text};
ghost use Rattle.trace_text.specs.Puts.{Puts, PutsAll};

use crate::digits::Digits;
use crate::room::{
    ITEM_ROOM, MEDIUM_ROOM, NUMBER_ROOM, put_byte, put_bytes, put_count, put_digits, put_entry,
    put_medium, put_part, put_short,
};
use crate::tables::{DATUM_DIGITS, DATUM_WIDTH_LENS, DATUM_WIDTHS, MARKS};
use stp_grammar::item::{Place, Stamp, StpItem};
use stp_grammar::packet::Width;
use trace_clock::word_nibbles;

/// Bytes that a master and a channel are given: more than any have.
pub(crate) const PLACE_ROOM: usize = 2 * MEDIUM_ROOM + 1;

/// The most bytes of a datum's width and value.
const VALUE_ROOM: usize = 20;

/// Bytes that a timestamp is given: more than any has.
const STAMP_ROOM: usize = 2 + NUMBER_ROOM;

/// Puts a number, or `-` where it is unknown.
#[inline(always)]
fn put_known(room: &mut [u8], from: usize, number: Option<u16>) -> usize
    requires room { from + MEDIUM_ROOM ≤ length room.old }
    ensures { Puts room.old room.new from result MEDIUM_ROOM (known_text number) }
{
    match number {
        None => put_byte(room, from, b'-'),
        Some(number) => put_medium(room, from, number),
    }
}

/// Puts the master and the channel: `M C`.
#[inline]
pub(crate) fn put_place(room: &mut [u8], from: usize, place: Place) -> usize
    requires room { from + PLACE_ROOM ≤ length room.old }
    ensures { Puts room.old room.new from result PLACE_ROOM (place_text place) }
{
    let from = put_known(room, from, place.master);
    let from = put_byte(room, from, b' ');
    put_known(room, from, place.channel)
}

/// Puts the last `count` nibbles of a number, which has no more, as hexadecimal digits. There is room for sixteen, so
/// that no branch depends on how many they are, also where there are none.
#[inline(always)]
pub(crate) fn put_nibbles(room: &mut [u8], from: usize, count: u8, number: u64) -> usize
    requires few { count ≤ 16 }
    requires fits { number < 16 ^ count }
    requires room { from + 16 ≤ length room.old }
    ensures { PutsAll room.old room.new from result count (hex_digits count number) }
{
    let first = number << ((64 - 4 * count) % 64);
    let _all = put_digits(room, from, &first.to_be_bytes());
    from + usize::from(count)
}

/// Puts how many bits a datum has, and its value: `uB V`.
#[inline(always)]
fn put_datum(room: &mut [u8], from: usize, width: Width, value: u64) -> usize
    requires fits { value < 2 ^ bits_of width }
    requires room { from + VALUE_ROOM ≤ length room.old }
    ensures { Puts room.old room.new from result VALUE_ROOM
        (width_text width ++ (codes " " ++ hex_digits (bits_of width / 4) value)) }
{
    let counts = DATUM_DIGITS;
    let from = put_part(room, from, DATUM_WIDTHS, 4, DATUM_WIDTH_LENS, width as u8);
    put_nibbles(room, from, counts[width as usize], value)
}

/// Puts a timestamp: `-`, `n=N`, `g=N`, or `r=` and its word's nibbles.
#[inline(always)]
pub(crate) fn put_stamp(room: &mut [u8], from: usize, stamp: Stamp) -> usize
    requires proper { IsProperStamp stamp }
    requires room { from + STAMP_ROOM ≤ length room.old }
    ensures { Puts room.old room.new from result STAMP_ROOM (stamp_text stamp) }
{
    match stamp {
        Stamp::None => put_byte(room, from, b'-'),
        Stamp::Natural(time) => put_count(room, from, b"n=", time),
        Stamp::Gray(time) => put_count(room, from, b"g=", time),
        Stamp::Raw { size, word } => {
            let from = put_bytes(room, from, b"r=");
            put_nibbles(room, from, word_nibbles(size), word)
        }
    }
}

/// Puts a timestamp once, or never: so many times. No branch depends on which it is.
#[inline(always)]
pub(crate) fn put_stamp_times(room: &mut [u8], from: usize, stamp: Stamp, times: usize) -> usize
    requires proper { IsProperStamp stamp }
    requires times { times ≤ 1 }
    requires room { from + STAMP_ROOM ≤ length room.old }
    ensures { Puts room.old room.new from result STAMP_ROOM (if times == 1 then stamp_text stamp else []) }
{
    let end = put_stamp(room, from, stamp);
    from + (end - from) * times
}

/// Puts whether a datum is marked, between spaces.
#[inline(always)]
fn put_mark(room: &mut [u8], from: usize, marked: bool) -> usize
    requires room { from + 4 ≤ length room.old }
    ensures { PutsAll room.old room.new from result 3 (codes " " ++ (mark_text marked ++ codes " ")) }
{
    put_entry(room, from, MARKS, 4, marked as usize, 3)
}

/// Puts a word, a place, which is kept, and a space after it.
#[inline(always)]
fn put_placed(room: &mut [u8], from: usize, digits: &Digits, word: &[u8], place: Place) -> usize
    requires few { length word.now ≤ 5 }
    requires kept { place_of digits.now.place ≡ place }
    requires room { from + 22 ≤ length room.old }
    ensures { Puts room.old room.new from result 21 (word.now ++ (place_text place ++ codes " ")) }
{
    let from = put_bytes(room, from, word);
    let from = digits.place.put(room, from, place);
    put_byte(room, from, b' ')
}

/// Puts what was written, with its place and its timestamp: `data M C uB V K T`.
#[inline(always)]
fn put_data(
    room: &mut [u8],
    from: usize,
    digits: &Digits,
    place: Place,
    width: Width,
    value: u64,
    marked: bool,
    stamp: Stamp,
) -> usize
    requires fits { value < 2 ^ bits_of width }
    requires kept { place_of digits.now.place ≡ place }
    requires proper { IsProperStamp stamp }
    requires room { from + ITEM_ROOM ≤ length room.old }
    ensures { Puts room.old room.new from result ITEM_ROOM
        (codes "data " ++ (place_text place
        ++ (codes " " ++ ((width_text width ++ (codes " " ++ hex_digits (bits_of width / 4) value))
        ++ (codes " " ++ (mark_text marked ++ (codes " " ++ stamp_text stamp))))))) }
{
    let from = put_placed(room, from, digits, b"data ", place);
    let from = put_datum(room, from, width, value);
    let from = put_mark(room, from, marked);
    put_stamp(room, from, stamp)
}

/// Puts a trigger: `trig HH T`.
#[inline(always)]
fn put_trigger(room: &mut [u8], from: usize, code: u8, stamp: Stamp) -> usize
    requires proper { IsProperStamp stamp }
    requires room { from + ITEM_ROOM ≤ length room.old }
    ensures { Puts room.old room.new from result ITEM_ROOM (stp_text (Trigger code stamp)) }
{
    let from = put_bytes(room, from, b"trig ");
    let from = put_digits(room, from, &[code]);
    let from = put_byte(room, from, b' ');
    put_stamp(room, from, stamp)
}

/// Puts the text of an item, whose place, if it has one, is kept.
#[inline(always)]
pub(crate) fn put_stp(room: &mut [u8], from: usize, digits: &Digits, item: &StpItem) -> usize
    requires proper { IsProperItem item.now }
    requires kept { KeepsPlace digits.now item.now }
    requires room { from + ITEM_ROOM ≤ length room.old }
    ensures { Puts room.old room.new from result ITEM_ROOM (stp_text item.now) }
{
    match *item {
        StpItem::Async => put_bytes(room, from, b"async"),
        StpItem::Version(version) => {
            let from = put_bytes(room, from, b"version ");
            put_short(room, from, version)
        }
        StpItem::MasterError { place, code } => {
            let from = put_placed(room, from, digits, b"merr ", place);
            put_digits(room, from, &[code])
        }
        StpItem::GlobalError { code } => {
            let from = put_bytes(room, from, b"gerr ");
            put_digits(room, from, &[code])
        }
        StpItem::Datum {
            place,
            width,
            value,
            marked,
            stamp,
        } => put_data(room, from, digits, place, width, value, marked, stamp),
        StpItem::Flag { place, stamp } => {
            let from = put_placed(room, from, digits, b"flag ", place);
            put_stamp(room, from, stamp)
        }
        StpItem::Trigger { code, stamp } => put_trigger(room, from, code, stamp),
        StpItem::Frequency { hertz, stamp } => {
            let from = put_count(room, from, b"freq ", u64::from(hertz));
            let from = put_byte(room, from, b' ');
            put_stamp(room, from, stamp)
        }
        StpItem::NullStamp { stamp } => {
            let from = put_bytes(room, from, b"nullts ");
            put_stamp(room, from, stamp)
        }
    }
}
