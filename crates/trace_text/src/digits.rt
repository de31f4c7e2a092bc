//! What is kept of one line for the next: the digits of its offset, and the text of its place.

ghost use Rattle.std.specs.Prelude.{◌≡◌, ◌+◌, ◌≤◌, ◌<◌, ◌^◌, ◌/◌, ◌%◌, length, take, decimal};
ghost use Rattle.trace_text.specs.Puts.{Puts};

use crate::place_text::PlaceText;
use crate::room::{NUMBER_ROOM, put_front, put_number, put_two};
use itoa::Buffer;
use source_events::{Event, Packet, What};
use stp_grammar::item::{Place, StpItem};

/// The digits of a number but for its last two, and the text of a place, which are the same in most lines that follow
/// one another.
#[derive(Drop)]
pub struct Digits {
    /// The number with zeros for its last two digits.
    base: u64,
    digits: [u8; 20],
    len: usize,
    pub(crate) place: PlaceText,
    ghost few: { len ≤ 20 },
    ghost sized: { length digits ≡ 20 },
    ghost whole: { base % 100 ≡ 0 },
    ghost kept: { take len digits ≡ decimal (base / 100) },
}

/// Puts the digits of a number at the front of an array, and answers how many they are.
fn digits_of(number: u64, into: &mut [u8; 20]) -> usize
    ensures few { result ≤ 20 }
    ensures digits { take result into.new ≡ decimal number }
    ensures size { length into.new ≡ 20 }
{
    let mut buffer = Buffer::new();
    let text = buffer.format(number).as_bytes();
    into[..text.len()].copy_from_slice(text);
    text.len()
}

impl Digits {
    ghost use Rattle.trace_text.specs.Digits.{hundreds_of, KeepsPlace, KeepsPlaceOf};

    /// The digits of 0, and the text of an unknown place.
    pub fn new() -> Digits
        ensures { hundreds_of result ≡ 0 }
    {
        let mut digits = [0; 20];
        let len = digits_of(0, &mut digits);
        Digits {
            base: 0,
            digits,
            len,
            place: PlaceText::of(Place {
                master: None,
                channel: None,
            }),
        }
    }

    /// Keeps the digits of this number but for its last two.
    #[inline]
    pub(crate) fn keep(&mut self, number: u64)
        ensures hundreds { hundreds_of self.new ≡ number / 100 }
        ensures place { self.new.place ≡ self.old.place }
    {
        if number < 100 || number.wrapping_sub(self.base) >= 100 {
            self.keep_anew(number);
        }
    }

    /// Keeps the digits of this number but for its last two, which are others than those that are kept. Kept out of
    /// line: this is seldom, and in line it would be in each place where a line is put.
    #[inline(never)]
    fn keep_anew(&mut self, number: u64)
        ensures hundreds { hundreds_of self.new ≡ number / 100 }
        ensures place { self.new.place ≡ self.old.place }
    {
        self.base = number - number % 100;
        self.len = digits_of(number / 100, &mut self.digits);
    }

    /// Keeps the text of the place of an item, if it has one.
    #[inline(always)]
    pub(crate) fn keep_item(&mut self, item: &StpItem)
        ensures hundreds { hundreds_of self.new ≡ hundreds_of self.old }
        ensures place { KeepsPlace self.new item.now }
    {
        match *item {
            StpItem::MasterError { place, .. }
            | StpItem::Datum { place, .. }
            | StpItem::Flag { place, .. } => self.place.keep(place),
            StpItem::Async
            | StpItem::Version(_)
            | StpItem::GlobalError { .. }
            | StpItem::Trigger { .. }
            | StpItem::Frequency { .. }
            | StpItem::NullStamp { .. } => {}
        }
    }

    /// Keeps what the line of this event needs: the digits of its offset, and the text of its place.
    #[inline(always)]
    pub(crate) fn keep_event(&mut self, event: &Event<Packet>)
        ensures hundreds { hundreds_of self.new ≡ event.now.at / 100 }
        ensures place { KeepsPlaceOf self.new event.now.what }
    {
        self.keep(event.at);
        if let What::Packet(Packet::Stp(item)) = &event.what {
            self.keep_item(item);
        }
    }

    /// Puts the number, whose digits but for the last two are kept. They are put from a copy, which is nowhere in the
    /// room: so no test whether it is goes before each line.
    #[inline]
    pub(crate) fn put(&self, room: &mut [u8], from: usize, number: u64) -> usize
        requires kept { hundreds_of self.now ≡ number / 100 }
        requires room { from + NUMBER_ROOM ≤ length room.old }
        ensures { Puts room.old room.new from result NUMBER_ROOM (decimal number) }
    {
        if number < 100 {
            return put_number(room, from, number);
        }
        let digits = self.digits;
        let from = put_front(room, from, &digits, self.len);
        put_two(room, from, (number - self.base) as u8)
    }
}
