//! The text of a place that is kept from one line to the next.

ghost use Rattle.std.specs.Prelude.{◌≡◌, ◌+◌, ◌≤◌, [], length, take, ◌==◌, if◌then◌else◌};
ghost use Rattle.trace_text.specs.StpText.{place_text};
ghost use Rattle.trace_text.specs.Puts.{Puts};

use crate::room::put_front;
use crate::stp::{PLACE_ROOM, put_place};
use stp_grammar::item::Place;

/// Bytes of room that the text of a place is copied into.
pub(crate) const PLACE_COPY: usize = 16;

/// The text of the last place, which is that of most items that follow.
#[derive(Drop)]
pub(crate) struct PlaceText {
    place: Place,
    text: [u8; PLACE_COPY],
    len: usize,
    ghost few: { len ≤ 15 },
    ghost sized: { length text ≡ 16 },
    ghost kept: { take len text ≡ place_text place },
}

impl PlaceText {
    ghost use Rattle.trace_text.specs.Digits.{place_of};

    /// The text of this place.
    pub(crate) fn of(place: Place) -> PlaceText
        ensures { place_of result ≡ place }
    {
        let mut text = [0; PLACE_COPY];
        let len = put_place(&mut text, 0, place);
        PlaceText { place, text, len }
    }

    /// Keeps the text of this place.
    #[inline(always)]
    pub(crate) fn keep(&mut self, place: Place)
        ensures { place_of self.new ≡ place }
    {
        if place.master != self.place.master || place.channel != self.place.channel {
            *self = PlaceText::of(place);
        }
    }

    /// Puts the place whose text is kept: `M C`.
    #[inline(always)]
    pub(crate) fn put(&self, room: &mut [u8], from: usize, place: Place) -> usize
        requires kept { place_of self.now ≡ place }
        requires room { from + PLACE_COPY ≤ length room.old }
        ensures { Puts room.old room.new from result PLACE_ROOM (place_text place) }
    {
        let text = self.text;
        put_front(room, from, &text, self.len)
    }

    /// Puts the place whose text is kept once, or never: so many times. No branch depends on which it is.
    #[inline(always)]
    pub(crate) fn put_times(
        &self,
        room: &mut [u8],
        from: usize,
        place: Place,
        times: usize,
    ) -> usize
        requires kept { place_of self.now ≡ place }
        requires times { times ≤ 1 }
        requires room { from + PLACE_COPY ≤ length room.old }
        ensures { Puts room.old room.new from result PLACE_ROOM (if times == 1 then place_text place else []) }
    {
        let text = self.text;
        put_front(room, from, &text, self.len * times)
    }
}
