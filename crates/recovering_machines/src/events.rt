//! A list of events, which takes more of them.

ghost use Rattle.std.specs.Prelude.{◌≡◌, Some};

use crate::receiver::Receiver;
use crate::strict::seen;
use arrayvec::ArrayVec;
use itm_grammar::packet::ItmPacket;
use source_events::{Event, Packet, RunBytes, SourceKind, What};
use stp_grammar::said::Said;
use stretch_readings::Heard;
use trace_values::SourceId;

/// How many events a list of them has room for. One byte of a capture ends at most one frame, of 15 cells, with at most
/// two events for each.
pub const EVENTS: usize = 32;

/// The events that one call gives, in order, up to the first fault.
pub type Events = ArrayVec<Event<Packet>, EVENTS>;

/// What a source gives at this half of the byte at this offset.
#[inline(always)]
fn event_at(source: SourceId, at: u64, half: u8, what: What<Packet>) -> Event<Packet>
    ensures { result ≡ record { at = at; half = half; source = Some source; what = what } }
{
    Event {
        at,
        half,
        source: Some(source),
        what,
    }
}

/// A list of events, which has them in the order in which they came. A fault is none of them.
impl Receiver for Events {
    ghost use Rattle.recovering_machines.specs.Events.{list_gets, list_room};
    ghost use Rattle.recovering_machines.specs.EventsLaws.{list_adds_up};
    ghost use Rattle.recovering_machines.specs.Hearing.{takes_seen};
    ghost use Rattle.recovering_machines.specs.HearingLaws.{seen_adds_up};

    type To = ();

    ghost gets = { λ old es new. takes_seen list_gets old es new };

    ghost room = { list_room };

    ghost adds_up = { seen_adds_up list_gets list_adds_up };

    ghost takes_on = { λ a b es source kind g t. t };

    #[inline(always)]
    fn events_left(&self, _to: &()) -> usize {
        EVENTS - self.len()
    }

    #[inline(always)]
    fn give(&mut self, _to: &mut (), event: Event<Heard<Packet>>) {
        if let Some(event) = seen(event) {
            self.push(event);
        }
    }

    #[inline(always)]
    fn takes_told(&self, _source: SourceId, _kind: SourceKind) -> bool {
        true
    }

    #[inline(always)]
    fn give_itm(&mut self, _to: &mut (), at: u64, half: u8, source: SourceId, packet: ItmPacket) {
        self.push(event_at(source, at, half, What::Packet(Packet::Itm(packet))));
    }

    #[inline(always)]
    fn give_said(&mut self, _to: &mut (), at: u64, half: u8, source: SourceId, said: Said) {
        if let Some(item) = said.item() {
            self.push(event_at(source, at, half, What::Packet(Packet::Stp(item))));
        }
    }

    #[inline(always)]
    fn give_raw(&mut self, _to: &mut (), at: u64, source: SourceId, bytes: &[u8]) {
        self.push(event_at(source, at, 0, What::Raw(RunBytes::new(bytes))));
    }

    #[inline(always)]
    fn give_trigger(&mut self, _to: &mut (), at: u64, source: SourceId, byte: u8) {
        self.push(event_at(source, at, 0, What::Trigger(byte)));
    }
}
