//! What counts the events of a recovering report, and beside it the items of each source by their words.

ghost use Rattle.std.specs.Prelude.{◌≡◌, []};
ghost use Rattle.capture_actions.specs.KindCounts.{HasCounted};

use capture_actions::KindCounts;
use itm_grammar::packet::ItmPacket;
use recovering_machines::Receiver;
use recovery_engine::HeardCounts;
use source_events::{Event, Packet, SourceKind};
use stp_grammar::said::Said;
use stretch_readings::Heard;
use trace_values::SourceId;

/// Counts the packets of each source and the faults, and all items by their words.
#[derive(Drop)]
pub struct HeardKinds {
    pub(crate) heard: HeardCounts,
    pub(crate) kinds: KindCounts,
}

impl HeardKinds {
    ghost use Rattle.recovery_engine.specs.Heard.{HasHeard, heard_of};

    /// No event came yet.
    pub fn new() -> HeardKinds
        ensures fresh { HasHeard result.heard [] }
        ensures none { heard_of result.heard ≡ 0 }
        ensures kinds { HasCounted result.kinds [] }
    {
        HeardKinds {
            heard: HeardCounts::new(),
            kinds: KindCounts::new(),
        }
    }
}

/// Of all events only their numbers are kept.
impl Receiver for HeardKinds {
    ghost use Rattle.recovery_listing.specs.HeardKinds.{gets, room};
    ghost use Rattle.recovery_listing.specs.HeardKindsLaws.{adds_up};

    type To = ();

    ghost gets = { gets };

    ghost room = { room };

    ghost adds_up = { adds_up };

    ghost takes_on = { λ a b es source kind g t. t };

    fn give(&mut self, to: &mut (), event: Event<Heard<Packet>>) {
        self.heard.count(&event);
        self.kinds.give(to, event);
    }

    #[inline(always)]
    fn events_left(&self, to: &()) -> usize {
        self.heard.events_left(to)
    }

    #[inline(always)]
    fn takes_told(&self, _source: SourceId, _kind: SourceKind) -> bool {
        true
    }

    #[inline(always)]
    fn give_itm(&mut self, to: &mut (), at: u64, half: u8, source: SourceId, packet: ItmPacket) {
        self.kinds.give_itm(to, at, half, source, packet);
        self.heard.give_itm(to, at, half, source, packet);
    }

    #[inline(always)]
    fn give_said(&mut self, to: &mut (), at: u64, half: u8, source: SourceId, said: Said) {
        self.kinds.give_said(to, at, half, source, said);
        self.heard.give_said(to, at, half, source, said);
    }

    #[inline(always)]
    fn give_raw(&mut self, to: &mut (), at: u64, source: SourceId, bytes: &[u8]) {
        self.kinds.give_raw(to, at, source, bytes);
        self.heard.give_raw(to, at, source, bytes);
    }

    #[inline(always)]
    fn give_trigger(&mut self, to: &mut (), at: u64, source: SourceId, byte: u8) {
        self.kinds.give_trigger(to, at, source, byte);
        self.heard.give_trigger(to, at, source, byte);
    }
}
