//! What puts the value dump of one source into an outlet, as the events of a capture come.

ghost use Rattle.std.specs.Prelude.{◌≡◌, ◌+◌, ◌<◌, ◌≤◌, ◌∷◌, ◌++◌, [], length, false, if◌then◌else◌};
ghost use Rattle.source_events.specs.declared.event.What.TheVariants.{Packet as GivenPacket};
ghost use Rattle.source_events.specs.Fitting.{EventFits, PacketFits};
ghost use Rattle.value_dump.specs.Dumping.{hz_of, owed_by};
ghost use Rattle.value_dump.specs.Header.{header};
ghost use Rattle.value_dump.specs.Names.{ACTION_ROOM, Event, IsProper, Itm, OUTLET_ROOM, Packet};
ghost use Rattle.value_dump.specs.SourceDump.{gets, room};
ghost use Rattle.value_dump.specs.declared.header.TheConstants.{HEADER_ROOM};
ghost use Rattle.value_dump.specs.declared.values.TheConstants.{ALL_ROOM};

use crate::dump::{PACKET_ROOM, ValueDump};
use crate::header::put_header;
use itm_grammar::packet::ItmPacket;
use recovering_machines::{Receiver, seen};
use source_events::{Event, Packet, SourceKind, What};
use stp_grammar::said::Said;
use stretch_readings::Heard;
use trace_stream::{OUTLET_ROOM, Outlet};
use trace_values::SourceId;

/// What puts the value dump of a source.
#[derive(Drop)]
pub struct SourceDump {
    /// The source; of none nothing is put.
    pub source: Option<SourceId>,
    pub dump: ValueDump,
}

impl SourceDump {
    /// Puts the header, if the dump is not begun.
    pub fn begin(&self, outlet: &mut Outlet, is_begun: bool)
        requires room { length outlet.old + ACTION_ROOM ≤ OUTLET_ROOM }
        ensures text { outlet.new ≡ outlet.old ++ (if is_begun then [] else header (hz_of self.now.dump)) }
        ensures bound { length outlet.new + owed_by self.now.dump ≤ length outlet.old + (HEADER_ROOM + ALL_ROOM) }
        ensures fresh { (is_begun ≡ false → owed_by self.now.dump ≡ 0) →
            length outlet.new + owed_by self.now.dump ≤ length outlet.old + ALL_ROOM }
    {
        if !is_begun {
            put_header(outlet, self.dump.hz());
        }
    }

    /// Takes the next packet, which is of this source.
    fn put_packet(&mut self, outlet: &mut Outlet, source: Option<SourceId>, packet: &ItmPacket)
        requires proper { IsProper packet.now }
        requires room { 0 < room (self.old, outlet.old) }
        ensures gets { (event : Event Packet) → event.source ≡ source → event.what ≡ GivenPacket (Itm packet.now) →
            gets (self.old, outlet.old) (event ∷ []) (self.new, outlet.new) }
        ensures room { room (self.old, outlet.old) ≤ room (self.new, outlet.new) + 1 }
    {
        if self.source == source {
            self.dump.put_packet(outlet, packet);
        }
    }

    /// Takes the next event.
    fn put_event(&mut self, outlet: &mut Outlet, event: &Event<Packet>)
        requires fits { EventFits PacketFits event.now }
        requires room { 0 < room (self.old, outlet.old) }
        ensures gets { gets (self.old, outlet.old) (event.now ∷ []) (self.new, outlet.new) }
        ensures room { room (self.old, outlet.old) ≤ room (self.new, outlet.new) + 1 }
    {
        if let What::Packet(Packet::Itm(packet)) = &event.what {
            self.put_packet(outlet, event.source, packet);
        }
    }
}

/// Of all events the packets of the source alone are looked at.
impl Receiver for SourceDump {
    ghost use Rattle.value_dump.specs.SourceDump.{gets, room};
    ghost use Rattle.value_dump.specs.SourceDumpLaws.{adds_up};
    ghost use Rattle.recovering_machines.specs.Hearing.{takes_seen};
    ghost use Rattle.recovering_machines.specs.HearingLaws.{seen_adds_up};

    type To = Outlet;

    ghost gets = { λ old es new. takes_seen gets old es new };

    ghost room = { room };

    ghost adds_up = { seen_adds_up gets adds_up };

    ghost takes_on = { λ a b es source kind g t. t };

    fn give(&mut self, outlet: &mut Outlet, event: Event<Heard<Packet>>) {
        if let Some(event) = seen(event) {
            self.put_event(outlet, &event);
        }
    }

    fn events_left(&self, outlet: &Outlet) -> usize {
        OUTLET_ROOM
            .saturating_sub(self.dump.owed())
            .saturating_sub(outlet.len())
            / PACKET_ROOM
    }

    /// A packet is looked at as what it says, whatever its source.
    fn takes_told(&self, _source: SourceId, _kind: SourceKind) -> bool {
        true
    }

    fn give_itm(
        &mut self,
        outlet: &mut Outlet,
        _at: u64,
        _half: u8,
        source: SourceId,
        packet: ItmPacket,
    ) {
        self.put_packet(outlet, Some(source), &packet);
    }

    fn give_said(
        &mut self,
        _outlet: &mut Outlet,
        _at: u64,
        _half: u8,
        _source: SourceId,
        _said: Said,
    ) {}

    fn give_raw(&mut self, _outlet: &mut Outlet, _at: u64, _source: SourceId, _bytes: &[u8]) {}

    fn give_trigger(&mut self, _outlet: &mut Outlet, _at: u64, _source: SourceId, _byte: u8) {}
}
