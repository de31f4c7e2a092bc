//! What puts the values of one stimulus port into an outlet, as they come.

ghost use Rattle.std.specs.Prelude.{◌≡◌, ◌+◌, ◌≤◌, ◌++◌, ◌<◌, ◌∷◌, [], length, take, Some, if◌then◌else◌};
ghost use Rattle.itm_grammar.specs.Shortest.{bytes_of};
ghost use Rattle.itm_grammar.specs.Spelling.{byte_count};
ghost use Rattle.capture_actions.specs.Names.{OUTLET_ROOM, is_of};
ghost use Rattle.capture_actions.specs.PortText.{value_of};

use itm_grammar::packet::{ItmPacket, Size};
use recovering_machines::{Receiver, seen};
use source_events::{Event, Packet, SourceKind, What};
use stp_grammar::said::Said;
use stretch_readings::Heard;
use trace_stream::{OUTLET_ROOM, Outlet};
use trace_values::SourceId;

/// The most bytes of a value.
const VALUE_ROOM: usize = 4;

/// Bytes of room that a value is given: those that are copied at once.
const COPY_ROOM: usize = 16;

/// What puts the values that software wrote to a stimulus port of a source.
#[derive(Clone, Copy, Drop)]
pub struct PortValues {
    /// The source; of none nothing is put.
    pub source: Option<SourceId>,
    /// The stimulus port, 0 to 31.
    pub port: u8,
}

/// The bytes of a number, the least first, and after them others.
#[inline(always)]
fn low_first(value: u32) -> [u8; COPY_ROOM]
    ensures { take 4 result ≡ bytes_of 4 value }
{
    let mut bytes = [0; COPY_ROOM];
    bytes[0] = (value % 256) as u8;
    bytes[1] = (value / 256 % 256) as u8;
    bytes[2] = (value / 256 / 256 % 256) as u8;
    bytes[3] = (value / 256 / 256 / 256 % 256) as u8;
    bytes
}

/// Puts a value of this size, the least byte first.
#[inline(always)]
fn put_value(outlet: &mut Outlet, size: Size, value: u32)
    requires room { length outlet.old + COPY_ROOM ≤ OUTLET_ROOM }
    ensures text { outlet.new ≡ outlet.old ++ bytes_of (byte_count size) value }
    ensures bound { length outlet.new ≤ length outlet.old + VALUE_ROOM }
{
    outlet.append_front(&low_first(value), size.byte_count() as usize);
}

impl PortValues {
    ghost use Rattle.capture_actions.specs.PortValues.{gets};

    /// Takes the next packet of this source, and puts its value if it is one of the port.
    #[inline(always)]
    fn put_packet(&self, outlet: &mut Outlet, source: Option<SourceId>, packet: &ItmPacket)
        requires room { length outlet.old + COPY_ROOM ≤ OUTLET_ROOM }
        ensures text { outlet.new ≡ outlet.old ++
            (if is_of self.now.source source then value_of self.now.port packet.now else []) }
        ensures bound { length outlet.new ≤ length outlet.old + VALUE_ROOM }
    {
        if let ItmPacket::Software { port, size, value } = packet {
            if *port == self.port && self.source == source {
                put_value(outlet, *size, *value);
            }
        }
    }

    /// Takes the next event, and puts its value if it is a packet of the port.
    #[inline(always)]
    fn put_event(&self, outlet: &mut Outlet, event: &Event<Packet>)
        requires room { length outlet.old + COPY_ROOM ≤ OUTLET_ROOM }
        ensures gets { gets (self.now, outlet.old) (event.now ∷ []) (self.now, outlet.new) }
        ensures bound { length outlet.new ≤ length outlet.old + VALUE_ROOM }
    {
        if let What::Packet(Packet::Itm(packet)) = &event.what {
            self.put_packet(outlet, event.source, packet);
        }
    }
}

/// Of all events the values of the port alone go to the outlet.
impl Receiver for PortValues {
    ghost use Rattle.capture_actions.specs.PortValues.{gets, room};
    ghost use Rattle.capture_actions.specs.PortValuesLaws.{adds_up};
    ghost use Rattle.recovering_machines.specs.Hearing.{takes_seen};
    ghost use Rattle.recovering_machines.specs.HearingLaws.{seen_adds_up};

    type To = Outlet;

    ghost gets = { λ old es new. takes_seen gets old es new };

    ghost room = { room };

    ghost adds_up = { seen_adds_up gets adds_up };

    ghost takes_on = { λ a b es source kind g t. t };

    #[inline(always)]
    fn give(&mut self, outlet: &mut Outlet, event: Event<Heard<Packet>>) {
        if let Some(event) = seen(event) {
            self.put_event(outlet, &event);
        }
    }

    #[inline(always)]
    fn events_left(&self, outlet: &Outlet) -> usize {
        (OUTLET_ROOM + VALUE_ROOM - COPY_ROOM).saturating_sub(outlet.len()) / VALUE_ROOM
    }

    /// A packet is looked at as what it says, whatever its source.
    #[inline(always)]
    fn takes_told(&self, _source: SourceId, _kind: SourceKind) -> bool {
        true
    }

    #[inline(always)]
    fn give_itm(
        &mut self,
        outlet: &mut Outlet,
        _at: u64,
        _half: u8,
        source: SourceId,
        packet: ItmPacket,
    ) {
        self.put_packet(outlet, Some(source), &packet);
    }

    #[inline(always)]
    fn give_said(
        &mut self,
        _outlet: &mut Outlet,
        _at: u64,
        _half: u8,
        _source: SourceId,
        _said: Said,
    ) {}

    #[inline(always)]
    fn give_raw(&mut self, _outlet: &mut Outlet, _at: u64, _source: SourceId, _bytes: &[u8]) {}

    #[inline(always)]
    fn give_trigger(&mut self, _outlet: &mut Outlet, _at: u64, _source: SourceId, _byte: u8) {}
}
