//! The clocks of all sources.

ghost use Rattle.std.specs.Prelude.{◌≡◌, ◌<◌, ◌++◌, ◌∷◌, [], ℕ, List, Some, false, get_or};
ghost use Rattle.capture_actions.specs.Names.{ItmPacket, IsProper, Event, Packet, Itm, EventFits, PacketFits, Suits};
ghost use Rattle.capture_actions.specs.Names.{SuitsPacket, None as NoRemark, is_stamp};
ghost use Rattle.source_events.specs.declared.event.What.TheVariants.{Packet as Said};
ghost use Rattle.capture_actions.specs.Listing.{itm_packet, itm_packets, remark_of};
ghost use Rattle.capture_actions.specs.SourceClocks.{AllStand, without};

use crate::clocks::Clocks;
use itm_grammar::packet::ItmPacket;
use source_events::{Event, Packet, What};
use trace_text::Remark;
use trace_values::{ID_COUNT, SourceId};

/// The clocks of each source, by its ID.
#[derive(Drop)]
pub struct SourceClocks {
    clocks: [Clocks; ID_COUNT],
}

impl SourceClocks {
    /// The clocks before the first event.
    pub fn new() -> SourceClocks
        ensures { AllStand result [] }
    {
        SourceClocks {
            clocks: [Clocks::new(); ID_COUNT],
        }
    }

    /// Begins the clocks of this source anew, or those of all.
    pub fn renew(&mut self, source: Option<SourceId>)
        ensures { (es : List (Event Packet)) → AllStand self.old es → AllStand self.new (without source es) }
    {
        match source {
            None => *self = SourceClocks::new(),
            Some(id) => self.clocks[id.number() as usize] = Clocks::new(),
        }
    }

    /// Takes the next event, and answers what is beside it in its line.
    #[inline]
    pub fn remark(&mut self, event: &Event<Packet>) -> Remark
        requires fits { EventFits PacketFits event.now }
        ensures suits { Suits event.now.what result }
        ensures stand { (es : List (Event Packet)) → AllStand self.old es → AllStand self.new (es ++ event.now ∷ []) }
        ensures remark { (es : List (Event Packet)) → AllStand self.old es →
            result ≡ remark_of (itm_packets event.now.source es) event.now.what }
    {
        match (&event.what, event.source) {
            (What::Packet(Packet::Itm(packet)), Some(id)) => self.packet_remark(id, packet),
            _ => Remark::None,
        }
    }

    /// The same of the next packet of this source, whose event is not looked at.
    #[inline(always)]
    pub fn packet_remark(&mut self, id: SourceId, packet: &ItmPacket) -> Remark
        requires proper { IsProper packet.now }
        ensures suits { SuitsPacket packet.now result }
        ensures stand { (es : List (Event Packet)) (event : Event Packet) → event.source ≡ Some id →
            event.what ≡ Said (Itm packet.now) → AllStand self.old es → AllStand self.new (es ++ event ∷ []) }
        ensures remark { (es : List (Event Packet)) → AllStand self.old es →
            result ≡ remark_of (itm_packets (Some id) es) (Said (Itm packet.now)) }
    {
        self.clocks[id.number() as usize].remark(packet)
    }

    /// A packet that is no timestamp leaves the clocks as they are, and nothing is beside it.
    #[inline(always)]
    pub fn pass_other(&self, packet: &ItmPacket)
        requires other { is_stamp packet.now ≡ false }
        ensures suits { SuitsPacket packet.now NoRemark }
        ensures stand { (es : List (Event Packet)) (event : Event Packet) (id : ℕ) → event.source ≡ Some id →
            event.what ≡ Said (Itm packet.now) → AllStand self.now es → AllStand self.now (es ++ event ∷ []) }
        ensures remark { (packets : List ItmPacket) → remark_of packets (Said (Itm packet.now)) ≡ NoRemark }
    {}

    /// What is no ITM packet leaves the clocks as they are.
    #[inline(always)]
    pub fn pass(&self)
        ensures { (es : List (Event Packet)) (event : Event Packet) → itm_packet event.what ≡ [] →
            AllStand self.now es → AllStand self.now (es ++ event ∷ []) }
    {}
}
