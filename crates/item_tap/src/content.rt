//! What choices see of events.

ghost use Rattle.std.specs.Prelude.{◌≡◌};
ghost use Rattle.item_tap.specs.Choices.{content_of};

use itm_grammar::packet::ItmPacket;
use source_events::{Packet, What};

/// What a choice sees of what an event tells. It is the same whether there is an event or only its parts.
#[derive(Clone, Copy, Drop)]
pub enum Content {
    /// The notice of a lock.
    Notice,
    /// A packet of an ITM source.
    Itm(ItmPacket),
    /// An item of a system trace, of which no choice asks more.
    Stp,
    /// Bytes of a source that is not mapped.
    Raw,
    /// A byte of the trigger source, 125.
    Trigger,
}

impl Content {
    /// That of what an event tells.
    #[inline(always)]
    pub fn of(what: &What<Packet>) -> Content
        ensures { result ≡ content_of what.now }
    {
        match what {
            What::Locked(_) => Content::Notice,
            What::Packet(Packet::Itm(packet)) => Content::Itm(*packet),
            What::Packet(Packet::Stp(_)) => Content::Stp,
            What::Raw(_) => Content::Raw,
            What::Trigger(_) => Content::Trigger,
        }
    }
}
