//! The packets of mapped sources.

use itm_grammar::packet::ItmPacket;
use stp_grammar::item::StpItem;

/// What a mapped source gives.
#[derive(Clone, Copy, Debug, PartialEq, Eq, Drop)]
pub enum Packet {
    /// A packet of an instrumentation trace macrocell.
    Itm(ItmPacket),
    /// An item of a system trace macrocell.
    Stp(StpItem),
}
