//! The items of lines.

use crate::raw_bytes::RawBytes;
use dwt_packets::DwtItem;
use itm_grammar::packet::ItmPacket;
use stp_grammar::item::StpItem;

/// An item, as a line says it.
#[derive(Debug, Drop)]
pub enum Item {
    /// A packet of an instrumentation trace macrocell, other than a hardware source packet.
    Itm(ItmPacket),
    /// A hardware source packet of such a macrocell, by what it means.
    Dwt(DwtItem),
    /// An item of a system trace macrocell.
    Stp(StpItem),
    /// Bytes of a source that is not mapped.
    Raw(RawBytes),
}
