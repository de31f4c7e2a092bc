//! Which items are those of packets.

ghost use Rattle.std.specs.Prelude.{◌≡◌, ◌↔◌, ◌<◌, ◌^◌, IsTrue};
ghost use Rattle.itm_grammar.specs.Spelling.{byte_count};
ghost use Rattle.dwt_packets.specs.Table.{NoRowFits};
ghost use Rattle.dwt_packets.specs.Packet.{IsProperItem, IsInRange, IsPacket};

use crate::item::DwtItem;
use crate::naming::meaning;
use itm_grammar::packet::{ItmPacket, Size};
use itm_grammar::proper::is_proper;

/// Whether a hardware packet may have this discriminator and this value.
fn is_packet(disc: u8, size: Size, value: u32) -> bool
    ensures { IsTrue result ↔ IsPacket disc size value }
{
    is_proper(&ItmPacket::Hardware { disc, size, value })
}

/// Whether no row of the table fits this packet.
fn is_unnamed(disc: u8, size: Size, value: u32) -> bool
    requires { IsPacket disc size value }
    ensures { IsTrue result ↔ NoRowFits disc size value }
{
    matches!(meaning(disc, size, value), DwtItem::Other { .. })
}

/// Whether the item's numbers are in their ranges, and another item's packet has no row in the table.
fn is_in_range(item: &DwtItem) -> bool
    ensures { IsTrue result ↔ IsInRange item.now }
{
    match *item {
        DwtItem::Counters(counters) => counters < 0x40,
        DwtItem::Exception { number, .. } => number < 0x200,
        DwtItem::Sample { pc } => is_packet(2, Size::Four, pc),
        DwtItem::Asleep => true,
        DwtItem::MatchPc { comparator, pc } => comparator < 4 && is_packet(8, Size::Four, pc),
        DwtItem::MatchAddress { comparator, low } => comparator < 4
            && is_packet(9, Size::Two, u32::from(low)),
        DwtItem::Read {
            comparator,
            size,
            value,
        } => comparator < 4 && is_packet(16, size, value),
        DwtItem::Written {
            comparator,
            size,
            value,
        } => comparator < 4 && is_packet(17, size, value),
        DwtItem::Other { disc, size, value } => is_packet(disc, size, value)
            && is_unnamed(disc, size, value),
    }
}

/// Whether the item is what some hardware packet means.
pub fn is_proper_item(item: &DwtItem) -> bool
    ensures meaning { IsTrue result ↔ IsProperItem item.now }
    ensures ranges { IsTrue result ↔ IsInRange item.now }
{
    is_in_range(item)
}
