//! The packet of an item.

ghost use Rattle.std.specs.Prelude.{◌≡◌, ◌<◌, ◌^◌};
ghost use Rattle.itm_grammar.specs.Spelling.{byte_count};
ghost use Rattle.dwt_packets.specs.Table.{name};
ghost use Rattle.dwt_packets.specs.Packet.{packet, change_bits, IsProperItem, IsInRange};

use crate::item::{Change, DwtItem};
use itm_grammar::packet::Size;

/// Bits 13 and 12 of an exception packet.
fn change_bits(change: Change) -> u32
    ensures bits { result ≡ change_bits change }
    ensures few { result < 4 }
{
    match change {
        Change::Enter => 1,
        Change::Exit => 2,
        Change::Return => 3,
    }
}

/// The packet of an item whose numbers are in their ranges.
fn packet_in_range(item: &DwtItem) -> (u8, Size, u32)
    requires { IsInRange item.now }
    ensures { result ≡ packet item.now }
{
    match *item {
        DwtItem::Counters(counters) => (0, Size::One, u32::from(counters)),
        DwtItem::Exception { number, change } => {
            let value = 0x1000 * change_bits(change) + u32::from(number);
            (1, Size::Two, value)
        }
        DwtItem::Sample { pc } => (2, Size::Four, pc),
        DwtItem::Asleep => (2, Size::One, 0),
        DwtItem::MatchPc { comparator, pc } => (8 + 2 * comparator, Size::Four, pc),
        DwtItem::MatchAddress { comparator, low } => (
            9 + 2 * comparator,
            Size::Two,
            u32::from(low),
        ),
        DwtItem::Read {
            comparator,
            size,
            value,
        } => (16 + 2 * comparator, size, value),
        DwtItem::Written {
            comparator,
            size,
            value,
        } => (17 + 2 * comparator, size, value),
        DwtItem::Other { disc, size, value } => (disc, size, value),
    }
}

/// The packet that means a proper item: its discriminator, 0 to 31, its size, and its value, which fits
/// the size. `meaning` gives the item back.
pub fn packet_of(item: &DwtItem) -> (u8, Size, u32)
    requires { IsProperItem item.now }
    ensures packet { result ≡ packet item.now }
    ensures disc { result.0 < 32 }
    ensures value { result.2 < 256 ^ byte_count result.1 }
    ensures meaning { name result.0 result.1 result.2 ≡ item.now }
{
    packet_in_range(item)
}
