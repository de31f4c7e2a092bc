//! The items, by their number.

ghost use Rattle.std.specs.Prelude.{◌≡◌, ◌<◌, ◌^◌, ◌%◌};
ghost use Rattle.trace_vectors.specs.Items.{itm_packet, stp_item, byte_item, item_of, IsProperMade};

use itm_grammar::packet::{ItmPacket, Lateness, Size};
use stp_grammar::item::{Place, Stamp, StpItem};
use stp_grammar::packet::Width;

/// An item, by what sends it.
#[derive(Clone, Copy, Debug, PartialEq, Eq, Drop)]
pub enum Made {
    /// A packet of the ITM source, 1.
    Itm(ItmPacket),
    /// An item of the STP source, 2.
    Stp(StpItem),
    /// A byte of source 16, which is not mapped.
    Raw(u8),
    /// A byte of the trigger source, 125.
    Trigger(u8),
}

/// The ITM packet of this number.
fn itm_packet_at(n: u32) -> ItmPacket
    ensures { result ≡ itm_packet n }
{
    if n % 16 == 0 {
        ItmPacket::Sync
    } else if n % 2 == 1 {
        ItmPacket::Software {
            port: (n % 32) as u8,
            size: Size::Four,
            value: n,
        }
    } else {
        ItmPacket::Local {
            lateness: Lateness::Exact,
            delta: n % 1000 + 1,
        }
    }
}

/// The STP item of this number.
fn stp_item_at(n: u32) -> StpItem
    ensures { result ≡ stp_item n }
{
    match n % 16 {
        0 => StpItem::Async,
        1 => StpItem::Version(3),
        _ => StpItem::Datum {
            place: Place {
                master: Some((n % 4) as u16),
                channel: Some((n % 8) as u16),
            },
            width: Width::Sixteen,
            value: u64::from(n % 65536),
            marked: false,
            stamp: Stamp::Natural(u64::from(n)),
        },
    }
}

/// The byte of this number.
fn byte_item_at(n: u32) -> Made
    ensures { result ≡ byte_item n }
{
    let byte = (n % 256) as u8;
    if n % 16 == 15 {
        Made::Trigger(byte)
    } else {
        Made::Raw(byte)
    }
}

/// The item of this number, from 0 on: an ITM packet, an STP item and a byte in turn. All its numbers are in their
/// ranges, and an STP item can be written after those before it.
#[tactic(auto, unfolding(crate::specs::Items::item_of))]
pub fn item_at(k: u32) -> Made
    ensures value { result ≡ item_of k }
    ensures proper { IsProperMade result }
{
    let n = k / 3;
    match k % 3 {
        0 => Made::Itm(itm_packet_at(n)),
        1 => Made::Stp(stp_item_at(n)),
        _ => byte_item_at(n),
    }
}
