//! Which packets and items have numbers in their ranges.

ghost use Rattle.std.specs.Prelude.{◌≡◌, ◌↔◌, IsTrue, ◌<◌, ◌^◌};
ghost use Rattle.stp_grammar.specs.Opcodes.{line_of};
ghost use Rattle.stp_grammar.specs.Proper.{IsProper, IsProperItem, IsProperStamp, bits_of};

use crate::item::{Stamp, StpItem};
use crate::packet::{Row, StpPacket, Width};
use trace_clock::word_fits;

/// Whether a payload has at most the nibbles of its row's.
fn payload_fits(row: Row, payload: u64) -> bool
    ensures { IsTrue result ↔ (payload < 16 ^ (line_of row).payload) }
{
    let count = row.payload_nibbles();
    count == 16 || payload >> (4 * count) == 0
}

/// Whether the packet's payload fits its row, and its timestamp's word the size, which is at most 14.
pub fn is_proper(packet: &StpPacket) -> bool
    ensures { IsTrue result ↔ IsProper packet.now }
{
    match *packet {
        StpPacket::Async => true,
        StpPacket::Plain { row, payload } => payload_fits(row, payload),
        StpPacket::Stamped {
            row,
            payload,
            size,
            word,
        } => payload_fits(row, payload) && word_fits(size, word),
    }
}

/// Whether a value fits a datum of this width.
fn value_fits(width: Width, value: u64) -> bool
    ensures { IsTrue result ↔ (value < 2 ^ bits_of width) }
{
    match width {
        Width::Four => value < 0x10,
        Width::Eight => value < 0x100,
        Width::Sixteen => value < 0x1_0000,
        Width::ThirtyTwo => value < 0x1_0000_0000,
        Width::SixtyFour => true,
    }
}

fn is_proper_stamp(stamp: Stamp) -> bool
    ensures { IsTrue result ↔ IsProperStamp stamp }
{
    match stamp {
        Stamp::None | Stamp::Natural(_) | Stamp::Gray(_) => true,
        Stamp::Raw { size, word } => word_fits(size, word),
    }
}

/// Whether the item's numbers are in their ranges, so that packets can say it: a version of at most 15, a value that
/// fits its width, and a raw timestamp's size of at most 14 and word that fits it. The types see to all others.
pub fn is_proper_stp(item: &StpItem) -> bool
    ensures { IsTrue result ↔ IsProperItem item.now }
{
    let item = *item;
    match item {
        StpItem::Async => true,
        StpItem::Version(version) => version < 16,
        StpItem::MasterError {
            place: _place,
            code: _code,
        } => true,
        StpItem::GlobalError { code: _code } => true,
        StpItem::Datum {
            width,
            value,
            stamp,
            ..
        } => value_fits(width, value) && is_proper_stamp(stamp),
        StpItem::Flag { stamp, .. } => is_proper_stamp(stamp),
        StpItem::Trigger { stamp, .. } => is_proper_stamp(stamp),
        StpItem::Frequency { stamp, .. } => is_proper_stamp(stamp),
        StpItem::NullStamp { stamp } => is_proper_stamp(stamp),
    }
}
