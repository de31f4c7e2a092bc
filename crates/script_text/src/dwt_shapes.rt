//! The texts of hardware packets, by their words.

ghost use Rattle.std.specs.Prelude.{◌≡◌};
ghost use Rattle.script_text.specs.Words.{texts};
ghost use Rattle.script_text.specs.Items.{dwt_of as dwt_in};
ghost use Rattle.script_text.specs.Table.{counters_within, unnamed as unnamed_in};

use crate::numbers::{byte_at, decimal_at, numbers_at, value_at};
use dwt_packets::{Change, DwtItem, meaning};
use itm_grammar::packet::Size;

/// What the fixed words of a hardware packet's text tell.
#[derive(Clone, Copy, Drop)]
pub enum DwtShape {
    Counters,
    Exception(Change),
    Sample,
    Asleep,
    MatchPc,
    MatchAddress,
    Read(Size),
    Written(Size),
    Other(Size),
}

/// The item, where it is a hardware packet without a name.
fn unnamed(item: DwtItem) -> Option<DwtItem>
    ensures { result ≡ unnamed_in item }
{
    match item {
        DwtItem::Other { .. } => Some(item),
        DwtItem::Counters(_)
        | DwtItem::Exception { .. }
        | DwtItem::Sample { .. }
        | DwtItem::Asleep
        | DwtItem::MatchPc { .. }
        | DwtItem::MatchAddress { .. }
        | DwtItem::Read { .. }
        | DwtItem::Written { .. } => None,
    }
}

/// Event counters, which are six bits.
fn counters_within(bits: u8) -> Option<DwtItem>
    ensures { result ≡ counters_within bits }
{
    if bits <= 0x3F {
        Some(DwtItem::Counters(bits))
    } else {
        None
    }
}

/// The hardware packet of a shape and of these words, where their numbers are in their ranges, and `hw` is used only
/// for a packet that has no name.
#[tactic(auto, unfolding(crate::specs::Items::dwt_of))]
pub fn dwt_of(shape: DwtShape, words: &[&[u8]]) -> Option<DwtItem>
    ensures { result ≡ dwt_in shape (texts words.now) }
{
    match shape {
        DwtShape::Counters => counters_within(byte_at(words, 1)?),
        DwtShape::Exception(change) => {
            let number = decimal_at(511, words, 1)? as u16;
            Some(DwtItem::Exception { number, change })
        }
        DwtShape::Sample => {
            let pc = value_at(Size::Four, words, 1)?;
            Some(DwtItem::Sample { pc })
        }
        DwtShape::Asleep => Some(DwtItem::Asleep),
        DwtShape::MatchPc => {
            let (comparator, pc) = numbers_at(3, Size::Four, words, 3)?;
            Some(DwtItem::MatchPc { comparator, pc })
        }
        DwtShape::MatchAddress => {
            let (comparator, low) = numbers_at(3, Size::Two, words, 3)?;
            let low = low as u16;
            Some(DwtItem::MatchAddress { comparator, low })
        }
        DwtShape::Read(size) => {
            let (comparator, value) = numbers_at(3, size, words, 4)?;
            Some(DwtItem::Read {
                comparator,
                size,
                value,
            })
        }
        DwtShape::Written(size) => {
            let (comparator, value) = numbers_at(3, size, words, 4)?;
            Some(DwtItem::Written {
                comparator,
                size,
                value,
            })
        }
        DwtShape::Other(size) => {
            let (disc, value) = numbers_at(31, size, words, 3)?;
            unnamed(meaning(disc, size, value))
        }
    }
}
