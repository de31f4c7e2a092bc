//! The texts of ITM packets, by their words.

ghost use Rattle.std.specs.Prelude.{◌≡◌};
ghost use Rattle.script_text.specs.Words.{texts};
ghost use Rattle.script_text.specs.Items.{itm_of as itm_in};
ghost use Rattle.script_text.specs.Table.{first_checked as checked_by};

use crate::numbers::{decimal_at, numbers_at, value_at};
use itm_grammar::packet::{ItmPacket, Lateness, Size};
use itm_grammar::proper::is_proper;

/// What the fixed words of an ITM packet's text tell.
#[derive(Clone, Copy, Drop)]
pub enum ItmShape {
    Sync,
    Overflow,
    Software(Size),
    Local(Lateness),
    GlobalFirst,
    /// Whether it is wide.
    GlobalSecond(bool),
    /// Whether it is the DWT's.
    Extension(bool),
}

/// The packet, where its numbers are in their ranges.
fn first_checked(len: u8, value: u32, change: bool, wrap: bool) -> Option<ItmPacket>
    ensures { result ≡ checked_by len value change wrap }
{
    let packet = ItmPacket::GlobalFirst {
        len,
        value,
        change,
        wrap,
    };
    if is_proper(&packet) {
        Some(packet)
    } else {
        None
    }
}

/// A first global timestamp: its low bits fit its bytes, and only four bytes have clock change and wrap.
#[tactic(auto, unfolding(crate::specs::Items::itm_of))]
fn first_stamp(words: &[&[u8]]) -> Option<ItmPacket>
    ensures { result ≡ itm_in ItmShape.GlobalFirst (texts words.now) }
{
    let len = decimal_at(4, words, 1)? as u8;
    let value = decimal_at(0x3FF_FFFF, words, 2)? as u32;
    let change = decimal_at(1, words, 3)? == 1;
    let wrap = decimal_at(1, words, 4)? == 1;
    first_checked(len, value, change, wrap)
}

/// The ITM packet of a shape and of these words, where their numbers are in their ranges.
#[tactic(auto, unfolding(crate::specs::Items::itm_of))]
pub fn itm_of(shape: ItmShape, words: &[&[u8]]) -> Option<ItmPacket>
    ensures { result ≡ itm_in shape (texts words.now) }
{
    match shape {
        ItmShape::Sync => Some(ItmPacket::Sync),
        ItmShape::Overflow => Some(ItmPacket::Overflow),
        ItmShape::Software(size) => {
            let (port, value) = numbers_at(31, size, words, 3)?;
            Some(ItmPacket::Software { port, size, value })
        }
        ItmShape::Local(lateness) => {
            let delta = decimal_at(0xFFF_FFFF, words, 2)? as u32;
            Some(ItmPacket::Local { lateness, delta })
        }
        ItmShape::GlobalFirst => first_stamp(words),
        ItmShape::GlobalSecond(wide) => {
            let greatest = if wide { 0x3F_FFFF_FFFF } else { 0x3F_FFFF };
            let value = decimal_at(greatest, words, 2)?;
            Some(ItmPacket::GlobalSecond { wide, value })
        }
        ItmShape::Extension(dwt) => {
            let value = value_at(Size::Four, words, 2)?;
            Some(ItmPacket::Extension { dwt, value })
        }
    }
}
