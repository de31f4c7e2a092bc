//! The texts of STP items, by their words.

ghost use Rattle.std.specs.Prelude.{◌≡◌, ◌≤◌, ◌/◌};
ghost use Rattle.script_text.specs.Names.{bits_of};
ghost use Rattle.script_text.specs.Words.{texts};
ghost use Rattle.script_text.specs.Numbers.{hexadecimal_at as hexadecimal_in};
ghost use Rattle.script_text.specs.Items.{stp_of as stp_in};
ghost use Rattle.script_text.specs.Table.{null_stamp as null_in};

use crate::numbers::{byte_at, decimal_at, hexadecimal_at};
use crate::places::known_at;
use crate::stamps::stamp_at;
use stp_grammar::item::{Place, Stamp, StpItem};
use stp_grammar::packet::Width;

/// What the fixed words of an STP item's text tell.
#[derive(Clone, Copy, Drop)]
pub enum StpShape {
    Async,
    Version,
    MasterError,
    GlobalError,
    /// Its width, and whether it is marked.
    Datum(Width, bool),
    Flag,
    Trigger,
    Frequency,
    NullStamp,
}

/// How many digits a datum of this width has.
fn digits_of(width: Width) -> usize
    ensures value { result ≡ bits_of width / 4 }
    ensures few { result ≤ 16 }
{
    match width {
        Width::Four => 1,
        Width::Eight => 2,
        Width::Sixteen => 4,
        Width::ThirtyTwo => 8,
        Width::SixtyFour => 16,
    }
}

/// The value that the word of this number is: as many digits as a datum of this width has nibbles.
fn datum_at(width: Width, words: &[&[u8]], k: usize) -> Option<u64>
    ensures { result ≡ hexadecimal_in (bits_of width / 4) (texts words.now) k }
{
    hexadecimal_at(digits_of(width), words, k)
}

/// What was written, with its place and its timestamp.
#[tactic(auto, unfolding(crate::specs::Items::stp_of))]
fn datum_of(width: Width, marked: bool, words: &[&[u8]]) -> Option<StpItem>
    ensures { result ≡ stp_in (StpShape.Datum width marked) (texts words.now) }
{
    let master = known_at(words, 1)?;
    let channel = known_at(words, 2)?;
    let value = datum_at(width, words, 4)?;
    let stamp = stamp_at(words, 6)?;
    Some(StpItem::Datum {
        place: Place { master, channel },
        width,
        value,
        marked,
        stamp,
    })
}

/// A timestamp alone, where there is one.
fn null_stamp(stamp: Stamp) -> Option<StpItem>
    ensures { result ≡ null_in stamp }
{
    match stamp {
        Stamp::None => None,
        Stamp::Natural(_) | Stamp::Gray(_) | Stamp::Raw { .. } => Some(StpItem::NullStamp {
            stamp,
        }),
    }
}

/// The STP item of a shape and of these words, where their numbers are in their ranges, and its place and a timestamp
/// alone are known.
#[tactic(auto, unfolding(crate::specs::Items::stp_of))]
pub fn stp_of(shape: StpShape, words: &[&[u8]]) -> Option<StpItem>
    ensures { result ≡ stp_in shape (texts words.now) }
{
    match shape {
        StpShape::Async => Some(StpItem::Async),
        StpShape::Version => {
            let version = decimal_at(15, words, 1)? as u8;
            Some(StpItem::Version(version))
        }
        StpShape::MasterError => {
            let master = known_at(words, 1)?;
            let channel = known_at(words, 2)?;
            let code = byte_at(words, 3)?;
            Some(StpItem::MasterError {
                place: Place { master, channel },
                code,
            })
        }
        StpShape::GlobalError => {
            let code = byte_at(words, 1)?;
            Some(StpItem::GlobalError { code })
        }
        StpShape::Datum(width, marked) => datum_of(width, marked, words),
        StpShape::Flag => {
            let master = known_at(words, 1)?;
            let channel = known_at(words, 2)?;
            let stamp = stamp_at(words, 3)?;
            Some(StpItem::Flag {
                place: Place { master, channel },
                stamp,
            })
        }
        StpShape::Trigger => {
            let code = byte_at(words, 1)?;
            let stamp = stamp_at(words, 2)?;
            Some(StpItem::Trigger { code, stamp })
        }
        StpShape::Frequency => {
            let hertz = decimal_at(0xFFFF_FFFF, words, 1)? as u32;
            let stamp = stamp_at(words, 2)?;
            Some(StpItem::Frequency { hertz, stamp })
        }
        StpShape::NullStamp => null_stamp(stamp_at(words, 1)?),
    }
}
