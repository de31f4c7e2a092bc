//! What a header begins.

ghost use Rattle.std.specs.Prelude.{◌≡◌, true};
ghost use Rattle.itm_grammar.specs.Header.{class_of, size_of, lateness_of, class_by_high, class_of_stamp};
ghost use Rattle.itm_grammar.specs.Header.{is_proper_class};

use crate::packet::{Lateness, Size};

/// What a header begins.
#[derive(Clone, Copy, Debug, PartialEq, Eq, Drop)]
pub enum Class {
    /// A synchronisation packet.
    Zero,
    /// An overflow packet, of which nothing follows.
    Overflow,
    /// A source packet: a software packet of this port or a hardware packet of this discriminator, 0 to
    /// 31, with a payload of this size.
    Source {
        hardware: bool,
        number: u8,
        size: Size,
    },
    /// An exact local timestamp of this time, 1 to 6, of which nothing follows.
    LocalShort(u8),
    /// A local timestamp, 1 to 4 bytes of which follow.
    LocalLong(Lateness),
    /// A first global timestamp, 1 to 4 bytes of which follow.
    GlobalFirst,
    /// A second global timestamp, 4 or 6 bytes of which follow.
    GlobalSecond,
    /// An extension packet with these low bits of its value, 0 to 7. Up to 4 bytes follow where there are more.
    Extension {
        more: bool,
        dwt: bool,
        low: u8,
    },
    /// No packet.
    Reserved,
}

fn size_of(low: u8) -> Size
    ensures { result ≡ size_of low }
{
    match low {
        1 => Size::One,
        2 => Size::Two,
        _ => Size::Four,
    }
}

fn lateness_of(bits: u8) -> Lateness
    ensures { result ≡ lateness_of bits }
{
    match bits {
        0 => Lateness::Exact,
        1 => Lateness::StampLate,
        2 => Lateness::PacketLate,
        _ => Lateness::BothLate,
    }
}

/// A header with low nibble 0, by its high nibble.
fn class_by_high(high: u8) -> Class
    ensures class { result ≡ class_by_high high }
    ensures proper { is_proper_class result ≡ true }
{
    match high {
        0 => Class::Zero,
        1..=6 => Class::LocalShort(high),
        7 => Class::Overflow,
        8..=11 => Class::Reserved,
        _ => Class::LocalLong(lateness_of(high % 4)),
    }
}

/// A header with low nibble 4, by its high nibble.
fn class_of_stamp(high: u8) -> Class
    ensures class { result ≡ class_of_stamp high }
    ensures proper { is_proper_class result ≡ true }
{
    match high {
        9 => Class::GlobalFirst,
        11 => Class::GlobalSecond,
        _ => Class::Reserved,
    }
}

/// The class of a header, by the table of headers.
#[inline(always)]
pub fn classify(header: u8) -> Class
    ensures class { result ≡ class_of header }
    ensures proper { is_proper_class result ≡ true }
{
    if header % 4 > 0 {
        Class::Source {
            hardware: (header / 4) % 2 == 1,
            number: header / 8,
            size: size_of(header % 4),
        }
    } else if header % 16 == 0 {
        class_by_high(header / 16)
    } else if header % 16 == 4 {
        class_of_stamp(header / 16)
    } else {
        Class::Extension {
            more: header >= 128,
            dwt: header % 16 == 12,
            low: (header / 16) % 8,
        }
    }
}
