//! Which packets have numbers in their ranges.

ghost use Rattle.std.specs.Prelude.{◌≡◌, ◌↔◌, IsTrue, ◌<◌, ◌≤◌, ◌^◌};
ghost use Rattle.itm_grammar.specs.Spelling.{byte_count};
ghost use Rattle.itm_grammar.specs.Proper.{IsProper, first_bits, second_bits};

use crate::packet::{ItmPacket, Size};

/// Whether a value fits this many bytes.
fn fits(size: Size, value: u32) -> bool
    ensures { IsTrue result ↔ (value < 256 ^ byte_count size) }
{
    match size {
        Size::One => value < 0x100,
        Size::Two => value < 0x1_0000,
        Size::Four => true,
    }
}

/// Whether the low bits of the time fit this many payload bytes, 1 to 4.
fn first_fits(len: u8, value: u32) -> bool
    requires { len ≤ 4 }
    ensures { IsTrue result ↔ (value < 2 ^ first_bits len) }
{
    match len {
        0 => value < 1,
        1 => value < 0x80,
        2 => value < 0x4000,
        3 => value < 0x20_0000,
        _ => value < 0x400_0000,
    }
}

/// Whether the high bits of the time fit their payload bytes.
fn second_fits(wide: bool, value: u64) -> bool
    ensures { IsTrue result ↔ (value < 2 ^ second_bits wide) }
{
    if wide {
        value < 0x40_0000_0000
    } else {
        value < 0x40_0000
    }
}

/// Whether the packet's numbers are in their ranges, so that it has a spelling: a port or discriminator
/// from 0 to 31, a value that fits its bytes, and clock change and wrap only where a first global
/// timestamp has four.
pub fn is_proper(packet: &ItmPacket) -> bool
    ensures { IsTrue result ↔ IsProper packet.now }
{
    match *packet {
        ItmPacket::Sync => true,
        ItmPacket::Overflow => true,
        ItmPacket::Software { port, size, value } => port < 32 && fits(size, value),
        ItmPacket::Hardware { disc, size, value } => disc < 32 && fits(size, value),
        ItmPacket::Local { delta, .. } => delta < 0x1000_0000,
        ItmPacket::GlobalFirst {
            len,
            value,
            change,
            wrap,
        } => is_proper_first(len, value, change, wrap),
        ItmPacket::GlobalSecond { wide, value } => second_fits(wide, value),
        ItmPacket::Extension { value, .. } => fits(Size::Four, value),
    }
}

fn is_proper_first(len: u8, value: u32, change: bool, wrap: bool) -> bool
    ensures { IsTrue result ↔ IsProper (ItmPacket.GlobalFirst len value change wrap) }
{
    0 < len && len <= 4 && first_fits(len, value) && (len == 4 || !change && !wrap)
}
