//! What a hardware packet means.

ghost use Rattle.std.specs.Prelude.{◌≡◌, ◌<◌, ◌^◌};
ghost use Rattle.itm_grammar.specs.declared.packet.Size.TheVariants.{Two};
ghost use Rattle.itm_grammar.specs.Spelling.{byte_count};
ghost use Rattle.dwt_packets.specs.Table.{name};

use crate::item::{Change, DwtItem};
use itm_grammar::packet::Size;

/// The packet of discriminator 1 with these two bytes. Bits 15, 14 and 11 to 9 of an exception packet are 0,
/// bits 13 and 12 say what the processor did, and bits 8 to 0 at which exception.
#[tactic(auto, using(std::proofs::lemmas::Bool::Decides::nat_tests), unfolding(crate::specs::Table::name))]
fn exception(value: u32) -> DwtItem
    requires { value < 2 ^ 16 }
    ensures { result ≡ name 1 Two value }
{
    let change = match value / 0x200 {
        0b00_01_000 => Change::Enter,
        0b00_10_000 => Change::Exit,
        0b00_11_000 => Change::Return,
        _ => {
            return DwtItem::Other {
                disc: 1,
                size: Size::Two,
                value,
            };
        }
    };
    DwtItem::Exception {
        number: (value % 0x200) as u16,
        change,
    }
}

/// What the packet of this discriminator, 0 to 31, with this value means, by the table of hardware source
/// packets. A packet that has no row there is `DwtItem::Other`, which is no fault.
#[inline]
#[tactic(auto, using(std::proofs::lemmas::Bool::Decides::nat_tests), unfolding(crate::specs::Table::name))]
pub fn meaning(disc: u8, size: Size, value: u32) -> DwtItem
    requires disc { disc < 32 }
    requires value { value < 256 ^ byte_count size }
    ensures { result ≡ name disc size value }
{
    // Of the discriminators 8 to 23, which are of comparators, bits 2 and 1 say of which.
    let comparator = (disc / 2) % 4;
    match (disc, size) {
        (0, Size::One) if value < 0x40 => DwtItem::Counters(value as u8),
        (1, Size::Two) => exception(value),
        (2, Size::Four) => DwtItem::Sample { pc: value },
        (2, Size::One) if value == 0 => DwtItem::Asleep,
        (8 | 10 | 12 | 14, Size::Four) => DwtItem::MatchPc {
            comparator,
            pc: value,
        },
        (9 | 11 | 13 | 15, Size::Two) => DwtItem::MatchAddress {
            comparator,
            low: value as u16,
        },
        (16 | 18 | 20 | 22, _) => DwtItem::Read {
            comparator,
            size,
            value,
        },
        (17 | 19 | 21 | 23, _) => DwtItem::Written {
            comparator,
            size,
            value,
        },
        _ => DwtItem::Other { disc, size, value },
    }
}
