//! The comparator of which a hardware packet tells.

ghost use Rattle.std.specs.Prelude.{◌≡◌, ℕ};
ghost use Rattle.dwt_packets.specs.Table.{name};
ghost use Rattle.item_tap.specs.Choices.{comparator_of};

use itm_grammar::packet::Size;

/// The comparator, 0 to 3, whose match hardware packets of this discriminator and size tell, whatever their value.
/// Without one they are no data trace packets.
#[inline(always)]
#[tactic(auto, using(std::proofs::lemmas::Bool::Decides::nat_tests), unfolding(dwt_packets::specs::Table::name))]
pub fn comparator_of(disc: u8, size: Size) -> Option<u8>
    ensures { (value : ℕ) → result ≡ comparator_of (name disc size value) }
{
    // Of the discriminators 8 to 23 bits 2 and 1 say of which comparator.
    let comparator = (disc / 2) % 4;
    match (disc, size) {
        (8 | 10 | 12 | 14, Size::Four) => Some(comparator),
        (9 | 11 | 13 | 15, Size::Two) => Some(comparator),
        (16 | 17 | 18 | 19 | 20 | 21 | 22 | 23, _) => Some(comparator),
        _ => None,
    }
}
