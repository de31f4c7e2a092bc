//! The items as lines of a script.

ghost use Rattle.std.specs.Prelude.{◌≡◌, ◌≤◌, ◌∷◌, []};
ghost use Rattle.capture_exercise.specs.Names.{Of, One, in_order, CanBePut2, IsProperMade};
ghost use Rattle.capture_exercise.specs.Exercise.{line_of_made, line_at};

use script_text::{Item, Line, Line2, RawBytes};
use trace_values::SourceId;
use trace_vectors::{Made, item_at};

/// The item of the source of this number.
fn of_source(number: u8, item: Item) -> Line2
    requires source { number ≤ 126 }
    ensures { result ≡ One (Of number item) }
{
    Line2::One(match SourceId::new(number) {
        Some(id) => Line::Of { id, item },
        None => Line::Nothing,
    })
}

/// An item as a line of its source: 1 for ITM packets, 2 for STP items, and 16 for bytes but for those of triggers.
fn line_of(made: Made) -> Line2
    requires proper { IsProperMade made }
    ensures { result ≡ line_of_made made }
{
    match made {
        Made::Itm(packet) => of_source(1, Item::Itm(packet)),
        Made::Stp(item) => of_source(2, Item::Stp(item)),
        Made::Raw(byte) => of_source(16, Item::Raw(RawBytes::of_byte(byte))),
        Made::Trigger(byte) => Line2::Trigger(byte),
    }
}

/// The line of the item of this number.
pub(crate) fn line_at(k: u32) -> Line2
    ensures value { result ≡ line_at k }
    ensures said { CanBePut2 (in_order (2 ∷ [])) result }
{
    line_of(item_at(k))
}
