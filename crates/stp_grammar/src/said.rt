//! What a packet says, in one form for all rows of the table of opcodes.

ghost use Rattle.std.specs.Prelude.{◌≡◌, ◌<◌, ◌/◌, ◌%◌, ◌^◌, ◌==◌};
ghost use Rattle.std.specs.Option.{ForSome, is_some};
ghost use Rattle.stp_grammar.specs.Opcodes.{row_at};
ghost use Rattle.stp_grammar.specs.Proper.{IsProperItem};
ghost use Rattle.stp_grammar.specs.Said.{said_item, tells, IsProperSaid};

use crate::attribution::item_with;
use crate::item::{Place, Stamp, StpItem};
use crate::opcode::row_at;

/// In the place of a row's number: that of ASYNC, which has no row.
pub const ASYNC: u8 = 35;

/// What a packet says, with what the packets before it make of it. An item is made of it only where one is asked for:
/// this has the same parts for all of them.
#[derive(Clone, Copy, Drop)]
pub struct Said {
    /// The number of its row in the table of opcodes, 0 to 34, or `ASYNC`.
    pub number: u8,
    /// The master and the channel in force with it.
    pub place: Place,
    /// The number that its payload makes, 0 where it has none.
    pub payload: u64,
    /// Its timestamp.
    pub stamp: Stamp,
}

/// The rows whose packets have no item, a bit for each number: NULL, M8, C8, M16 and C16.
const SILENT: u64 = 0b10_1000_0000_0000_1011;

/// The rows whose packets tell what is kept, and no time: M8, C8, M16, C16 and VERSION.
const TELLING: u64 = 0b10_0000_0000_0010_1000_0000_0000_1010;

/// The bit of this number.
#[inline(always)]
fn bit_of(bits: u64, number: u8) -> bool
    requires { number < 64 }
    ensures { result ≡ (bits / 2 ^ number % 2 == 1) }
{
    (bits >> number) % 2 == 1
}

/// The packets of the row of this number tell a master, a channel or a version. ASYNC does not.
#[inline(always)]
pub(crate) fn tells_at(number: u8) -> bool
    requires { number < 36 }
    ensures { result ≡ tells (row_at number) }
{
    bit_of(TELLING, number)
}

impl Said {
    /// It has an item.
    #[inline(always)]
    pub fn has_item(&self) -> bool
        requires { self.now.number < 36 }
        ensures { result ≡ is_some (said_item self.now) }
    {
        !bit_of(SILENT, self.number)
    }

    /// Its item, if it has one.
    #[tactic(auto, unfolding(crate::specs::Said::said_item))]
    #[inline]
    pub fn item(&self) -> Option<StpItem>
        requires { IsProperSaid self.now }
        ensures item { result ≡ said_item self.now }
        ensures fits { ForSome result (λ item. IsProperItem item) }
    {
        if self.number == ASYNC {
            Some(StpItem::Async)
        } else {
            item_with(self.place, self.stamp, row_at(self.number), self.payload)
        }
    }
}
