//! Nibbles, and the numbers that they make.

ghost use Rattle.std.specs.Prelude.{◌≡◌, ◌<◌, ◌+◌, ◌/◌, ◌%◌, ◌^◌};
ghost use Rattle.stp_grammar.specs.Rule.{number_with};

use crate::packet::Order;

/// The nibbles of a byte: the low one, which comes first in the trace, and the high one.
#[inline]
pub fn nibbles(byte: u8) -> (u8, u8)
    ensures low { result.0 ≡ byte % 16 }
    ensures high { result.1 ≡ byte / 16 }
{
    (byte % 16, byte / 16)
}

/// The number that `count` nibbles make with one more, where they made `value` without it.
#[inline]
pub fn number_with(order: Order, count: u8, value: u64, nibble: u8) -> u64
    requires few { count < 16 }
    requires fits { value < 16 ^ count }
    requires nibble { nibble < 16 }
    ensures value { result ≡ number_with order count value nibble }
    ensures fits { result < 16 ^ (count + 1) }
{
    match order {
        Order::Msn => 16 * value + u64::from(nibble),
        Order::Lsn => value + (u64::from(nibble) << (4 * count)),
    }
}
