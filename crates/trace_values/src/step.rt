//! What a machine answers to a byte.

use crate::fault::Fault;

/// What a machine answers to a byte.
///
/// The half says in which nibble of the byte an item ended: 0 for the low one, 1 for the high one,
/// and 0 where the units are bytes.
#[derive(Clone, Copy, Debug, PartialEq, Eq, Drop)]
pub enum Step<T> {
    /// It is reading, and neither an item nor a fault is in this byte.
    Quiet,
    /// It hunts, and its pattern has not ended yet.
    Skipping,
    /// An item ended in this byte.
    Item { half: u8, item: T },
    /// The pattern that it hunted ended in this byte, and is its first item. This many units are before it.
    Locked { skipped: u64, half: u8, item: T },
    /// The first fault of the grammar is in this byte.
    Fault(Fault),
}
