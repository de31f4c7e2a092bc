//! How a funnel takes turns.

use crate::turn_order::TurnOrder;

/// How a funnel takes turns.
#[derive(Debug, Drop)]
pub struct Turns {
    /// Its sources, each once, in the order of their turns: 1 to 16, whose IDs are from 1 to 126.
    pub order: TurnOrder,
    /// The most bytes that a turn gives, 1 to 15.
    pub hold: u8,
    /// The most bytes of a queue, 1 to 4,096.
    pub depth: usize,
}
