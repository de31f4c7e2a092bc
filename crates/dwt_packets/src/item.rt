//! What hardware packets mean.

use itm_grammar::packet::Size;

/// What a processor does at an exception: it enters it, exits it, or returns to it.
#[derive(Clone, Copy, Debug, PartialEq, Eq, Drop)]
pub enum Change {
    Enter,
    Exit,
    Return,
}

/// What a hardware packet means. A comparator is 0 to 3.
#[derive(Clone, Copy, Debug, PartialEq, Eq, Drop)]
pub enum DwtItem {
    /// Event counters that wrapped: bits 0 to 5 are CPI, Exc, Sleep, LSU, Fold and Cyc.
    Counters(u8),
    /// An exception, 0 to 511, and what the processor did.
    Exception {
        number: u16,
        change: Change,
    },
    /// A sample of the program counter.
    Sample {
        pc: u32,
    },
    /// A sample of the program counter while the processor was asleep.
    Asleep,
    /// A comparator matched an access by the instruction at this address.
    MatchPc {
        comparator: u8,
        pc: u32,
    },
    /// A comparator matched an access of an address with these bits 15 to 0.
    MatchAddress {
        comparator: u8,
        low: u16,
    },
    /// A comparator matched a read of this value, which fits its size.
    Read {
        comparator: u8,
        size: Size,
        value: u32,
    },
    /// A comparator matched a write of this value, which fits its size.
    Written {
        comparator: u8,
        size: Size,
        value: u32,
    },
    /// Any other packet: its discriminator, 0 to 31, and its value, which fits its size.
    Other {
        disc: u8,
        size: Size,
        value: u32,
    },
}
