//! The signals of a value dump, by their numbers: their places in its header.

/// The exception that was entered or returned to.
pub const EXCEPTION: usize = 0;

/// The last sample of the program counter.
pub const PC: usize = 1;

/// Whether the processor was asleep at the last sample.
pub const ASLEEP: usize = 2;

/// What software wrote to stimulus port 0; those of the ports 1 to 31 come after it.
pub const FIRST_PORT: usize = 3;

/// The data value of comparator 0; those of the comparators 1 to 3 come after it.
pub const FIRST_COMPARATOR: usize = 35;

/// What changes at a local timestamp before which, since the one before, packets were lost.
pub const LOST: usize = 39;

/// How many signals there are.
pub const SIGNALS: usize = 40;
