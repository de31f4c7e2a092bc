//! How long a capture may be.

/// Bytes of a capture that one run takes at most. With them the sum of all local timestamps fits 64 bits.
pub const GREATEST_CAPTURE: u64 = 1 << 36;
