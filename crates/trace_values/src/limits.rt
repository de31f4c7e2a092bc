//! How far counts go.

/// The room of counters: up to this number a count of bytes, units or items may be before a call that adds to it, so
/// that no sum of some of them runs over 64 bits. A capture of a byte each nanosecond would need 36 years to come
/// there.
pub const COUNT_ROOM: u64 = 1 << 60;

/// What an offset, a length or a count may be at most where two of them are added: the sum is at most `COUNT_ROOM`.
pub const PART_ROOM: u64 = COUNT_ROOM / 2;

/// How many nibbles the bytes of `COUNT_ROOM` have.
pub const NIBBLE_ROOM: u64 = 2 * COUNT_ROOM;

/// How many IDs of sources there are, 0 to 126.
pub const ID_COUNT: usize = 127;
