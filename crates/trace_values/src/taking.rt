//! What a machine finds in bytes that are there, and what it takes of them at once.

/// What bytes are to the unfinished packet, as a quick look at them says.
#[derive(Clone, Copy, Drop)]
pub enum Found<P> {
    /// They end it, as these parts say.
    Ends(P),
    /// They are all within it, and were taken.
    Waits,
    /// The look does not tell.
    Unknown,
}

/// What was taken at once.
#[derive(Clone, Copy, Drop)]
pub struct TakenAtOnce<T> {
    /// How many bytes, at least one.
    pub bytes: usize,
    /// The half of the last of them in which the packet ends, if one does: 0 for the low nibble of an STP source or for
    /// a byte of an ITM source, 1 for the high nibble.
    pub half: u8,
    /// The item that it gives, if it gives one.
    pub item: Option<T>,
}
