//! What is counted of one source.

/// How much one source sent.
#[derive(Clone, Copy, Debug, PartialEq, Eq, Drop)]
pub struct Counts {
    /// Its data bytes.
    pub bytes: u64,
    /// Its items: none of the null source; of the trigger source one for each byte; of any other source
    /// one for each run of a frame in which it has a byte.
    pub items: u64,
}
