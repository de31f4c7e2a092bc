//! Two bytes of a frame.

/// A mixed-use byte, its auxiliary bit, and the data byte after it.
///
/// The default one only fills the unused places of a buffer.
#[derive(Clone, Copy, Default, Drop)]
pub(crate) struct Pair {
    pub even: u8,
    pub aux: bool,
    pub odd: u8,
}
