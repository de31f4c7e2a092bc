//! Bytes of sources.

use trace_values::SourceId;

/// A byte of a source.
///
/// The default one only fills the unused places of a buffer.
#[derive(Clone, Copy, Debug, Default, PartialEq, Eq, Drop)]
pub struct Tagged {
    /// Its source.
    pub id: SourceId,
    /// The byte itself.
    pub byte: u8,
}
