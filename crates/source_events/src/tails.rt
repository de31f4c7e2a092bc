//! How a capture ends: what was skipped, and what is left over.

ghost use Rattle.std.specs.Prelude.{◌≡◌, ◌<◌, ◌≤◌, ◌++◌, ◌∷◌, [], ℕ, List, length};
ghost use Rattle.source_events.specs.declared.tails.SourceTail.{SourceTail};

use crate::plan::{MAPPED_SOURCES, SourceKind};
use crate::port_mode::PortMode;
use arrayvec::ArrayVec;
use std::marker::Model;
use trace_values::SourceId;

/// The most bytes or items that a source of a capture has: more than come of any.
pub const GREATEST_COUNT: u64 = 1 << 42;

/// How a mapped source was read up to the end: its units are bytes, or for an STP source nibbles.
#[derive(Clone, Copy, Debug, PartialEq, Eq, Drop)]
pub struct SourceTail {
    pub id: SourceId,
    pub kind: SourceKind,
    pub mode: PortMode,
    /// Units before its reading: before the lock, all units so far.
    pub skipped: u64,
    /// Units of its unfinished packet: 0 before the lock.
    pub tail: u64,
}

/// The default one only fills the unused places of a buffer.
impl Default for SourceTail {
    fn default() -> SourceTail {
        SourceTail {
            id: SourceId::default(),
            kind: SourceKind::Itm,
            mode: PortMode::Aligned,
            skipped: 0,
            tail: 0,
        }
    }
}

/// The tails of all mapped sources, at most 16.
#[derive(Debug, Drop)]
pub struct SourceTails {
    tails: ArrayVec<SourceTail, MAPPED_SOURCES>,
}

impl Model for SourceTails {
    ghost Value = { List SourceTail };

    ghost view = { λ s. s.tails.items };

    ghost invariant = { λ s. length s.tails.items ≤ 16 };
}

impl SourceTails {
    /// None.
    pub fn new() -> SourceTails
        ensures { result ≡ [] }
    {
        SourceTails {
            tails: ArrayVec::new(),
        }
    }

    /// One more, of fewer than 16.
    pub fn push(&mut self, tail: SourceTail)
        requires { length self.old < MAPPED_SOURCES }
        ensures { self.new ≡ self.old ++ tail ∷ [] }
    {
        self.tails.push(tail);
    }

    /// The tails, in order.
    pub fn as_slice(&self) -> &[SourceTail]
        ensures value { result.now ≡ self.now }
        ensures few { length result.now ≤ MAPPED_SOURCES }
    {
        self.tails.as_slice()
    }
}

/// How a capture ends.
#[derive(Debug, Drop)]
pub struct Tails {
    /// How many bytes were read.
    pub bytes: u64,
    pub mode: PortMode,
    /// Bytes before the full synchronisation that is hunted: before the lock, all bytes so far.
    pub skipped: u64,
    /// Bytes after the last whole frame or synchronisation.
    pub tail: u64,
    /// Bytes of frames before the first ID takes effect.
    pub unattributed: u64,
    /// Of each mapped source, in increasing order of ID.
    pub sources: SourceTails,
}

/// How many full and half synchronisations, and how many frames, a port has.
#[derive(Clone, Copy, Debug, PartialEq, Eq, Drop)]
pub struct PortCounts {
    /// Full synchronisations, that of the lock too.
    pub fulls: u64,
    /// Half synchronisations, those inside frames and inside an unfinished frame too.
    pub halves: u64,
    pub frames: u64,
}
