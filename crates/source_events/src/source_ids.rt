//! The IDs of sources.

ghost use Rattle.std.specs.Prelude.{◌≡◌, ◌<◌, ◌≤◌, ◌++◌, ◌∷◌, [], ℕ, List, length, ◌==◌};
ghost use Rattle.std.specs.List.{list_any};

use arrayvec::ArrayVec;
use std::marker::Model;
use trace_values::SourceId;

/// The most sources of one kind that a plan maps.
pub const KIND_SOURCES: usize = 8;

/// The IDs of some sources, in order, at most 8.
#[derive(Debug, Drop)]
pub struct SourceIds {
    ids: ArrayVec<SourceId, KIND_SOURCES>,
}

impl Model for SourceIds {
    ghost Value = { List ℕ };

    ghost view = { λ s. s.ids.items };

    ghost invariant = { λ s. length s.ids.items ≤ 8 };
}

impl SourceIds {
    /// None.
    pub fn new() -> SourceIds
        ensures { result ≡ [] }
    {
        SourceIds {
            ids: ArrayVec::new(),
        }
    }

    /// One more, of fewer than 8.
    pub fn push(&mut self, id: SourceId)
        requires { length self.old < KIND_SOURCES }
        ensures { self.new ≡ self.old ++ id ∷ [] }
    {
        self.ids.push(id);
    }

    /// The IDs, in order.
    pub fn as_slice(&self) -> &[SourceId]
        ensures value { result.now ≡ self.now }
        ensures few { length result.now ≤ KIND_SOURCES }
    {
        self.ids.as_slice()
    }

    /// This ID is one of them.
    pub fn contains(&self, id: SourceId) -> bool
        ensures { result ≡ list_any (λ x. x == id) self.now }
    {
        self.ids.iter().any(|other| *other == id)
    }
}
