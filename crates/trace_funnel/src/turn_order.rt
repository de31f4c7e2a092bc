//! The order of the sources of a funnel.

ghost use Rattle.std.specs.Prelude.{◌≡◌, ◌<◌, ◌≤◌, ◌++◌, ◌∷◌, [], ℕ, List, length};

use arrayvec::ArrayVec;
use std::marker::Model;
use trace_values::SourceId;

/// The most sources of a funnel.
pub const MOST_PLACES: usize = 16;

/// The sources of a funnel in the order of their turns, at most 16.
#[derive(Debug, Drop)]
pub struct TurnOrder {
    ids: ArrayVec<SourceId, MOST_PLACES>,
}

impl Model for TurnOrder {
    ghost Value = { List ℕ };

    ghost view = { λ o. o.ids.items };

    ghost invariant = { λ o. length o.ids.items ≤ 16 };
}

impl TurnOrder {
    /// None.
    pub fn new() -> TurnOrder
        ensures { result ≡ [] }
    {
        TurnOrder {
            ids: ArrayVec::new(),
        }
    }

    /// One more, of fewer than 16.
    pub fn push(&mut self, id: SourceId)
        requires { length self.old < MOST_PLACES }
        ensures { self.new ≡ self.old ++ id ∷ [] }
    {
        self.ids.push(id);
    }

    /// The sources, in order.
    pub fn as_slice(&self) -> &[SourceId]
        ensures value { result.now ≡ self.now }
        ensures few { length result.now ≤ MOST_PLACES }
    {
        self.ids.as_slice()
    }

    /// The sources, in order, as a funnel takes them.
    pub fn as_array(&self) -> &ArrayVec<SourceId, 16>
        ensures value { result.now.items ≡ self.now }
        ensures few { length self.now ≤ MOST_PLACES }
    {
        &self.ids
    }
}
