//! Lists of IDs.

ghost use Rattle.std.specs.Prelude.{◌≡◌, ◌++◌, []};
ghost use Rattle.std.proofs.Common.{rules};
ghost use Rattle.decimal_words.specs.Numbers.{number_named};
ghost use Rattle.capture_words.specs.Jobs.{again_after};

use crate::list::Listed;
use arrayvec::ArrayVec;
use decimal_words::id_named;
use source_events::{KIND_SOURCES, MAPPED_SOURCES, SourceIds};
use trace_funnel::{MOST_PLACES, TurnOrder};
use trace_values::SourceId;

impl Listed for SourceIds {
    type Item = SourceId;

    ghost named = { number_named 1 111 };

    ghost items = { λ ids. ids };

    ghost MOST = { 8 };

    const MOST: usize = KIND_SOURCES;

    ghost has_room = { Prim.search rules };

    fn item_named(text: &str) -> Option<SourceId> {
        id_named(1, 111, text)
    }

    fn of(id: SourceId) -> SourceIds {
        let mut ids = SourceIds::new();
        ids.push(id);
        ids
    }

    fn count(&self) -> usize {
        self.as_slice().len()
    }

    fn add(&mut self, id: SourceId) {
        self.push(id);
    }
}

impl Listed for TurnOrder {
    type Item = SourceId;

    ghost named = { number_named 1 126 };

    ghost items = { λ order. order };

    ghost MOST = { 16 };

    const MOST: usize = MOST_PLACES;

    ghost has_room = { Prim.search rules };

    fn item_named(text: &str) -> Option<SourceId> {
        id_named(1, 126, text)
    }

    fn of(id: SourceId) -> TurnOrder {
        let mut order = TurnOrder::new();
        order.push(id);
        order
    }

    fn count(&self) -> usize {
        self.as_slice().len()
    }

    fn add(&mut self, id: SourceId) {
        self.push(id);
    }
}

/// The first of these IDs that stands earlier already.
pub fn first_again(ids: &[SourceId]) -> Option<SourceId>
    ensures { result ≡ again_after [] ids.now }
{
    for place in 0..ids.len() {
        let id = ids[place];
        if ids[..place].contains(&id) {
            return Some(id);
        }
    }
    None
}

/// The first of all these IDs that stands earlier already.
pub fn mapped_twice(itm: &SourceIds, stp: &SourceIds) -> Option<SourceId>
    ensures { result ≡ again_after [] (itm.now ++ stp.now) }
{
    let mut ids: ArrayVec<SourceId, MAPPED_SOURCES> = ArrayVec::new();
    let _ = ids.try_extend_from_slice(itm.as_slice());
    let _ = ids.try_extend_from_slice(stp.as_slice());
    first_again(ids.as_slice())
}
