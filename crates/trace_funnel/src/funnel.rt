//! A funnel.

ghost use Rattle.std.specs.Prelude.{◌≡◌, ◌==◌, ◌≤◌, ◌<◌, ◌+◌, ◌-◌, ◌*◌, ◌++◌, ◌↔◌, [], length, true, false};
ghost use Rattle.std.specs.Prelude.{IsTrue, IfOk, position};
ghost use Rattle.arrayvec.specs.ArrayVec.{array_vec_len};
ghost use Rattle.trace_funnel.specs.Turns.{is_full, put, load};
ghost use Rattle.trace_funnel.specs.Order.{are_apart};
ghost use Rattle.trace_funnel.specs.State.{fresh, with_places, turn_by, offer_by, HasPlace, id_at, queue_at, waited_at};

use crate::queue::{MOST_HELD, Queue, count_in, first_busy, put_in, queues_of, turn, waited_in};
use crate::tagged::Tagged;
use arrayvec::ArrayVec;
use std::alloc::{AllocError, Global};
use std::marker::Model;
use trace_values::SourceId;

/// A funnel of several sources, each of which has a place in its order.
///
/// What it stands for is each place's queue of bytes that were offered and not given yet, how long each place waits,
/// and the place whose turn is next.
#[derive(Drop)]
pub struct Funnel {
    // The source of each place.
    order: Vec<SourceId>,
    // One for each place, from the one on whose turn is next, going round.
    queues: Vec<Queue>,
    // The most bytes that a turn gives.
    hold: usize,
    // The most bytes of a queue.
    depth: usize,
}

impl Model for Funnel {
    ghost use Rattle.trace_funnel.specs.State.{State};

    ghost Value = { State };

    ghost use Rattle.trace_funnel.specs.Inside.{state_of, IsWhole};

    ghost view = { state_of };

    ghost invariant = { IsWhole };
}

impl Funnel {
    /// A funnel in which nothing is. It has a place for each source of the order, whose IDs are from 1 to 126 and none
    /// twice. A turn gives at most `hold` bytes, 1 to 15, and a queue has at most `depth`, 1 to 4,096. It takes all its
    /// memory here, and fails only for want of it.
    pub fn new(
        alloc: Global,
        order: &ArrayVec<SourceId, 16>,
        hold: u8,
        depth: usize,
    ) -> Result<Funnel, AllocError>
        requires some { 0 < array_vec_len order.now }
        requires apart { are_apart order.now.items ≡ true }
        requires hold { (1 ≤ hold) × (hold ≤ 15) }
        requires depth { (1 ≤ depth) × (depth ≤ 4096) }
        ensures { IfOk result (λ f. f ≡ fresh order.now.items hold depth) }
    {
        let queues = queues_of(alloc, order.as_slice(), depth)?;
        let order = Vec::from_slice(alloc, order.as_slice())?;
        Ok(Funnel {
            order,
            queues,
            hold: hold as usize,
            depth,
        })
    }

    /// The place of this source, if it has one.
    pub fn place(&self, id: SourceId) -> Option<usize>
        ensures { result ≡ position (λ x. x == id) self.now.order }
    {
        self.order.iter().position(|source| *source == id)
    }

    /// Offers a byte of the source that has this place. Where its queue is full, turns come first until it isn't: at
    /// most as many as there are places. `out` has what they gave.
    pub fn offer(&mut self, place: usize, byte: u8, out: &mut ArrayVec<Tagged, 240>)
        requires place { place < length self.old.order }
        requires empty { out.old.items ≡ [] }
        ensures given { out.new.items ≡ (offer_by self.old place byte).out }
        ensures places { self.new ≡ with_places self.old (offer_by self.old place byte).places }
        ensures count { length out.new.items + load self.new.places ≡ load self.old.places + 1 }
        ensures few { load self.new.places ≤ length self.new.order * self.new.depth }
    {
        while self.is_full(place) {
            self.give(out);
        }
        self.put(place, byte);
    }

    /// Makes a turn: the next place that has bytes, going round, gives its first ones. `out` has what it gave, and
    /// nothing where no place has bytes.
    pub fn turn(&mut self, out: &mut ArrayVec<Tagged, 15>)
        requires { out.old.items ≡ [] }
        ensures given { out.new.items ≡ (turn_by self.old).out }
        ensures places { self.new ≡ with_places self.old (turn_by self.old).places }
        ensures count { length out.new.items + load self.new.places ≡ load self.old.places }
    {
        self.give(out);
    }

    /// Whether no place has bytes.
    pub fn is_empty(&self) -> bool
        ensures { IsTrue result ↔ (load self.now.places ≡ 0) }
    {
        first_busy(self.queues.as_slice()).is_none()
    }

    /// How many bytes other places gave since this one's last turn, or since its queue has bytes, whichever was later:
    /// 0 where its queue has none.
    pub fn waited(&self, place: usize) -> u64
        requires { place < length self.now.order }
        ensures number { result ≡ waited_at self.now place }
        ensures bound { result ≤ (length self.now.order - 1) * self.now.hold }
        ensures idle { queue_at self.now place ≡ [] → result ≡ 0 }
    {
        waited_in(self.queues.as_slice(), self.order[place])
    }

    // Whether the queue of this place has as many bytes as it may have.
    fn is_full(&self, place: usize) -> bool
        requires { place < length self.now.order }
        ensures full { result ≡ is_full self.now.depth (id_at self.now place) self.now.places }
        ensures has { HasPlace self.now place }
    {
        count_in(self.queues.as_slice(), self.order[place]) == self.depth
    }

    // Puts a byte into the queue of this place, which has room for it.
    fn put(&mut self, place: usize, byte: u8)
        requires place { place < length self.old.order }
        requires room { is_full self.old.depth (id_at self.old place) self.old.places ≡ false }
        ensures places { self.new ≡ with_places self.old (put (id_at self.old place) byte self.old.places) }
        ensures few { load self.new.places ≤ length self.new.order * self.new.depth }
    {
        put_in(self.queues.as_mut_slice(), self.order[place], byte);
    }

    // Makes a turn, and appends what it gives.
    fn give<const N: usize>(&mut self, out: &mut ArrayVec<Tagged, N>)
        requires { array_vec_len out.old + MOST_HELD ≤ N }
        ensures given { out.new.items ≡ out.old.items ++ (turn_by self.old).out }
        ensures len { array_vec_len out.new ≤ array_vec_len out.old + MOST_HELD }
        ensures places { self.new ≡ with_places self.old (turn_by self.old).places }
    {
        turn(self.queues.as_mut_slice(), self.hold, out);
    }
}
