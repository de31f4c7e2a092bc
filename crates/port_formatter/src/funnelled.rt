//! Frames that bytes come to through a funnel.

ghost use Rattle.std.specs.Prelude.{◌≡◌, ◌≤◌, ◌<◌, ◌+◌, ◌*◌, ◌∷◌, [], ℕ, length, true, IfOk, Some};
ghost use Rattle.std.specs.List.{All};
ghost use Rattle.port_formatter.specs.Names.{load, COUNT_ROOM};

use crate::ring_frames::RingFrames;
use arrayvec::ArrayVec;
use std::alloc::{AllocError, Global};
use trace_funnel::{Funnel, MOST_PLACES, Tagged, Turns};
use trace_values::SourceId;

/// Frames that bytes come to through a funnel.
#[derive(Drop)]
pub struct FunnelledFrames {
    funnel: Funnel,
    pub(crate) ring: RingFrames,
    ghost some: { 1 ≤ funnel.hold },
    ghost sources: { All (λ place. 0 < place.id) funnel.places },
    ghost few: { load funnel.places ≤ length funnel.order * funnel.depth },
    ghost room: { 132 * 240 + 264 * (length funnel.order * funnel.depth) ≤ 7 * ring.kept.capacity },
}

/// How many bytes are kept at most with so many places of this depth: what may become sure with all that waits in them,
/// and more than a line of a script makes sure.
fn most_kept(places: usize, depth: usize) -> usize
    requires places { places ≤ MOST_PLACES }
    requires depth { depth ≤ 4096 }
    ensures { 132 * 240 + 264 * (places * depth) ≤ 7 * result }
{
    (132 * 240 + 264 * (places * depth)) / 7 + 1
}

impl FunnelledFrames {
    ghost use Rattle.port_formatter.specs.Names.{of_one, Offer, Turn, Drain, IsSoundTurns, id_at};
    ghost use Rattle.port_formatter.specs.Formatter.{Stands, Puts, Ends, HasRoom, turns_of, kept_by, count_of};
    ghost use Rattle.port_formatter.specs.Passed.{bytes_acts};
    ghost use Rattle.port_formatter.specs.Passing.{Passes};
    ghost use Rattle.port_formatter.specs.Port.{has_place};
    ghost use Rattle.port_formatter.specs.Segments.{no_segments};
    ghost use Rattle.port_formatter.specs.declared.formatter.Formatter.TheVariants.{Funnelled};

    /// Frames of no bytes, as `Formatter::through` says.
    pub fn new(
        alloc: Global,
        every: u32,
        halves: u8,
        turns: &Turns,
    ) -> Result<FunnelledFrames, AllocError>
        requires few { halves ≤ 8 }
        requires sound { IsSoundTurns turns.now }
        ensures stands { IfOk result (λ f. Stands (Funnelled f)
            (record { every = every; halves = halves; funnel = Some turns.now }) no_segments) }
        ensures turns { IfOk result (λ f. turns_of (Funnelled f) ≡ Some turns.now) }
        ensures kept { IfOk result (λ f. kept_by (Funnelled f) ≡ []) }
        ensures count { IfOk result (λ f. count_of (Funnelled f) ≡ 0) }
    {
        let capacity = most_kept(turns.order.as_slice().len(), turns.depth);
        let funnel = Funnel::new(alloc, turns.order.as_array(), turns.hold, turns.depth)?;
        let ring = RingFrames::new(alloc, every, halves, capacity)?;
        Ok(FunnelledFrames { funnel, ring })
    }

    /// Whether this source has a place.
    pub fn takes(&self, id: SourceId) -> bool
        ensures { result ≡ has_place (turns_of (Funnelled self.now)) id }
    {
        self.funnel.place(id).is_some()
    }

    /// Offers bytes of a source that has a place, and puts what the funnel gives into the frames. Apart, so that bytes
    /// that come straight need no room for it.
    #[inline(never)]
    pub fn put_all(&mut self, id: SourceId, bytes: &[u8])
        requires place { has_place (turns_of (Funnelled self.old)) id ≡ true }
        requires count { count_of (Funnelled self.old) + length bytes.now ≤ COUNT_ROOM }
        requires room { HasRoom (Funnelled self.old) (2 * length bytes.now) }
        ensures turns { turns_of (Funnelled self.new) ≡ turns_of (Funnelled self.old) }
        ensures put { Puts (Funnelled self.old) (Funnelled self.new) (of_one id bytes.now) }
        ensures count { count_of (Funnelled self.new) ≤ count_of (Funnelled self.old) + length bytes.now }
        ensures room { (more : ℕ) → HasRoom (Funnelled self.old) (2 * length bytes.now + more) →
            HasRoom (Funnelled self.new) more }
    {
        let Some(place) = self.funnel.place(id) else {
            return;
        };
        let mut given = ArrayVec::new();
        for byte in bytes {
            self.put(place, *byte, &mut given);
        }
    }

    // Offers a byte to this place, and puts what the funnel gives into the frames; meanwhile that is in `given`.
    fn put(&mut self, place: usize, byte: u8, given: &mut ArrayVec<Tagged, 240>)
        requires place { place < length self.old.funnel.order }
        requires empty { given.old.items ≡ [] }
        requires count { count_of (Funnelled self.old) < COUNT_ROOM }
        requires room { HasRoom (Funnelled self.old) 2 }
        ensures turns { turns_of (Funnelled self.new) ≡ turns_of (Funnelled self.old) }
        ensures passes { Passes self.old self.new
            (Offer (record { id = id_at self.old.funnel place; byte = byte }) ∷ []) }
        ensures moved { given.new.items ≡ [] }
        ensures count { count_of (Funnelled self.new) ≤ count_of (Funnelled self.old) + 1 }
        ensures room { (more : ℕ) → HasRoom (Funnelled self.old) (2 + more) → HasRoom (Funnelled self.new) more }
    {
        self.funnel.offer(place, byte, given);
        self.ring.put_all(given.as_slice());
        given.clear();
    }

    /// Ends the segment: the funnel gives all its bytes, and then the frames are ended.
    pub fn flush(&mut self)
        requires count { count_of (Funnelled self.old) < COUNT_ROOM }
        requires room { HasRoom (Funnelled self.old) 7 }
        ensures turns { turns_of (Funnelled self.new) ≡ turns_of (Funnelled self.old) }
        ensures ends { Ends (Funnelled self.old) (Funnelled self.new) }
        ensures count { count_of (Funnelled self.new) ≤ count_of (Funnelled self.old) + 1 }
        ensures room { (more : ℕ) → HasRoom (Funnelled self.old) (7 + more) → HasRoom (Funnelled self.new) more }
    {
        self.drain();
        self.ring.flush();
    }

    // Makes turns until no byte waits, and puts what the funnel gives into the frames.
    fn drain(&mut self)
        requires count { count_of (Funnelled self.old) ≤ COUNT_ROOM }
        requires room { HasRoom (Funnelled self.old) 0 }
        ensures turns { turns_of (Funnelled self.new) ≡ turns_of (Funnelled self.old) }
        ensures passes { Passes self.old self.new (Drain ∷ []) }
        ensures empty { load self.new.funnel.places ≡ 0 }
        ensures count { count_of (Funnelled self.new) ≤ count_of (Funnelled self.old) }
        ensures room { (more : ℕ) → HasRoom (Funnelled self.old) more → HasRoom (Funnelled self.new) more }
    {
        while !self.funnel.is_empty() {
            self.turn();
        }
    }

    // Makes a turn, and puts what the funnel gives into the frames.
    fn turn(&mut self)
        requires count { count_of (Funnelled self.old) ≤ COUNT_ROOM }
        requires room { HasRoom (Funnelled self.old) 0 }
        ensures turns { turns_of (Funnelled self.new) ≡ turns_of (Funnelled self.old) }
        ensures passes { Passes self.old self.new (Turn ∷ []) }
        ensures count { count_of (Funnelled self.new) ≤ count_of (Funnelled self.old) }
        ensures room { (more : ℕ) → HasRoom (Funnelled self.old) more → HasRoom (Funnelled self.new) more }
    {
        let mut given = ArrayVec::new();
        self.funnel.turn(&mut given);
        self.ring.put_all(given.as_slice());
    }
}
