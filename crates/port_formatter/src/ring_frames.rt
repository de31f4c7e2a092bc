//! Frames of which what becomes sure is kept in a ring.

ghost use Rattle.std.specs.Prelude.{◌≡◌, ◌≤◌, ◌<◌, ◌+◌, ◌*◌, ◌++◌, ◌∷◌, [], ℕ, List, length, IfOk};
ghost use Rattle.std.specs.List.{All};
ghost use Rattle.port_formatter.specs.Names.{Tagged, Appends, Ends, IsSure, count_of, owing, Pours, COUNT_ROOM};
ghost use Rattle.trace_stream.specs.declared.action.TheConstants.{ACTION_ROOM};

use arrayvec::ArrayVec;
use circular_buffer::HeapCircularBuffer;
use frame_writer::{SureWriter, TwoFrames};
use std::alloc::{AllocError, Global};
use trace_funnel::Tagged;
use trace_stream::{OUTLET_ROOM, Outlet};

/// How many bytes are given at once at most. A line of a script makes few, and more come with the next turns.
const PART: usize = 256;

/// Frames of which what becomes sure is kept in a ring, until it is given.
#[derive(Drop)]
pub struct RingFrames {
    frames: SureWriter,
    kept: HeapCircularBuffer<u8>,
}

impl RingFrames {
    ghost use Rattle.port_formatter.specs.Passed.{from_funnel};
    ghost use Rattle.port_formatter.specs.Ring.{kept_in, filled_of, space_of};

    /// Frames of no bytes, with the memory to keep so many.
    pub fn new(
        alloc: Global,
        every: u32,
        halves: u8,
        capacity: usize,
    ) -> Result<RingFrames, AllocError>
        requires few { halves ≤ 8 }
        ensures fresh { IfOk result (λ r. IsSure r.frames every halves [] []) }
        ensures count { IfOk result (λ r. count_of r.frames ≡ 0) }
        ensures kept { IfOk result (λ r. kept_in r ≡ []) }
        ensures capacity { IfOk result (λ r. r.kept.capacity ≡ capacity) }
    {
        let kept = HeapCircularBuffer::with_capacity(alloc, capacity)?;
        Ok(RingFrames {
            frames: SureWriter::new(every, halves),
            kept,
        })
    }

    /// Moves bytes to the ring, which has room for them.
    fn keep(&mut self, sure: &mut TwoFrames)
        requires room { length (kept_in self.old) + length sure.old.items ≤ self.old.kept.capacity }
        ensures frames { self.new.frames ≡ self.old.frames }
        ensures kept { kept_in self.new ≡ kept_in self.old ++ sure.old.items }
        ensures capacity { self.new.kept.capacity ≡ self.old.kept.capacity }
        ensures moved { sure.new.items ≡ [] }
    {
        if !sure.is_empty() {
            self.kept.fill_from_slice(sure.as_slice());
            sure.clear();
        }
    }

    /// Puts a byte of a source other than 0, and keeps what becomes sure with it; meanwhile that is in `sure`.
    fn put(&mut self, given: Tagged, sure: &mut TwoFrames)
        requires source { 0 < given.id }
        requires empty { sure.old.items ≡ [] }
        requires count { count_of self.old.frames < COUNT_ROOM }
        requires room { filled_of self.old + 264 ≤ space_of self.old }
        ensures put { Appends self.old.frames self.new.frames (from_funnel (given ∷ [])) (kept_in self.old)
            (kept_in self.new) }
        ensures moved { sure.new.items ≡ [] }
        ensures count { count_of self.new.frames ≤ count_of self.old.frames + 1 }
        ensures filled { filled_of self.new ≤ filled_of self.old + 264 }
        ensures capacity { self.new.kept.capacity ≡ self.old.kept.capacity }
    {
        self.frames.put(given.id, given.byte, sure);
        self.keep(sure);
    }

    /// Puts bytes of sources other than 0, and keeps what becomes sure with them.
    pub fn put_all(&mut self, given: &[Tagged])
        requires sources { All (λ x. 0 < x.id) given.now }
        requires count { count_of self.old.frames + length given.now ≤ COUNT_ROOM }
        requires room { filled_of self.old + 264 * length given.now ≤ space_of self.old }
        ensures put { Appends self.old.frames self.new.frames (from_funnel given.now) (kept_in self.old)
            (kept_in self.new) }
        ensures count { count_of self.new.frames ≤ count_of self.old.frames + length given.now }
        ensures filled { filled_of self.new ≤ filled_of self.old + 264 * length given.now }
        ensures capacity { self.new.kept.capacity ≡ self.old.kept.capacity }
    {
        if given.is_empty() {
            return;
        }
        let mut sure = ArrayVec::new();
        for x in given {
            self.put(*x, &mut sure);
        }
    }

    /// Ends the segment, and keeps what becomes sure with that.
    pub fn flush(&mut self)
        requires count { count_of self.old.frames < COUNT_ROOM }
        requires room { filled_of self.old + 132 * 7 ≤ space_of self.old }
        ensures ends { Ends self.old.frames self.new.frames (kept_in self.old) (kept_in self.new) }
        ensures count { count_of self.new.frames ≤ count_of self.old.frames + 1 }
        ensures filled { filled_of self.new ≤ filled_of self.old + 132 * 7 }
        ensures capacity { self.new.kept.capacity ≡ self.old.kept.capacity }
    {
        let mut sure = ArrayVec::new();
        self.frames.flush(&mut sure);
        self.keep(&mut sure);
    }

    /// Moves the first of the kept bytes to the outlet, at most `PART` of them, and answers whether there were any.
    /// Apart, so that frames that bytes come to straight need no room for it.
    #[inline(never)]
    pub fn give(&mut self, outlet: &mut Outlet) -> bool
        requires room { length outlet.old + ACTION_ROOM ≤ OUTLET_ROOM }
        ensures frames { self.new.frames ≡ self.old.frames }
        ensures poured { Pours (owing (kept_in self.old) (length (kept_in self.old)))
            (owing (kept_in self.new) (length (kept_in self.new))) outlet.old outlet.new result }
        ensures fewer { length (kept_in self.new) ≤ length (kept_in self.old) }
        ensures capacity { self.new.kept.capacity ≡ self.old.kept.capacity }
    {
        if self.kept.is_empty() {
            return false;
        }
        let mut bytes = [0; PART];
        let count = self.kept.read_into(&mut bytes);
        outlet.append(&bytes[..count]);
        true
    }

    /// What is kept, from the first byte on, in two parts.
    pub fn kept(&self) -> (&[u8], &[u8])
        ensures { result.0.now ++ result.1.now ≡ kept_in self.now }
    {
        self.kept.as_slices()
    }

    /// Drops what is kept.
    pub fn forget(&mut self)
        ensures frames { self.new.frames ≡ self.old.frames }
        ensures kept { kept_in self.new ≡ [] }
        ensures capacity { self.new.kept.capacity ≡ self.old.kept.capacity }
    {
        self.kept.clear();
    }
}
