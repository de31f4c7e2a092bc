//! The formatter of a port.

ghost use Rattle.std.specs.Prelude.{◌≡◌, ◌≤◌, ◌<◌, ◌+◌, ◌*◌, ◌++◌, [], ℕ, length, true, None, Some, IfOk};
ghost use Rattle.trace_values.specs.declared.limits.TheConstants.{COUNT_ROOM};
ghost use Rattle.port_formatter.specs.declared.straight.TheConstants.{KEPT_ROOM};

use crate::funnelled::FunnelledFrames;
use crate::straight::{StraightFrames, give_front};
use arrayvec::ArrayVec;
use frame_writer::SureWriter;
use std::alloc::{AllocError, Global};
use trace_funnel::Turns;
use trace_stream::{ACTION_ROOM, OUTLET_ROOM, Outlet};
use trace_values::SourceId;

/// Writes bytes of sources as the frames of a port, and keeps of them what stays so whatever comes after it, until it
/// is given: the frames of ended segments, and of the unfinished segment all but the last.
#[derive(Drop)]
pub enum Formatter {
    /// Bytes go to the frames straight.
    Straight(StraightFrames),
    /// They go through a funnel first.
    Funnelled(FunnelledFrames),
}

impl Formatter {
    ghost use Rattle.port_formatter.specs.Names.{of_one, IsSoundTurns, Pours};
    ghost use Rattle.port_formatter.specs.Formatter.{Stands, Puts, Ends, HasRoom};
    ghost use Rattle.port_formatter.specs.Formatter.{turns_of, kept_by, count_of, debt_of};
    ghost use Rattle.port_formatter.specs.Port.{Port, has_place};
    ghost use Rattle.port_formatter.specs.Segments.{Segments, no_segments};

    /// One that bytes go through straight. It writes a full synchronisation before each frame whose number, from 0 on,
    /// is a multiple of `every` (none where that is 0), and `halves` half synchronisations, at most 8, in each gap of a
    /// frame.
    pub fn new(every: u32, halves: u8) -> Formatter
        requires few { halves ≤ 8 }
        ensures stands { Stands result (record { every = every; halves = halves; funnel = None }) no_segments }
        ensures turns { turns_of result ≡ None }
        ensures kept { kept_by result ≡ [] }
        ensures count { count_of result ≡ 0 }
    {
        Formatter::Straight(StraightFrames {
            frames: SureWriter::new(every, halves),
            kept: ArrayVec::new(),
        })
    }

    /// One that bytes go through a funnel to, which takes turns so; the rest is as of `new`. It takes all its memory
    /// here, and fails only for want of it.
    pub fn through(
        alloc: Global,
        every: u32,
        halves: u8,
        turns: &Turns,
    ) -> Result<Formatter, AllocError>
        requires few { halves ≤ 8 }
        requires sound { IsSoundTurns turns.now }
        ensures stands { IfOk result (λ f. Stands f
            (record { every = every; halves = halves; funnel = Some turns.now }) no_segments) }
        ensures turns { IfOk result (λ f. turns_of f ≡ Some turns.now) }
        ensures kept { IfOk result (λ f. kept_by f ≡ []) }
        ensures count { IfOk result (λ f. count_of f ≡ 0) }
    {
        Ok(Formatter::Funnelled(FunnelledFrames::new(alloc, every, halves, turns)?))
    }

    /// Whether bytes of this source can be put: it has a place in the funnel, or there is none.
    #[inline]
    pub fn takes(&self, id: SourceId) -> bool
        ensures { result ≡ has_place (turns_of self.now) id }
    {
        match self {
            Formatter::Straight(_) => true,
            Formatter::Funnelled(to) => to.takes(id),
        }
    }

    /// Puts bytes of a source other than 0, and keeps what becomes sure with them, for which there is room.
    #[inline]
    pub fn put_all(&mut self, id: SourceId, bytes: &[u8])
        requires source { 0 < id }
        requires place { has_place (turns_of self.old) id ≡ true }
        requires count { count_of self.old + length bytes.now ≤ COUNT_ROOM }
        requires room { HasRoom self.old (2 * length bytes.now) }
        ensures turns { turns_of self.new ≡ turns_of self.old }
        ensures put { Puts self.old self.new (of_one id bytes.now) }
        ensures count { count_of self.new ≤ count_of self.old + length bytes.now }
        ensures room { (more : ℕ) → HasRoom self.old (2 * length bytes.now + more) → HasRoom self.new more }
    {
        match self {
            Formatter::Straight(to) => to.frames.put_all(id, bytes, &mut to.kept),
            Formatter::Funnelled(to) => to.put_all(id, bytes),
        }
    }

    /// Ends the segment: what waits in a funnel comes before its end, and all is sure.
    pub fn flush(&mut self)
        requires count { count_of self.old < COUNT_ROOM }
        requires room { HasRoom self.old 7 }
        ensures turns { turns_of self.new ≡ turns_of self.old }
        ensures ends { Ends self.old self.new }
        ensures count { count_of self.new ≤ count_of self.old + 1 }
        ensures room { (more : ℕ) → HasRoom self.old (7 + more) → HasRoom self.new more }
    {
        match self {
            Formatter::Straight(to) => to.frames.flush(&mut to.kept),
            Formatter::Funnelled(to) => to.flush(),
        }
    }

    /// Moves the first of what is kept to the outlet, as much as a call may put, and answers whether something was
    /// kept.
    #[inline]
    pub fn give(&mut self, outlet: &mut Outlet) -> bool
        requires room { length outlet.old + ACTION_ROOM ≤ OUTLET_ROOM }
        ensures turns { turns_of self.new ≡ turns_of self.old }
        ensures count { count_of self.new ≡ count_of self.old }
        ensures stands { (p : Port) (s : Segments) → Stands self.old p s → Stands self.new p s }
        ensures poured { Pours (debt_of self.old) (debt_of self.new) outlet.old outlet.new result }
        ensures room { (more : ℕ) → HasRoom self.old more → HasRoom self.new more }
    {
        match self {
            Formatter::Straight(to) => give_front(&mut to.kept, outlet),
            Formatter::Funnelled(to) => to.ring.give(outlet),
        }
    }

    /// What is kept, from the first byte on, in two parts: without a funnel all is in the first.
    pub fn kept(&self) -> (&[u8], &[u8])
        ensures parts { result.0.now ++ result.1.now ≡ kept_by self.now }
        ensures one { turns_of self.now ≡ None → result.1.now ≡ [] }
        ensures few { turns_of self.now ≡ None → length result.0.now ≤ KEPT_ROOM }
    {
        match self {
            Formatter::Straight(to) => (to.kept.as_slice(), &[]),
            Formatter::Funnelled(to) => to.ring.kept(),
        }
    }

    /// Drops what is kept.
    pub fn forget(&mut self)
        ensures turns { turns_of self.new ≡ turns_of self.old }
        ensures count { count_of self.new ≡ count_of self.old }
        ensures kept { kept_by self.new ≡ [] }
        ensures stands { (p : Port) (s : Segments) → Stands self.old p s → Stands self.new p s }
    {
        match self {
            Formatter::Straight(to) => to.kept.clear(),
            Formatter::Funnelled(to) => to.ring.forget(),
        }
    }
}
