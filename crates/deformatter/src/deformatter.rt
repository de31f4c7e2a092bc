//! The deformatter.

ghost use Rattle.std.specs.Prelude.{◌≡◌, ◌≤◌, ◌+◌, ◌*◌, true};
ghost use Rattle.deformatter.specs.Names.{is_counted, pattern, COUNT_ROOM};
ghost use Rattle.port_sync.specs.Aligner.{left_of};
ghost use Rattle.deformatter.specs.Phase.{mode_in};
ghost use Rattle.deformatter.specs.Unfinished.{len_of, halves_of};

use crate::step::PortStep;
use crate::unfinished::Unfinished;
use arrayvec::ArrayVec;
use port_sync::{Aligner, Half, Hunter};
use trace_values::{Cell, Fault, SourceId};

/// How far a deformatter has come: it reads from the first byte on; it hunts; or it has locked.
#[derive(Clone, Copy, Drop)]
pub enum Phase {
    Aligned,
    Hunting,
    Locked,
}

/// Reads the bytes of a port one by one, and keeps only what it needs of the one unfinished frame.
#[derive(Drop)]
pub struct Deformatter {
    pub(crate) phase: Phase,
    pub(crate) hunter: Hunter,
    /// How many bytes are before the pattern that it hunted; before the lock, all bytes so far.
    pub(crate) skipped: u64,
    pub(crate) aligner: Aligner,
    /// The offset of the last byte that ended nothing: that of a halfword's first byte, where one is there.
    first_at: u64,
    pub(crate) frame: Unfinished,
    id: Option<SourceId>,
    ghost whole: { len_of frame + 2 * left_of aligner ≡ 14 },
    ghost between: { len_of frame ≡ 0 → halves_of frame ≡ 0 },
    ghost counted: { is_counted pattern (mode_in phase hunter skipped) ≡ true },
}

impl Deformatter {
    ghost use Rattle.std.specs.Prelude.{◌++◌, [], ◌∷◌, ℕ, List, false, is_none, IsTrue};
    ghost use Rattle.deformatter.specs.Names.{run_of, Placed, units_of, byte_at, placed_from, id_after, live_after};
    ghost use Rattle.deformatter.specs.Names.{state_after, Frame, Spells, start, rule};
    ghost use Rattle.deformatter.specs.Block.{FedFrame, TakesByte};
    ghost use Rattle.deformatter.specs.Frames.{IsBetween, GrowsByFrame};
    ghost use Rattle.deformatter.specs.declared.step.PortStep.TheVariants.{Quiet};
    ghost use Rattle.deformatter.specs.Reading.{port_stream, cells_in};
    ghost use Rattle.deformatter.specs.Growth.{PortGrows, goes_on};
    ghost use Rattle.deformatter.specs.Rule.{step_by, cells_by, id_by};
    ghost use Rattle.deformatter.specs.Deformatter.{Stands, mode_of, state_of, id_of, is_hunter, is_live, has_locked};
    ghost use Rattle.deformatter.specs.Deformatter.{tail_of, skipped_by};

    /// A deformatter of bytes that begin with a frame or a synchronisation.
    pub fn aligned() -> Deformatter
        ensures fresh { Stands result [] }
        ensures mode { is_hunter result ≡ false }
        ensures live { is_live result ≡ true }
        ensures empty { (tail_of result ≡ 0) × (skipped_by result ≡ 0) }
    {
        Deformatter::new(Phase::Aligned)
    }

    /// A deformatter of bytes that may begin anywhere: it skips them up to the first full synchronisation.
    pub fn hunting() -> Deformatter
        ensures fresh { Stands result [] }
        ensures mode { is_hunter result ≡ true }
        ensures live { is_live result ≡ true }
        ensures empty { (tail_of result ≡ 0) × (skipped_by result ≡ 0) }
    {
        Deformatter::new(Phase::Hunting)
    }

    /// A deformatter before the first byte.
    pub(crate) fn new(phase: Phase) -> Deformatter
        ensures phase { result.phase ≡ phase }
        ensures run { run_of result.hunter ≡ 0 }
        ensures skipped { result.skipped ≡ 0 }
        ensures state { state_of result ≡ start }
        ensures live { is_live result ≡ true }
        ensures id { id_of result ≡ None }
    {
        Deformatter {
            phase,
            hunter: Hunter::new(),
            skipped: 0,
            aligner: Aligner::new(),
            first_at: 0,
            frame: Unfinished::new(),
            id: None,
        }
    }

    /// False exactly after a fault.
    #[inline]
    pub fn is_live(&self) -> bool
        ensures value { result ≡ is_live self.now }
        ensures list { (u : List Placed) → Stands self.now u →
            result ≡ is_none (port_stream (is_hunter self.now) u).fault }
    {
        self.aligner.is_live()
    }

    /// True from the start where the reading begins with the first byte, and else from the lock on.
    pub fn is_locked(&self) -> bool
        ensures value { result ≡ has_locked self.now }
        ensures list { (u : List Placed) → Stands self.now u → result ≡ (port_stream (is_hunter self.now) u).locked }
    {
        match self.phase {
            Phase::Hunting => false,
            Phase::Aligned | Phase::Locked => true,
        }
    }

    /// How many bytes are before the pattern that it hunted; before the lock, all bytes so far.
    pub fn skipped(&self) -> u64
        requires { is_live self.now ≡ true }
        ensures value { result ≡ skipped_by self.now }
        ensures list { (u : List Placed) → Stands self.now u → result ≡ (port_stream (is_hunter self.now) u).skipped }
    {
        match self.phase {
            Phase::Aligned => 0,
            Phase::Hunting | Phase::Locked => self.skipped,
        }
    }

    /// How many bytes are after the last frame or synchronisation, those of half synchronisations
    /// inside an unfinished frame too; 0 before the lock.
    pub fn tail(&self) -> u64
        requires { is_live self.now ≡ true }
        ensures value { result ≡ tail_of self.now }
        ensures list { (u : List Placed) → Stands self.now u → result ≡ (port_stream (is_hunter self.now) u).tail }
    {
        self.frame.len() as u64 + 2 * self.frame.halves() + u64::from(self.aligner.len())
    }

    /// Only where nothing of a frame or a synchronisation is there, and the reading has begun.
    #[inline]
    pub fn is_between(&self) -> bool
        ensures { IsTrue result → IsBetween self.now }
    {
        match self.phase {
            Phase::Hunting => false,
            Phase::Aligned | Phase::Locked => self.frame.is_empty() && self.aligner.len() == 0,
        }
    }

    /// The ID in force.
    #[inline]
    pub fn id(&self) -> Option<SourceId>
        ensures { result ≡ id_of self.now }
    {
        self.id
    }

    /// Passes over a whole frame, whose bytes the caller takes: `after` is the ID after it. Nothing of a frame or a
    /// synchronisation may be there.
    #[inline]
    pub fn pass_frame(&mut self, after: Option<SourceId>)
        requires live { is_live self.old ≡ true }
        requires between { IsBetween self.old }
        ensures same { is_hunter self.new ≡ is_hunter self.old }
        ensures list { (u w f : List Placed) (halves : ℕ) → Stands self.old u → Spells (Frame f halves) w →
            after ≡ id_after (units_of f) (id_of self.old) → Stands self.new (u ++ w) }
        ensures grows { (u w f : List Placed) (halves : ℕ) → Stands self.old u → Spells (Frame f halves) w →
            GrowsByFrame (port_stream (is_hunter self.old) u) (port_stream (is_hunter self.old) (u ++ w)) w f halves
            (id_of self.old) }
        ensures fed { (u f : List Placed) (halves at : ℕ) (bytes : List ℕ) → Stands self.old u →
            Spells (Frame f halves) (placed_from at bytes) → FedFrame (is_hunter self.old) u at bytes }
        ensures live { is_live self.new ≡ true }
        ensures few { tail_of self.new + skipped_by self.new ≡ tail_of self.old + skipped_by self.old }
    {
        self.id = after;
    }

    /// Takes the next byte, which is at this offset of the capture. Where the byte ends a frame, `out`
    /// has the frame's cells afterwards, and else nothing.
    #[inline]
    pub fn feed(&mut self, at: u64, byte: u8, out: &mut ArrayVec<Cell, 15>) -> PortStep
        requires live { is_live self.old ≡ true }
        requires out { out.old.items ≡ [] }
        requires room { tail_of self.old ≤ COUNT_ROOM }
        requires count { skipped_by self.old ≤ COUNT_ROOM }
        ensures { TakesByte self.old self.new at byte result out.new.items }
    {
        if let Phase::Hunting = self.phase {
            if self.hunter.push(byte) {
                self.skipped -= 3;
                self.phase = Phase::Locked;
                PortStep::Locked {
                    skipped: self.skipped,
                }
            } else {
                self.skipped += 1;
                PortStep::Quiet
            }
        } else {
            self.read(at, byte, out)
        }
    }

    /// Takes a byte of the reading, by the grammar's rule at the kept state.
    #[inline]
    fn read(&mut self, at: u64, byte: u8, out: &mut ArrayVec<Cell, 15>) -> PortStep
        requires live { is_live self.old ≡ true }
        requires out { out.old.items ≡ [] }
        requires room { tail_of self.old ≤ COUNT_ROOM }
        ensures mode { mode_of self.new ≡ mode_of self.old }
        ensures live { is_live self.new ≡ live_after (rule (state_of self.old) (byte_at at byte)) }
        ensures state { state_of self.new ≡
            state_after start (rule (state_of self.old) (byte_at at byte)) (state_of self.old) }
        ensures id { id_of self.new ≡ id_by (id_of self.old) (rule (state_of self.old) (byte_at at byte)) }
        ensures cells { out.new.items ≡ cells_by (id_of self.old) (rule (state_of self.old) (byte_at at byte)) }
        ensures step { result ≡ step_by at (state_of self.old) (rule (state_of self.old) (byte_at at byte)) }
    {
        match self.aligner.push(byte) {
            Half::Pair(first, second) => {
                self.frame.add(self.first_at, first, at, second);
                if self.frame.is_whole() {
                    self.id = self.frame.finish(self.id, out);
                    PortStep::Frame
                } else {
                    PortStep::Quiet
                }
            }
            Half::HalfSync => {
                if !self.frame.is_empty() {
                    self.frame.add_half();
                }
                PortStep::Half
            }
            Half::FullSync => PortStep::Full,
            Half::Waiting => {
                self.first_at = at;
                PortStep::Quiet
            }
            Half::Bad(reason) => PortStep::Fault(Fault {
                at,
                half: 0,
                reason,
            }),
        }
    }
}
