//! The reading of a port that goes on after a fault.
//!
//! Frames, halfwords and synchronisations are those of the CoreSight Architecture Specification, Arm IHI 0029E (version
//! 3.0), chapter 'Trace Formatter', its section on frames. Which bytes are faults, and how a reading goes on after one,
//! is this project's profile.

ghost use Rattle.std.specs.Prelude.{◌≡◌, true, false};
ghost use Rattle.deformatter.specs.Deformatter.{is_hunter, is_live};
ghost use Rattle.trace_values.specs.declared.limits.TheConstants.{COUNT_ROOM, PART_ROOM};

use arrayvec::ArrayVec;
use deformatter::{Deformatter, PortStep, Taken};
use trace_values::{Cell, SourceId};

/// Reads the bytes of a port with a formatter. After a fault it hunts again, from the first byte of the halfword or
/// synchronisation in which the fault is. It keeps no byte for that, and it is live always.
///
/// It **stands for** the stretches of a list of bytes. Its clauses hold for all stretches that it stood for before the
/// call; a new one stands for those of the empty list.
#[derive(Drop)]
pub struct RecoveringPort {
    port: Deformatter,
    /// How many bytes the stretches before the present one skipped.
    past: u64,
    /// How many bytes the present one counts before its own.
    count: u64,
    /// The present one hunts.
    hunts: bool,
    ghost live: { is_live port ≡ true },
    ghost mode: { is_hunter port ≡ hunts },
}

impl RecoveringPort {
    ghost use Rattle.std.specs.Prelude.{◌+◌, ◌*◌, ◌<◌, ◌≤◌, ◌++◌, [], length, take, ℕ, List, IsTrue};
    ghost use Rattle.stretch_readings.specs.Stretches.{before, lost_in, skipped_in};
    ghost use Rattle.std.specs.List.{sum_by};
    ghost use Rattle.trace_values.specs.Placed.{Placed, placed_from, units_of};
    ghost use Rattle.frame_grammar.specs.Frame.{id_after};
    ghost use Rattle.frame_grammar.specs.Port.{Frame, Spells};
    ghost use Rattle.deformatter.specs.Reading.{cells_in, port_stream};
    ghost use Rattle.deformatter.specs.declared.step.PortStep.TheVariants.{Quiet};
    ghost use Rattle.stretch_readings.specs.Stretches.{Stretches};
    ghost use Rattle.recovering_machines.specs.Port.{IsBetween, IsFed, PassesFrame, Stands, from_halfword, id_of};
    ghost use Rattle.recovering_machines.specs.Port.{items_by, total_of, with_bytes};

    /// One of bytes that begin with a frame or a synchronisation, before the first of them.
    pub fn aligned() -> RecoveringPort
        ensures fresh { Stands result (before items_by from_halfword false) }
        ensures few { total_of result ≤ 0 }
    {
        RecoveringPort {
            port: Deformatter::aligned(),
            past: 0,
            count: 0,
            hunts: false,
        }
    }

    /// One of bytes that may begin anywhere, before the first of them: it skips them up to the first full
    /// synchronisation.
    pub fn hunting() -> RecoveringPort
        ensures fresh { Stands result (before items_by from_halfword true) }
        ensures few { total_of result ≤ 0 }
    {
        RecoveringPort {
            port: Deformatter::hunting(),
            past: 0,
            count: 0,
            hunts: true,
        }
    }

    /// Takes bytes from the front of a piece, the first of which is at this offset, up to the first to which the
    /// answer is not `Quiet`, or to the piece's end: a whole frame between frames at once, and else byte by byte.
    /// Where the last of them ends a frame, `out` has the frame's cells afterwards, and else nothing; the first frame
    /// after a lock has no ID before it. After `Fault` it hunts already, and has taken again what it takes again.
    /// `Locked` has the bytes that the present hunt skipped, and those that it counts from the fault before it.
    ///
    /// The piece has a byte. The offset, the piece's length, and the bytes that it holds and skipped are each at most
    /// `PART_ROOM`.
    pub fn feed_block(&mut self, at: u64, piece: &[u8], out: &mut ArrayVec<Cell, 15>) -> Taken
        requires out { out.old.items ≡ [] }
        requires some { 0 < length piece.now }
        requires room { (at ≤ PART_ROOM) × (length piece.now ≤ PART_ROOM) × (total_of self.old ≤ PART_ROOM) }
        ensures bytes { (0 < result.bytes) × (result.bytes ≤ length piece.now) }
        ensures stops { result.step ≡ Quiet → result.bytes ≡ length piece.now }
        ensures list { (r : Stretches) → Stands self.old r →
            Stands self.new (with_bytes r at (take result.bytes piece.now)) }
        ensures fed { (r : Stretches) → Stands self.old r → IsFed r at (take result.bytes piece.now) result.step }
        ensures cells { (r : Stretches) → Stands self.old r →
            cells_in (port_stream r.now.hunts (r.now.units ++ placed_from at (take result.bytes piece.now)))
            ≡ cells_in (port_stream r.now.hunts r.now.units) ++ out.new.items }
        ensures few { total_of self.new ≤ total_of self.old + 8 * result.bytes }
    {
        let taken = self.port.feed_block(at, piece, out);
        let bytes = taken.bytes;
        match taken.step {
            PortStep::Fault(fault) => {
                let byte = piece[bytes - 1];
                self.past += self.count + self.port.passed_over();
                self.count = self.port.left_over();
                self.port = self.port.hunting_from(byte);
                self.hunts = true;
                Taken {
                    bytes,
                    step: PortStep::Fault(fault),
                }
            }
            PortStep::Locked { .. } => Taken {
                bytes,
                step: PortStep::Locked {
                    skipped: self.count + self.port.skipped(),
                },
            },
            step => Taken { bytes, step },
        }
    }

    /// Only where nothing of a frame or a synchronisation is there, and the present stretch reads.
    #[inline]
    pub fn is_between(&self) -> bool
        ensures { IsTrue result → IsBetween self.now }
    {
        self.port.is_between()
    }

    /// The ID in force.
    #[inline]
    pub fn id(&self) -> Option<SourceId>
        ensures { result ≡ id_of self.now }
    {
        self.port.id()
    }

    /// Passes over a whole frame of the present stretch, with half synchronisations between its halfwords or without,
    /// whose bytes the caller takes: `after` is the ID after it. Nothing of a frame or a synchronisation may be there.
    #[inline]
    pub fn pass_frame(&mut self, after: Option<SourceId>)
        requires between { IsBetween self.old }
        ensures list { (r : Stretches) (f : List Placed) (halves at : ℕ) (bytes : List ℕ) → Stands self.old r →
            Spells (Frame f halves) (placed_from at bytes) → after ≡ id_after (units_of f) (id_of self.old) →
            Stands self.new (with_bytes r at bytes) }
        ensures passes { (r : Stretches) (f : List Placed) (halves at : ℕ) (bytes : List ℕ) → Stands self.old r →
            Spells (Frame f halves) (placed_from at bytes) → PassesFrame r at bytes f halves (id_of self.old) }
        ensures few { total_of self.new ≡ total_of self.old }
    {
        self.port.pass_frame(after);
    }

    /// The present stretch hunts: the first one where it was made to hunt, and each further one.
    pub fn hunts(&self) -> bool
        ensures { (r : Stretches) → Stands self.now r → result ≡ r.now.hunts }
    {
        self.hunts
    }

    /// False in a hunt: before the first lock, where it was made to hunt, and from a fault to the next lock.
    pub fn is_locked(&self) -> bool
        ensures { (r : Stretches) → Stands self.now r → result ≡ (port_stream r.now.hunts r.now.units).locked }
    {
        self.port.is_locked()
    }

    /// How many bytes of an unfinished frame or synchronisation it holds.
    pub fn tail(&self) -> u64
        ensures { (r : Stretches) → Stands self.now r → result ≡ (port_stream r.now.hunts r.now.units).tail }
    {
        self.port.tail()
    }

    /// How many bytes all stretches so far skipped: their hunts, and of an item that a fault broke what was not taken
    /// again.
    pub fn skipped(&self) -> u64
        requires room { total_of self.now ≤ COUNT_ROOM }
        ensures { (r : Stretches) → Stands self.now r →
            result ≡ sum_by (lost_in items_by from_halfword) r.past + skipped_in items_by from_halfword r.now }
    {
        self.past + self.count + self.port.skipped()
    }
}
