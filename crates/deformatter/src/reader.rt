//! The reader of a port.

ghost use Rattle.std.specs.Prelude.{◌≡◌, ◌≤◌, ◌+◌};
ghost use Rattle.deformatter.specs.Deformatter.{is_hunter};
ghost use Rattle.deformatter.specs.Names.{byte_at, COUNT_ROOM, PART_ROOM};
ghost use Rattle.deformatter.specs.PortReading.{bare_cell};
ghost use Rattle.deformatter.specs.Modes.{hunts};

use crate::{Deformatter, PortStep, Taken};
use arrayvec::ArrayVec;
use trace_values::{Cell, FramesMode, SourceId};

/// Reads the bytes of a port one by one, in one mode.
#[derive(Drop)]
pub struct PortReader {
    mode: FramesMode,
    /// What takes the frames apart; with no formatter no byte is fed to it.
    port: Deformatter,
    ghost moded: { is_hunter port ≡ hunts mode },
}

/// The cell of a byte with no formatter around it: a data byte of source 1.
#[inline]
fn bare_cell_of(at: u64, byte: u8) -> Cell
    ensures { result ≡ bare_cell (byte_at at byte) }
{
    Cell {
        at,
        id: SourceId::new(1),
        run: 0,
        byte,
    }
}

impl PortReader {
    ghost use Rattle.std.specs.Prelude.{◌++◌, [], ◌∷◌, List, true, is_none, IsTrue, ℕ, ◌<◌, length, take};
    ghost use Rattle.deformatter.specs.Names.{Placed, units_of, placed_from, cells, id_after, Frame, Spells};
    ghost use Rattle.deformatter.specs.Names.{offsets_of};
    ghost use Rattle.deformatter.specs.Growth.{goes_on};
    ghost use Rattle.deformatter.specs.PortReading.{port_reading};
    ghost use Rattle.deformatter.specs.Piece.{ReadsPiece};
    ghost use Rattle.deformatter.specs.ReadingGrowth.{FedFrame, Grows, GrowsByFrame};
    ghost use Rattle.deformatter.specs.Reader.{Stands, IsBetween, mode_of, id_of, is_live, has_locked, tail_of};
    ghost use Rattle.deformatter.specs.Reader.{skipped_by};

    /// A reader before the first byte.
    pub fn new(mode: FramesMode) -> PortReader
        ensures mode { mode_of result ≡ mode }
        ensures fresh { Stands result [] }
        ensures live { is_live result ≡ true }
        ensures empty { (tail_of result ≡ 0) × (skipped_by result ≡ 0) }
    {
        let port = match mode {
            FramesMode::Hunt => Deformatter::hunting(),
            FramesMode::Aligned | FramesMode::Bare => Deformatter::aligned(),
        };
        PortReader { mode, port }
    }

    /// How it reads.
    pub fn mode(&self) -> FramesMode
        ensures { result ≡ mode_of self.now }
    {
        self.mode
    }

    /// False exactly after a fault; with no formatter there is none.
    #[inline]
    pub fn is_live(&self) -> bool
        ensures value { result ≡ is_live self.now }
        ensures list { (u : List Placed) → Stands self.now u →
            result ≡ is_none (port_reading (mode_of self.now) u).fault }
    {
        match self.mode {
            FramesMode::Bare => true,
            FramesMode::Hunt | FramesMode::Aligned => self.port.is_live(),
        }
    }

    /// False before the full synchronisation that is hunted; in the other modes always true.
    pub fn is_locked(&self) -> bool
        ensures value { result ≡ has_locked self.now }
        ensures list { (u : List Placed) → Stands self.now u → result ≡ (port_reading (mode_of self.now) u).locked }
    {
        match self.mode {
            FramesMode::Hunt => self.port.is_locked(),
            FramesMode::Aligned | FramesMode::Bare => true,
        }
    }

    /// How many bytes are before the full synchronisation that is hunted; before the lock, all bytes so
    /// far; in the other modes 0.
    pub fn skipped(&self) -> u64
        requires { is_live self.now ≡ true }
        ensures value { result ≡ skipped_by self.now }
        ensures list { (u : List Placed) → Stands self.now u → result ≡ (port_reading (mode_of self.now) u).skipped }
    {
        match self.mode {
            FramesMode::Hunt => self.port.skipped(),
            FramesMode::Aligned | FramesMode::Bare => 0,
        }
    }

    /// How many bytes are after the last whole frame or synchronisation, those of half synchronisations
    /// inside an unfinished frame too; 0 before the lock, and with no formatter.
    pub fn tail(&self) -> u64
        requires { is_live self.now ≡ true }
        ensures value { result ≡ tail_of self.now }
        ensures list { (u : List Placed) → Stands self.now u → result ≡ (port_reading (mode_of self.now) u).tail }
    {
        match self.mode {
            FramesMode::Bare => 0,
            FramesMode::Hunt | FramesMode::Aligned => self.port.tail(),
        }
    }

    /// Only where there is a formatter, nothing of a frame or a synchronisation is there, and the reading has begun.
    #[inline]
    pub fn is_between(&self) -> bool
        ensures { IsTrue result → IsBetween self.now }
    {
        match self.mode {
            FramesMode::Bare => false,
            FramesMode::Hunt | FramesMode::Aligned => self.port.is_between(),
        }
    }

    /// The ID in force.
    #[inline]
    pub fn id(&self) -> Option<SourceId>
        ensures { result ≡ id_of self.now }
    {
        self.port.id()
    }

    /// Passes over a whole frame, whose bytes the caller takes: `after` is the ID after it. There is a formatter, and
    /// nothing of a frame or a synchronisation may be there.
    #[inline]
    pub fn pass_frame(&mut self, after: Option<SourceId>)
        requires live { is_live self.old ≡ true }
        requires between { IsBetween self.old }
        ensures same { mode_of self.new ≡ mode_of self.old }
        ensures list { (u w f : List Placed) (halves : ℕ) → Stands self.old u → Spells (Frame f halves) w →
            after ≡ id_after (units_of f) (id_of self.old) → Stands self.new (u ++ w) }
        ensures grows { (u w f : List Placed) (halves : ℕ) → Stands self.old u → Spells (Frame f halves) w →
            GrowsByFrame (port_reading (mode_of self.old) u) (port_reading (mode_of self.old) (u ++ w)) halves
            (cells (units_of f) (offsets_of f) (id_of self.old)) }
        ensures fed { (u f : List Placed) (halves at : ℕ) (bytes : List ℕ) → Stands self.old u →
            Spells (Frame f halves) (placed_from at bytes) →
            FedFrame (mode_of self.old) (cells (units_of f) (offsets_of f) (id_of self.old)) u at bytes }
        ensures live { is_live self.new ≡ true }
        ensures few { tail_of self.new + skipped_by self.new ≡ tail_of self.old + skipped_by self.old }
    {
        self.port.pass_frame(after);
    }

    /// Takes bytes from the front of a piece, the first of which is at this offset of the capture, up to the
    /// first to which the answer is not `Quiet`, or to the piece's end. It answers and leaves what feeding
    /// these bytes one by one does.
    ///
    /// The piece has a byte. The offset, the piece's length, and the bytes that were skipped and that are
    /// left over are each at most `PART_ROOM`.
    pub fn feed_block(&mut self, at: u64, piece: &[u8], out: &mut ArrayVec<Cell, 15>) -> Taken
        requires live { is_live self.old ≡ true }
        requires out { out.old.items ≡ [] }
        requires some { 0 < length piece.now }
        requires offset { at ≤ PART_ROOM }
        requires length { length piece.now ≤ PART_ROOM }
        requires room { tail_of self.old ≤ PART_ROOM }
        requires count { skipped_by self.old ≤ PART_ROOM }
        ensures { ReadsPiece self.old self.new at piece.now result out.new.items }
    {
        match self.mode {
            FramesMode::Bare => {
                out.push(bare_cell_of(at, piece[0]));
                Taken {
                    bytes: 1,
                    step: PortStep::Frame,
                }
            }
            FramesMode::Hunt | FramesMode::Aligned => self.port.feed_block(at, piece, out),
        }
    }

    /// Takes the next byte, which is at this offset of the capture. Where the byte ends a frame, `out`
    /// has the frame's cells afterwards, and else nothing. With no formatter each byte ends a frame, of one cell.
    #[inline]
    pub fn feed(&mut self, at: u64, byte: u8, out: &mut ArrayVec<Cell, 15>) -> PortStep
        requires live { is_live self.old ≡ true }
        requires out { out.old.items ≡ [] }
        requires room { tail_of self.old ≤ COUNT_ROOM }
        requires count { skipped_by self.old ≤ COUNT_ROOM }
        ensures same { mode_of self.new ≡ mode_of self.old }
        ensures list { (u : List Placed) → Stands self.old u → Stands self.new (u ++ byte_at at byte ∷ []) }
        ensures step { (u : List Placed) → Stands self.old u →
            Grows (port_reading (mode_of self.old) u) (port_reading (mode_of self.old) (u ++ byte_at at byte ∷ []))
            at result out.new.items }
        ensures live { is_live self.new ≡ goes_on result }
        ensures few { tail_of self.new + skipped_by self.new ≤ tail_of self.old + skipped_by self.old + 1 }
    {
        match self.mode {
            FramesMode::Bare => {
                out.push(bare_cell_of(at, byte));
                PortStep::Frame
            }
            FramesMode::Hunt | FramesMode::Aligned => self.port.feed(at, byte, out),
        }
    }
}
