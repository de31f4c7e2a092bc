//! The reading of a capture's port.

ghost use Rattle.std.specs.Prelude.{◌≡◌, ◌+◌, ◌<◌, ◌≤◌, ◌++◌, [], ℕ, List, length, take, false, is_none};
ghost use Rattle.std.specs.Prelude.{option_map, Option, IsTrue};
ghost use Rattle.capture_actions.specs.Names.{id_after, IsWhole, fault_by, GrowsByFrame, told};
ghost use Rattle.capture_actions.specs.Names.{GREATEST_CAPTURE};
ghost use Rattle.deformatter.specs.Growth.{goes_on};
ghost use Rattle.deformatter.specs.Reader.{is_live, tail_of, skipped_by};
ghost use Rattle.capture_actions.specs.Port.{port_of};
ghost use Rattle.capture_actions.specs.PortGrowth.{Gained, whole_cells};
ghost use Rattle.trace_io.specs.Bytes.{TakesSome};

use arrayvec::ArrayVec;
use deformatter::{PortReader, PortStep};
use trace_stream::Progress;
use trace_values::{Cell, Fault, FramesMode, SourceId};

/// Reads the bytes of a capture's port, the first of which is at offset 0, and keeps its fault.
#[derive(Drop)]
pub struct CapturePort {
    reader: PortReader,
    count: u64,
    fault: Option<Fault>,
    ghost few: { tail_of reader + skipped_by reader ≤ count },
    ghost alive: { is_live reader ≡ is_none fault },
}

/// The fault that a step tells, if it tells one.
#[inline]
fn fault_in(step: &PortStep) -> Option<Fault>
    ensures fault { option_map told result ≡ fault_by step.now }
    ensures none { is_none result ≡ goes_on step.now }
{
    match step {
        PortStep::Fault(fault) => Some(*fault),
        PortStep::Quiet
        | PortStep::Half
        | PortStep::Full
        | PortStep::Frame
        | PortStep::Locked { .. } => None,
    }
}

impl CapturePort {
    ghost use Rattle.capture_actions.specs.CapturePort.{Stands, IsLive, IsBetween, count_of, frames_mode, id_of};

    /// Nothing is read yet.
    pub fn new(mode: FramesMode) -> CapturePort
        ensures mode { frames_mode result ≡ mode }
        ensures read { Stands result [] }
        ensures count { count_of result ≡ 0 }
        ensures live { IsLive result }
    {
        CapturePort {
            reader: PortReader::new(mode),
            count: 0,
            fault: None,
        }
    }

    /// Only where nothing of a frame or a synchronisation is there, and the reading of frames has begun.
    #[inline]
    pub fn is_between(&self) -> bool
        ensures { IsTrue result → IsBetween self.now }
    {
        self.reader.is_between()
    }

    /// The ID in force.
    #[inline]
    pub fn id(&self) -> Option<SourceId>
        ensures { result ≡ id_of self.now }
    {
        self.reader.id()
    }

    /// Passes over the bytes of a whole frame, which the caller takes, with the half synchronisations between its
    /// halfwords: `bytes` of them in all, and `after` is the ID after them. Nothing of a frame or a synchronisation
    /// may be there.
    #[inline]
    pub fn pass_frame(&mut self, bytes: usize, after: Option<SourceId>)
        requires live { IsLive self.old }
        requires between { IsBetween self.old }
        requires count { count_of self.old + bytes ≤ GREATEST_CAPTURE }
        ensures same { frames_mode self.new ≡ frames_mode self.old }
        ensures count { count_of self.new ≡ count_of self.old + bytes }
        ensures read { (seen w frame : List ℕ) (halves : ℕ) → Stands self.old seen → IsWhole w frame halves →
            length w ≡ bytes → after ≡ id_after frame (id_of self.old) → Stands self.new (seen ++ w) }
        ensures grew { (seen w frame : List ℕ) (halves : ℕ) → Stands self.old seen → IsWhole w frame halves →
            GrowsByFrame (port_of (frames_mode self.old) seen) (port_of (frames_mode self.old) (seen ++ w)) halves
            (whole_cells (length seen) w frame (id_of self.old)) }
        ensures live { IsLive self.new }
    {
        self.reader.pass_frame(after);
        self.count += bytes as u64;
    }

    /// Takes bytes from the front of a piece up to the first with which a frame or a synchronisation ends, or a
    /// fault is certain, or to the piece's end. Where a frame ends, `cells` has its cells afterwards, and else nothing.
    pub fn feed_piece(&mut self, piece: &[u8], cells: &mut ArrayVec<Cell, 15>) -> Progress
        requires live { IsLive self.old }
        requires empty { cells.old.items ≡ [] }
        requires some { 0 < length piece.now }
        requires count { count_of self.old + length piece.now ≤ GREATEST_CAPTURE }
        ensures same { frames_mode self.new ≡ frames_mode self.old }
        ensures front { TakesSome piece.now result.bytes }
        ensures count { count_of self.new ≡ count_of self.old + result.bytes }
        ensures read { (seen : List ℕ) → Stands self.old seen → let next = seen ++ take result.bytes piece.now in
            Stands self.new next × Gained (frames_mode self.old) seen next cells.new.items result.is_faulty }
        ensures live { result.is_faulty ≡ false → IsLive self.new }
    {
        let taken = self.reader.feed_block(self.count, piece, cells);
        self.count += taken.bytes as u64;
        self.fault = fault_in(&taken.step);
        Progress {
            bytes: taken.bytes,
            is_faulty: self.fault.is_some(),
        }
    }

    /// Its fault, if it has one.
    pub fn fault(&self) -> Option<Fault>
        ensures list { (seen : List ℕ) → Stands self.now seen →
            option_map told result ≡ (port_of (frames_mode self.now) seen).fault }
        ensures live { result ≡ None → IsLive self.now }
    {
        self.fault
    }
}
