//! What is counted of the port of a recovering engine.

ghost use Rattle.std.specs.Prelude.{◌≡◌, ◌+◌, ◌≤◌, length};
ghost use Rattle.trace_values.specs.declared.limits.TheConstants.{COUNT_ROOM};

use deformatter::PortStep;
use frame_grammar::frame::FRAME_BYTES;
use source_counts::{Counts, SourceCounts};
use source_events::PortCounts;
use trace_values::{Cell, SourceId};

/// What each source has in the frames of all stretches, and how many synchronisations these have.
#[derive(Drop)]
pub struct PortTotals {
    frames: SourceCounts,
    fulls: u64,
    halves: u64,
}

impl PortTotals {
    ghost use Rattle.std.specs.Prelude.{[], ℕ, List};
    ghost use Rattle.frame_grammar.specs.Frame.{cells, id_after};
    ghost use Rattle.trace_values.specs.declared.reading_modes.FramesMode.{FramesMode};
    ghost use Rattle.deformatter.specs.Runs.{HaveRuns};
    ghost use Rattle.source_counts.specs.Counts.{bytes_of, items_of, unattributed_of};
    ghost use Rattle.recovery_report.specs.Counts.{CountsGrow};
    ghost use Rattle.recovery_report.specs.Port.{PortStretches, frames_of, fulls_of, halves_of, recovered};
    ghost use Rattle.recovery_engine.specs.Counting.{GrowsByFrame, HasCounted, counted_of};

    /// Nothing came yet.
    pub fn new() -> PortTotals
        ensures fresh { (mode : FramesMode) → HasCounted result (recovered mode []) }
        ensures none { counted_of result ≡ 0 }
    {
        PortTotals {
            frames: SourceCounts::new(),
            fulls: 0,
            halves: 0,
        }
    }

    /// Counts what a step of the port ends: a frame of these cells, or a synchronisation.
    pub fn add_step(&mut self, step: &PortStep, cells: &[Cell])
        requires size { length cells.now ≤ 15 }
        requires room { counted_of self.old + 16 ≤ COUNT_ROOM }
        ensures counted { (old new : PortStretches) → CountsGrow old new step.now cells.now → HaveRuns (frames_of new) →
            HasCounted self.old old → HasCounted self.new new }
        ensures more { counted_of self.new ≤ counted_of self.old + 16 }
    {
        match step {
            PortStep::Frame => self.frames.add_frame(cells),
            PortStep::Full | PortStep::Locked { .. } => self.fulls += 1,
            PortStep::Half => self.halves += 1,
            PortStep::Quiet | PortStep::Fault(_) => {}
        }
    }

    /// Counts a frame by its bytes, with this many half synchronisations between its halfwords. `before` is the ID
    /// before it, and the answer the ID after it.
    pub fn add_frame(
        &mut self,
        frame: &[u8; FRAME_BYTES],
        halves: usize,
        before: Option<SourceId>,
    ) -> Option<SourceId>
        requires room { counted_of self.old + FRAME_BYTES + halves ≤ COUNT_ROOM }
        ensures counted { (old new : PortStretches) (at : List ℕ) →
            GrowsByFrame old new halves (cells frame.now at before) → HasCounted self.old old →
            HasCounted self.new new }
        ensures after { result ≡ id_after frame.now before }
        ensures more { counted_of self.new ≤ counted_of self.old + FRAME_BYTES + halves }
    {
        self.halves += halves as u64;
        self.frames.add_frame_bytes(frame, before)
    }

    /// How many bytes a source has, and how many items where it is not mapped.
    pub fn of(&self, id: SourceId) -> Counts
        ensures value { (r : PortStretches) → HasCounted self.now r →
            result ≡ record { bytes = bytes_of id (frames_of r); items = items_of id (frames_of r) } }
        ensures few { (result.bytes ≤ counted_of self.now) × (result.items ≤ counted_of self.now) }
    {
        self.frames.of(id)
    }

    /// How many bytes of frames have no source.
    pub fn unattributed(&self) -> u64
        ensures { (r : PortStretches) → HasCounted self.now r → result ≡ unattributed_of (frames_of r) }
    {
        self.frames.unattributed()
    }

    /// How many synchronisations and frames there are.
    pub fn port_counts(&self) -> PortCounts
        ensures { (r : PortStretches) → HasCounted self.now r →
            result ≡ record { fulls = fulls_of r; halves = halves_of r; frames = length (frames_of r) } }
    {
        PortCounts {
            fulls: self.fulls,
            halves: self.halves,
            frames: self.frames.frames(),
        }
    }
}
