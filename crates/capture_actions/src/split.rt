//! `split`: the bytes of one ID in the cells of a port.

ghost use Rattle.std.specs.Prelude.{◌≡◌, ◌+◌, ◌≤◌, ◌++◌, length, option_map};
ghost use Rattle.capture_actions.specs.Names.{OUTLET_ROOM, is_source, told};
ghost use Rattle.capture_actions.specs.CapturePort.{frames_mode};
ghost use Rattle.capture_actions.specs.Split.{bytes_of_id};

use crate::port::CapturePort;
use crate::split_plan::SplitPlan;
use arrayvec::ArrayVec;
use frame_grammar::frame::FRAME_BYTES;
use frame_grammar::gather::gather_frame_at;
use frame_grammar::plain::plain_frame;
use frame_grammar::source_bytes::copy_source_bytes;
use trace_stream::{Action, Outlet, Progress};
use trace_values::{Cell, Fault, SourceId};

/// The reading of a port, and whose bytes of it are written.
#[derive(Drop)]
pub struct Split {
    plan: SplitPlan,
    port: CapturePort,
    ghost moded: { frames_mode port ≡ plan.frames },
}

/// The cell is of this source.
fn is_of(cell: &Cell, id: SourceId) -> bool
    ensures { result ≡ is_source id cell.now.id }
{
    match cell.id {
        Some(other) => other.number() == id.number(),
        None => false,
    }
}

/// Puts out the bytes of the cells of this source.
fn put_cells(outlet: &mut Outlet, id: SourceId, cells: &[Cell])
    requires room { length outlet.old + length cells.now ≤ OUTLET_ROOM }
    ensures { outlet.new ≡ outlet.old ++ bytes_of_id id cells.now }
{
    for cell in cells {
        if is_of(cell, id) {
            outlet.push(cell.byte);
        }
    }
}

impl Split {
    ghost use Rattle.std.specs.Prelude.{[], ℕ, List, ◌*◌, ◌<◌, take, false};
    ghost use Rattle.trace_io.specs.Bytes.{TakesSome};
    ghost use Rattle.trace_stream.specs.Taken.{HasTaken, Turn};
    ghost use Rattle.trace_stream.specs.declared.limits.TheConstants.{GREATEST_CAPTURE};
    ghost use Rattle.trace_stream.specs.declared.action.TheConstants.{ACTION_ROOM};
    ghost use Rattle.frame_grammar.specs.Whole.{IsWhole};
    ghost use Rattle.frame_grammar.specs.declared.frame.TheConstants.{FRAME_BYTES};
    ghost use Rattle.capture_actions.specs.CapturePort.{IsBetween};
    ghost use Rattle.capture_actions.specs.Port.{port_of};
    ghost use Rattle.capture_actions.specs.Split.{split_meaning};
    ghost use Rattle.capture_actions.specs.Splitter.{Stands, plan_of, taken_by, IsLive};

    /// Nothing is read yet.
    pub fn new(plan: SplitPlan) -> Split
        ensures plan { plan_of result ≡ plan }
        ensures stands { Stands result [] }
        ensures count { taken_by result ≡ 0 }
        ensures live { IsLive result }
    {
        Split {
            plan,
            port: CapturePort::new(plan.frames),
        }
    }

    /// Takes a whole frame with this many half synchronisations between its halfwords.
    #[inline]
    fn feed_frame(
        &mut self,
        frame: &[u8; FRAME_BYTES],
        halves: usize,
        outlet: &mut Outlet,
    ) -> Progress
        requires live { IsLive self.old }
        requires between { IsBetween self.old.port }
        requires room { length outlet.old + ACTION_ROOM ≤ OUTLET_ROOM }
        requires count { taken_by self.old + (FRAME_BYTES + 2 * halves) ≤ GREATEST_CAPTURE }
        ensures same { plan_of self.new ≡ plan_of self.old }
        ensures taken { result ≡ record { bytes = FRAME_BYTES + 2 * halves; is_faulty = false } }
        ensures count { taken_by self.new ≡ taken_by self.old + (FRAME_BYTES + 2 * halves) }
        ensures fed { (seen w : List ℕ) → Stands self.old seen → IsWhole w frame.now halves →
            let turn : Turn = record { seen = seen; front = w; before = outlet.old; after = outlet.new } in
            HasTaken (Stands self.new) (split_meaning (plan_of self.old)) turn false }
        ensures live { IsLive self.new }
    {
        let mut bytes = [0; FRAME_BYTES];
        let copied = copy_source_bytes(frame, self.port.id(), self.plan.id, &mut bytes);
        outlet.append_front(&bytes, copied.len);
        let size = FRAME_BYTES + 2 * halves;
        self.port.pass_frame(size, copied.after);
        Progress {
            bytes: size,
            is_faulty: false,
        }
    }

    /// Takes the piece's bytes up to the end of a frame or a synchronisation.
    fn feed_bytes(&mut self, piece: &[u8], outlet: &mut Outlet) -> Progress
        requires live { IsLive self.old }
        requires some { 0 < length piece.now }
        requires room { length outlet.old + ACTION_ROOM ≤ OUTLET_ROOM }
        requires count { taken_by self.old + length piece.now ≤ GREATEST_CAPTURE }
        ensures same { plan_of self.new ≡ plan_of self.old }
        ensures front { TakesSome piece.now result.bytes }
        ensures count { taken_by self.new ≡ taken_by self.old + result.bytes }
        ensures fed { (seen : List ℕ) → Stands self.old seen →
            let front = take result.bytes piece.now in
            let turn : Turn = record { seen = seen; front = front; before = outlet.old; after = outlet.new } in
            HasTaken (Stands self.new) (split_meaning (plan_of self.old)) turn result.is_faulty }
        ensures live { result.is_faulty ≡ false → IsLive self.new }
    {
        let mut cells = ArrayVec::<Cell, 15>::new();
        let taken = self.port.feed_piece(piece, &mut cells);
        put_cells(outlet, self.plan.id, cells.as_slice());
        taken
    }

    /// The port's fault, if it has one.
    pub fn fault(&self) -> Option<Fault>
        ensures { (seen : List ℕ) → Stands self.now seen →
            option_map told result ≡ (port_of (plan_of self.now).frames seen).fault }
    {
        self.port.fault()
    }
}

impl Action for Split {
    ghost use Rattle.capture_actions.specs.Split.{split_meaning};
    ghost use Rattle.capture_actions.specs.Splitter.{Stands, plan_of, taken_by, IsLive};
    ghost use Rattle.capture_actions.specs.SplitLaws.{split_lawful};

    type Plan = SplitPlan;

    ghost plan = { plan_of };

    ghost live = { IsLive };

    ghost taken = { taken_by };

    ghost stands = { Stands };

    ghost meaning = { split_meaning };

    ghost lawful = { split_lawful };

    #[inline]
    fn pour(&mut self, _outlet: &mut Outlet) -> bool {
        false
    }

    /// Takes a whole frame at once where one is there, and else the piece's bytes up to the end of a frame or a
    /// synchronisation.
    fn feed(&mut self, piece: &[u8], outlet: &mut Outlet, _notes: &mut Outlet) -> Progress {
        if self.port.is_between() {
            if let Some(frame) = plain_frame(piece) {
                return self.feed_frame(frame, 0, outlet);
            }
            if let Some(gathered) = gather_frame_at(0, piece) {
                return self.feed_frame(&gathered.bytes, gathered.halves, outlet);
            }
        }
        self.feed_bytes(piece, outlet)
    }

    fn finish(&mut self, _outlet: &mut Outlet) {}

    fn is_due(&self) -> bool {
        false
    }
}
