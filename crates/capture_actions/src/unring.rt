//! The action `unring`.

ghost use Rattle.std.specs.Prelude.{◌≡◌, ◌==◌, ◌≤◌, ◌<◌, ◌^◌, ℕ, List, [], length, false, IfOk};
ghost use Rattle.buffer_ring.specs.Buffer.{size_of};

use crate::unring_plan::UnringPlan;
use buffer_ring::{TraceBuffer, ordered};
use std::alloc::{AllocError, Global};
use trace_stream::{Action, Outlet, Progress, put_owed};

/// Takes all bytes into a trace buffer. Where they are as many as its size they are an image, and at their end it owes
/// them in order: from the pointer on and then up to it where the image is full, and else up to the pointer. Other
/// bytes are no image, and nothing is owed.
#[derive(Drop)]
pub struct Unring {
    buffer: TraceBuffer,
    pointer: usize,
    full: bool,
    // How many of the last of the ordered bytes are still to be put.
    owed: usize,
    ghost within: { pointer < size_of buffer },
    ghost few: { owed ≤ size_of buffer },
    ghost front: { full ≡ false → owed ≤ pointer },
}

impl Unring {
    ghost use Rattle.buffer_ring.specs.Image.{ordered};
    ghost use Rattle.capture_actions.specs.Unring.{Stands, plan_of, taken_by, debt_of, ordered_of};
    ghost use Rattle.capture_actions.specs.Names.{Paid};

    /// Over a buffer that took nothing yet, for an image of 16 to 2^24 bytes with this pointer, which is full or not.
    /// It takes all its memory here, and fails only for want of it.
    pub fn open(
        alloc: Global,
        size: usize,
        pointer: usize,
        full: bool,
    ) -> Result<Unring, AllocError>
        requires least { 16 ≤ size }
        requires most { size ≤ 2 ^ 24 }
        requires within { pointer < size }
        ensures plan { IfOk result (λ u. plan_of u ≡ record { size = size; pointer = pointer; full = full }) }
        ensures fresh { IfOk result (λ u. Stands u [] × (taken_by u ≡ 0) × (debt_of u ≡ Paid)) }
    {
        let buffer = TraceBuffer::new(alloc, size)?;
        Ok(Unring {
            buffer,
            pointer,
            full,
            owed: 0,
        })
    }

    /// Whether as many bytes were taken as an image has.
    pub fn is_image(&self) -> bool
        ensures { (seen : List ℕ) → Stands self.now seen → result ≡ (length seen == (plan_of self.now).size) }
    {
        self.buffer.is_full() && self.buffer.dropped() == 0
    }

    /// How many bytes an image has.
    pub fn size(&self) -> usize
        ensures { result ≡ (plan_of self.now).size }
    {
        self.buffer.image().len()
    }

    // How many bytes an image has in order.
    fn ordered_len(&self) -> usize
        ensures len { result ≡ length (ordered_of self.now) }
        ensures few { result ≤ size_of self.now.buffer }
        ensures front { self.now.full ≡ false → result ≤ self.now.pointer }
        ensures exact { (seen : List ℕ) → Stands self.now seen → length seen ≡ size_of self.now.buffer →
            ordered_of self.now ≡ ordered seen self.now.pointer self.now.full }
    {
        let image = self.buffer.image();
        if self.full { image.len() } else { self.pointer }
    }
}

impl Action for Unring {
    ghost use Rattle.buffer_ring.specs.Image.{ordered};
    ghost use Rattle.capture_actions.specs.Unring.{Stands, plan_of, taken_by, debt_of, in_order};
    ghost use Rattle.capture_actions.specs.Unring.{unring_meaning};
    ghost use Rattle.capture_actions.specs.RingLaws.{at_end_lawful};

    type Plan = UnringPlan;

    ghost plan = { plan_of };

    ghost taken = { taken_by };

    ghost stands = { Stands };

    ghost debt = { debt_of };

    ghost meaning = { unring_meaning };

    ghost lawful = { λ plan. at_end_lawful (in_order plan) };

    fn pour(&mut self, outlet: &mut Outlet) -> bool {
        let was_owed = self.owed > 0;
        let (first, second) = ordered(self.buffer.image(), self.pointer, self.full);
        self.owed = put_owed(first, second, self.owed, outlet);
        was_owed
    }

    /// Takes the whole piece.
    fn feed(&mut self, piece: &[u8], _outlet: &mut Outlet, _notes: &mut Outlet) -> Progress {
        self.buffer.push_all(piece);
        Progress {
            bytes: piece.len(),
            is_faulty: false,
        }
    }

    fn finish(&mut self, _outlet: &mut Outlet) {
        if self.is_image() {
            self.owed = self.ordered_len();
        }
    }

    fn is_due(&self) -> bool {
        false
    }
}
