//! The action `ring`.

ghost use Rattle.std.specs.Prelude.{◌≡◌, ◌≤◌, ◌^◌, ℕ, List, [], IfOk};
ghost use Rattle.buffer_ring.specs.Buffer.{size_of};

use buffer_ring::TraceBuffer;
use std::alloc::{AllocError, Global};
use trace_stream::{Action, Outlet, Progress, put_owed};

/// Takes all bytes into a trace buffer, and at their end owes the buffer's image.
#[derive(Drop)]
pub struct Ring {
    buffer: TraceBuffer,
    // How many of the image's last bytes are still to be put.
    owed: usize,
    ghost few: { owed ≤ size_of buffer },
}

impl Ring {
    ghost use Rattle.capture_actions.specs.Ring.{Stands, plan_of, buffer_of, taken_by, debt_of};
    ghost use Rattle.capture_actions.specs.Names.{Paid};

    /// Over a buffer of this many bytes, 16 to 2^24, that took nothing yet. It takes all its memory here, and fails
    /// only for want of it.
    pub fn open(alloc: Global, size: usize) -> Result<Ring, AllocError>
        requires least { 16 ≤ size }
        requires most { size ≤ 2 ^ 24 }
        ensures plan { IfOk result (λ r. plan_of r ≡ size) }
        ensures fresh { IfOk result (λ r. Stands r [] × (taken_by r ≡ 0) × (debt_of r ≡ Paid)) }
    {
        let buffer = TraceBuffer::new(alloc, size)?;
        Ok(Ring { buffer, owed: 0 })
    }

    /// The buffer, which took all bytes that were fed.
    pub fn buffer(&self) -> &TraceBuffer
        ensures { result.now ≡ buffer_of self.now }
    {
        &self.buffer
    }
}

impl Action for Ring {
    ghost use Rattle.capture_actions.specs.Ring.{Stands, plan_of, taken_by, debt_of, ring_meaning};
    ghost use Rattle.capture_actions.specs.RingLaws.{at_end_lawful};
    ghost use Rattle.buffer_ring.specs.Image.{image};

    // the size
    type Plan = usize;

    ghost plan = { plan_of };

    ghost taken = { taken_by };

    ghost stands = { Stands };

    ghost debt = { debt_of };

    ghost meaning = { ring_meaning };

    ghost lawful = { λ size. at_end_lawful (image size) };

    fn pour(&mut self, outlet: &mut Outlet) -> bool {
        let was_owed = self.owed > 0;
        self.owed = put_owed(self.buffer.image(), &[], self.owed, outlet);
        was_owed
    }

    /// Takes the whole piece.
    fn feed(&mut self, piece: &[u8], _outlet: &mut Outlet, _notes: &mut Outlet) -> Progress {
        self.buffer.push_all(piece);
        Progress {
            bytes: piece.len(),
            is_faulty: false,
        }
    }

    fn finish(&mut self, _outlet: &mut Outlet) {
        self.owed = self.buffer.image().len();
    }

    fn is_due(&self) -> bool {
        false
    }
}
