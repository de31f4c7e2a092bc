//! The memory of a run.

ghost use Rattle.std.specs.Prelude.{◌≡◌, ℕ, ◌≤◌, List, [], length, take, IfOk};

use crate::outlet::Outlet;
use crate::recent::{RECENT_ROOM, Recent};
use std::alloc::{AllocError, Global};
use std::marker::Model;

/// All the memory of a run: a read buffer of 16,384 bytes, an outlet, the last bytes that were fed, and an outlet of
/// notes, in which nothing is pending between calls.
/// Contracts see the bytes that are still to be written, as `pending`, and those last bytes, as
/// `recent`.
#[derive(Drop)]
pub struct Buffers {
    pub(crate) input: Vec<u8>,
    pub(crate) outlet: Outlet,
    pub(crate) recent: Recent,
    pub(crate) lines: Outlet,
}

impl Model for Buffers {
    ghost use Rattle.std.specs.Prelude.{◌≡◌, [], length};
    ghost use Rattle.trace_stream.specs.BuffersState.{BuffersState};

    ghost Value = { BuffersState };

    ghost view = { λ b. record { pending = b.outlet; recent = b.recent } };

    ghost invariant = { λ b. (length b.input.items ≡ 16384) × (b.lines ≡ []) };
}

impl Buffers {
    /// Takes the memory of a run: `serve` allocates nothing. What an action needs beside it, as a trace buffer, it
    /// takes itself.
    pub fn open(alloc: Global) -> Result<Buffers, AllocError>
        ensures { IfOk result (λ b. (b.pending ≡ []) × (b.recent ≡ [])) }
    {
        let input = vec![in alloc; 0; 16384]?;
        let outlet = Outlet::open(alloc)?;
        let recent = Recent::open(alloc)?;
        let lines = Outlet::open(alloc)?;
        Ok(Buffers {
            input,
            outlet,
            recent,
            lines,
        })
    }

    /// Copies the last bytes that were fed, at most `RECENT_ROOM`, to the front of `into`, from the
    /// oldest to the newest, and answers how many they are.
    pub fn recent(&self, into: &mut [u8; RECENT_ROOM]) -> usize
        ensures count { result ≡ length self.now.recent }
        ensures bound { result ≤ RECENT_ROOM }
        ensures bytes { take result into.new ≡ self.now.recent }
    {
        self.recent.copy_to(into)
    }
}
