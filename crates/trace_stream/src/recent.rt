//! The last bytes that were fed.

ghost use Rattle.std.specs.Prelude.{◌≡◌, ℕ, ◌≤◌, List, [], ◌++◌, length, take, IfOk};
ghost use Rattle.trace_stream.specs.Recent.{last_sixteen};
ghost use Rattle.trace_stream.specs.declared.recent.TheConstants.{RECENT_ROOM};

use circular_buffer::HeapCircularBuffer;
use std::alloc::{AllocError, Global};
use std::marker::Model;

/// How many of the last bytes are kept: `last_sixteen` in the definitions.
pub const RECENT_ROOM: usize = 16;

/// The last bytes that were fed, at most `RECENT_ROOM`, from the oldest to the newest.
#[derive(Drop)]
pub struct Recent {
    bytes: HeapCircularBuffer<u8>,
}

impl Model for Recent {
    ghost Value = { List ℕ };

    ghost view = { λ r. r.bytes.items };

    ghost invariant = { λ r. r.bytes.capacity ≡ RECENT_ROOM };
}

impl Recent {
    /// No bytes yet, with the memory for all: no later call allocates.
    pub fn open(alloc: Global) -> Result<Recent, AllocError>
        ensures { IfOk result (λ r. r ≡ []) }
    {
        let bytes = HeapCircularBuffer::with_capacity(alloc, RECENT_ROOM)?;
        Ok(Recent { bytes })
    }

    /// Keeps the last of the bytes so far and these. Of a long piece only the last `RECENT_ROOM` bytes
    /// are touched.
    pub fn keep(&mut self, bytes: &[u8])
        ensures { self.new ≡ last_sixteen (self.old ++ bytes.now) }
    {
        self.bytes.extend_from_slice(bytes);
    }

    /// Copies the bytes to the front of `into`, from the oldest to the newest, and answers their
    /// number.
    pub fn copy_to(&self, into: &mut [u8; RECENT_ROOM]) -> usize
        ensures count { result ≡ length self.now }
        ensures bound { result ≤ RECENT_ROOM }
        ensures bytes { take result into.new ≡ self.now }
    {
        let _room = self.bytes.capacity();
        let (older, newer) = self.bytes.as_slices();
        let count = older.len() + newer.len();
        into[..older.len()].copy_from_slice(older);
        into[older.len()..count].copy_from_slice(newer);
        count
    }
}
