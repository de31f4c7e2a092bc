//! A sink over memory that its caller lends.

ghost use Rattle.std.specs.Prelude.{Some, ◌≡◌, ◌<◌, ◌≤◌, ◌+◌, ◌-◌, ◌^◌, ◌∷◌, ◌++◌, [], length, take, min, IfOk};
ghost use Rattle.std.specs.Io.KnownBytes.{WriteAppends};
ghost use Rattle.trace_io.specs.Bytes.{TakesSome};
ghost use Rattle.trace_io.specs.Causes.{HasCause, faults_after};

use trace_io::{Failed, Sink};

/// Room in memory that takes bytes from its front on. A write fails only where the room is full.
///
/// What it tells of its bytes begins with the name that proofs have for the borrow: so that whoever lent it still
/// knows, after a call that writes to any sink, that these bytes are in the memory that was lent.
#[derive(Drop)]
pub(crate) struct MemoryRoom<'a> {
    room: &'a mut [u8],
    filled: usize,
    faults: u64,
    ghost fits: { filled ≤ length room.now },
    ghost full: { 0 < faults → filled ≡ length room.now },
}

impl<'a> MemoryRoom<'a> {
    /// The room, of which nothing is taken.
    pub(crate) fn new(room: &'a mut [u8]) -> MemoryRoom<'a>
        ensures same_reference { result.room.ghost_name ≡ room.entry.ghost_name }
        ensures filled { result.filled ≡ 0 }
        ensures faults { result.faults ≡ 0 }
        ensures size { length result.room.now ≡ length room.old }
    {
        MemoryRoom {
            room,
            filled: 0,
            faults: 0,
        }
    }

    /// How many bytes of the room are taken, which has this size in all.
    ///
    /// A write that failed had found the room full.
    pub(crate) fn taken(&self, size: usize) -> usize
        ensures failed { 0 < self.now.faults → result ≡ size }
        ensures kept { self.now.faults ≡ 0 → result ≡ min self.now.filled size }
    {
        if self.faults > 0 {
            return size;
        }
        self.filled.min(size)
    }
}

/// Copies as much of the piece as fits after what is filled, and gives how many bytes that is.
fn fill(room: &mut [u8], filled: usize, piece: &[u8]) -> usize
    requires { filled ≤ length room.old }
    ensures count { result ≡ min (length room.old - filled) (length piece.now) }
    ensures bytes { take (filled + result) room.new ≡ take filled room.old ++ take result piece.now }
{
    let count = (room.len() - filled).min(piece.len());
    room[filled..filled + count].copy_from_slice(&piece[..count]);
    count
}

impl Sink for MemoryRoom<'_> {
    ghost held = { λ s. Some (s.room.ghost_name ∷ take s.filled s.room.now) };

    ghost faults = { λ s. s.faults };

    fn write(&mut self, piece: &[u8]) -> Result<usize, Failed>
        requires { 0 < length piece.now }
        ensures bound { IfOk result (TakesSome piece.now) }
        ensures bytes { WriteAppends (Some (self.old.room.ghost_name ∷ take self.old.filled self.old.room.now))
            (Some (self.new.room.ghost_name ∷ take self.new.filled self.new.room.now)) result piece.now }
        ensures cause { HasCause self.old.faults self.new.faults result }
        ensures counted { self.new.faults ≡ faults_after result self.old.faults }
        ensures bounded { self.new.faults ≤ 2 ^ 64 - 1 }
    {
        let filled = self.filled;
        let faults = self.faults;
        let count = fill(self.room, filled, piece);
        if count == 0 {
            self.faults = faults.saturating_add(1);
            return Err(Failed);
        }
        self.filled = filled + count;
        Ok(count)
    }
}
