//! A sink in memory, for tests.

ghost use Rattle.std.specs.Prelude.{Some, ◌≡◌, ◌<◌, ◌≤◌, ◌-◌, ◌^◌, [], length, IfOk};
ghost use Rattle.std.specs.Io.KnownBytes.{WriteAppends};
ghost use Rattle.trace_io.specs.Bytes.{TakesSome};
ghost use Rattle.trace_io.specs.Causes.{HasCause, faults_after};
ghost use Rattle.trace_io.specs.Memory.{WritesAsStated};

use crate::pieces::piece_len;
use crate::sink::Sink;
use crate::source::Failed;
use std::marker::Model;

/// Room in memory that takes bytes in stated pieces, and fails at stated calls and once it is full.
///
/// Call k, from 0, fails exactly where k is in `fail` or the room is full. Else it takes as many
/// bytes of the piece as fit into the room, and at most `pieces[k % pieces.len()]`, where a 0 counts
/// as 1; an empty `pieces` sets no such bound. The numbers of calls and of faults stay at 2^64 - 1
/// once they are there.
#[derive(Drop)]
pub struct MemorySink<'a> {
    room: &'a mut [u8],
    // How many bytes of the room, from its front, are taken.
    filled: usize,
    pieces: &'a [usize],
    fail: &'a [u64],
    calls: u64,
    faults: u64,
}

impl<'a> Model for MemorySink<'a> {
    ghost use Rattle.std.specs.Prelude.{◌≤◌, length, take};
    ghost use Rattle.trace_io.specs.Memory.{SinkState};

    ghost Value = { SinkState };

    ghost view = { λ s. record {
      taken = take s.filled s.room.now;
      room = length s.room.now;
      pieces = s.pieces.now;
      fail = s.fail.now;
      calls = s.calls;
      faults = s.faults;
    } };

    ghost invariant = { λ s. s.filled ≤ length s.room.now };
}

impl<'a> MemorySink<'a> {
    /// A sink that has taken nothing and has had no call. The room is filled from its front.
    pub fn new(room: &'a mut [u8], pieces: &'a [usize], fail: &'a [u64]) -> MemorySink<'a>
        ensures taken { result.taken ≡ [] }
        ensures room { result.room ≡ length room.entry.now }
        ensures pieces { result.pieces ≡ pieces.entry.now }
        ensures fail { result.fail ≡ fail.entry.now }
        ensures calls { result.calls ≡ 0 }
        ensures faults { result.faults ≡ 0 }
    {
        MemorySink {
            room,
            filled: 0,
            pieces,
            fail,
            calls: 0,
            faults: 0,
        }
    }

    /// The bytes taken so far.
    pub fn held(&self) -> &[u8]
        ensures { result.now ≡ self.now.taken }
    {
        &self.room[..self.filled]
    }
}

impl Sink for MemorySink<'_> {
    ghost held = { λ s. Some s.taken };

    ghost faults = { λ s. s.faults };

    fn write(&mut self, piece: &[u8]) -> Result<usize, Failed>
        requires { 0 < length piece.now }
        ensures bound { IfOk result (TakesSome piece.now) }
        ensures bytes { WriteAppends (Some self.old.taken) (Some self.new.taken) result piece.now }
        ensures cause { HasCause self.old.faults self.new.faults result }
        ensures counted { self.new.faults ≡ faults_after result self.old.faults }
        ensures bounded { self.new.faults ≤ 2 ^ 64 - 1 }
        ensures stated { WritesAsStated self.old self.new (length piece.now) result }
    {
        let call = self.calls;
        let faults = self.faults;
        self.calls = call.saturating_add(1);
        let free = self.room.len() - self.filled;
        if free == 0 || self.fail.contains(&call) {
            self.faults = faults.saturating_add(1);
            return Err(Failed);
        }
        let count = piece_len(self.pieces, call, free.min(piece.len()));
        let start = self.filled;
        self.room[start..start + count].copy_from_slice(&piece[..count]);
        self.filled = start + count;
        Ok(count)
    }
}
