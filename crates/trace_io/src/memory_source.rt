//! A source in memory, for tests.

ghost use Rattle.std.specs.Prelude.{Some, ◌≡◌, ◌-◌, ◌^◌, ◌<◌, ◌≤◌, [], length};
ghost use Rattle.std.specs.Io.{ReadsAtMost};
ghost use Rattle.std.specs.Io.KnownBytes.{ReadConsumes};
ghost use Rattle.trace_io.specs.Causes.{HasCause, CountsEmpty, faults_after};
ghost use Rattle.trace_io.specs.Memory.{ReadsAsStated};

use crate::pieces::piece_len;
use crate::source::{Failed, Source, empty_reads_after};
use std::marker::Model;

/// Bytes in memory that come in stated pieces and fail at stated calls.
///
/// Call k, from 0, fails exactly where k is in `fail`. Else it gives as many bytes as are left and
/// fit, and at most `pieces[k % pieces.len()]`, where a 0 counts as 1; an empty `pieces` sets no such
/// bound. The numbers of calls, of faults and of calls that gave no byte stay at 2^64 - 1 once they are
/// there.
#[derive(Drop)]
pub struct MemorySource<'a> {
    // What is still to come.
    bytes: &'a [u8],
    pieces: &'a [usize],
    fail: &'a [u64],
    calls: u64,
    faults: u64,
    empty_reads: u64,
}

impl<'a> Model for MemorySource<'a> {
    ghost use Rattle.trace_io.specs.Memory.{SourceState};

    ghost Value = { SourceState };

    ghost view = { λ s. record {
      left = s.bytes.now;
      pieces = s.pieces.now;
      fail = s.fail.now;
      calls = s.calls;
      faults = s.faults;
      empty_reads = s.empty_reads;
    } };
}

impl<'a> MemorySource<'a> {
    /// A source of these bytes that has had no call.
    pub fn new(bytes: &'a [u8], pieces: &'a [usize], fail: &'a [u64]) -> MemorySource<'a>
        ensures left { result.left ≡ bytes.entry.now }
        ensures pieces { result.pieces ≡ pieces.entry.now }
        ensures fail { result.fail ≡ fail.entry.now }
        ensures calls { result.calls ≡ 0 }
        ensures faults { result.faults ≡ 0 }
        ensures empty_reads { result.empty_reads ≡ 0 }
    {
        MemorySource {
            bytes,
            pieces,
            fail,
            calls: 0,
            faults: 0,
            empty_reads: 0,
        }
    }
}

impl Source for MemorySource<'_> {
    ghost left = { λ s. Some s.left };

    ghost faults = { λ s. s.faults };

    ghost empty_reads = { λ s. s.empty_reads };

    fn read(&mut self, buf: &mut [u8]) -> Result<usize, Failed>
        requires { 0 < length buf.old }
        ensures bound { ReadsAtMost result buf.new }
        ensures bytes { ReadConsumes (Some self.old.left) (Some self.new.left) result buf.new }
        ensures cause { HasCause self.old.faults self.new.faults result }
        ensures counted { self.new.faults ≡ faults_after result self.old.faults }
        ensures bounded { self.new.faults ≤ 2 ^ 64 - 1 }
        ensures empty { CountsEmpty result self.old.empty_reads self.new.empty_reads }
        ensures stated { ReadsAsStated self.old self.new (length buf.old) result }
    {
        let call = self.calls;
        let faults = self.faults;
        let empty_reads = self.empty_reads;
        self.calls = call.saturating_add(1);
        if self.fail.contains(&call) {
            self.faults = faults.saturating_add(1);
            self.empty_reads = empty_reads.saturating_add(1);
            return Err(Failed);
        }
        let count = piece_len(self.pieces, call, self.bytes.len().min(buf.len()));
        self.empty_reads = empty_reads_after(empty_reads, count);
        let (front, rest) = self.bytes.split_at(count);
        buf[..count].copy_from_slice(front);
        self.bytes = rest;
        Ok(count)
    }
}
