//! A source that never fails.

ghost use Rattle.std.specs.Prelude.{Some, Ok, ◌≡◌, ◌-◌, ◌^◌, ◌<◌, ◌≤◌, min, length};
ghost use Rattle.std.specs.Io.{ReadsAtMost};
ghost use Rattle.std.specs.Io.KnownBytes.{ReadConsumes};
ghost use Rattle.trace_io.specs.Causes.{HasCause, CountsEmpty, faults_after};

use crate::source::{Failed, Source, empty_reads_after};
use std::marker::Model;

/// Bytes in memory that come as fast as they are asked for: each call gives as many as are left and fit.
///
/// It counts the calls that gave no byte, up to 2^64 - 1.
#[derive(Drop)]
pub struct SureSource<'a> {
    // What is still to come.
    bytes: &'a [u8],
    empty_reads: u64,
}

impl<'a> Model for SureSource<'a> {
    ghost use Rattle.trace_io.specs.Sure.{SureState};

    ghost Value = { SureState };

    ghost view = { λ s. record { left = s.bytes.now; empty_reads = s.empty_reads } };
}

impl<'a> SureSource<'a> {
    /// A source of these bytes that has had no call.
    pub fn new(bytes: &'a [u8]) -> SureSource<'a>
        ensures left { result.left ≡ bytes.entry.now }
        ensures empty_reads { result.empty_reads ≡ 0 }
    {
        SureSource {
            bytes,
            empty_reads: 0,
        }
    }
}

impl Source for SureSource<'_> {
    ghost left = { λ s. Some s.left };

    ghost faults = { λ s. 0 };

    ghost empty_reads = { λ s. s.empty_reads };

    fn read(&mut self, buf: &mut [u8]) -> Result<usize, Failed>
        requires { 0 < length buf.old }
        ensures bound { ReadsAtMost result buf.new }
        ensures bytes { ReadConsumes (Some self.old.left) (Some self.new.left) result buf.new }
        ensures cause { HasCause 0 0 result }
        ensures counted { 0 ≡ faults_after result 0 }
        ensures bounded { 0 ≤ 2 ^ 64 - 1 }
        ensures empty { CountsEmpty result self.old.empty_reads self.new.empty_reads }

        // It fails at no call, and gives what it can.
        ensures count { result ≡ Ok (min (length self.old.left) (length buf.old)) }
    {
        let empty_reads = self.empty_reads;
        let count = self.bytes.len().min(buf.len());
        self.empty_reads = empty_reads_after(empty_reads, count);
        let (front, rest) = self.bytes.split_at(count);
        buf[..count].copy_from_slice(front);
        self.bytes = rest;
        Ok(count)
    }
}
