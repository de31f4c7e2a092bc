//! Sources over the readers of the standard library.

ghost use Rattle.std.specs.Prelude.{◌≡◌, ◌-◌, ◌^◌, ◌<◌, ◌≤◌, length};
ghost use Rattle.std.specs.Io.{ReadsAtMost};
ghost use Rattle.std.specs.Io.KnownBytes.{ReadConsumes};
ghost use Rattle.trace_io.specs.Adapters.{inner_reader, reader_faults, reader_empty_reads};
ghost use Rattle.trace_io.specs.Causes.{HasCause, CountsEmpty, faults_after};

use crate::source::{Failed, Source, empty_reads_after};
use std::io::Read;

/// A source over any reader of std.
///
/// It counts the reader's errors and the reads that gave no byte, each up to 2^64 - 1, and tells of the bytes what the
/// reader tells: over a terminal, a pipe or a file that is nothing.
#[derive(Drop)]
pub struct ReadAdapter<R> {
    inner: R,
    faults: u64,
    empty_reads: u64,
}

impl<R: Read> ReadAdapter<R> {
    /// A source over this reader, with no read so far.
    pub fn new(inner: R) -> Self
        ensures inner { inner_reader result ≡ inner }
        ensures faults { reader_faults result ≡ 0 }
        ensures empty_reads { reader_empty_reads result ≡ 0 }
    {
        ReadAdapter {
            inner,
            faults: 0,
            empty_reads: 0,
        }
    }
}

impl<R: Read> Source for ReadAdapter<R> {
    ghost left = { λ s. R.remaining (inner_reader s) };

    ghost faults = { reader_faults };

    ghost empty_reads = { reader_empty_reads };

    fn read(&mut self, buf: &mut [u8]) -> Result<usize, Failed>
        requires { 0 < length buf.old }
        ensures bound { ReadsAtMost result buf.new }
        ensures bytes { ReadConsumes (R.remaining (inner_reader self.old))
            (R.remaining (inner_reader self.new)) result buf.new }
        ensures cause { HasCause (reader_faults self.old) (reader_faults self.new) result }
        ensures counted { reader_faults self.new ≡ faults_after result (reader_faults self.old) }
        ensures bounded { reader_faults self.new ≤ 2 ^ 64 - 1 }
        ensures empty { CountsEmpty result (reader_empty_reads self.old) (reader_empty_reads self.new) }
    {
        let faults = self.faults;
        let empty_reads = self.empty_reads;
        match self.inner.read(buf) {
            Ok(count) => {
                self.empty_reads = empty_reads_after(empty_reads, count);
                Ok(count)
            }
            Err(_) => {
                self.faults = faults.saturating_add(1);
                self.empty_reads = empty_reads.saturating_add(1);
                Err(Failed)
            }
        }
    }
}
