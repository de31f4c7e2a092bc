//! Sinks over the writers of the standard library.

ghost use Rattle.std.specs.Prelude.{◌≡◌, ◌-◌, ◌^◌, ◌<◌, ◌≤◌, length, IfOk};
ghost use Rattle.std.specs.Io.KnownBytes.{WriteAppends};
ghost use Rattle.trace_io.specs.Adapters.{inner_writer, writer_faults};
ghost use Rattle.trace_io.specs.Bytes.{TakesSome};
ghost use Rattle.trace_io.specs.Causes.{HasCause, faults_after};

use crate::sink::Sink;
use crate::source::Failed;
use std::io::Write;

/// A sink over any writer of std.
///
/// It counts the writer's errors, up to 2^64 - 1, and a write of no bytes as one, since a caller that
/// goes on might never end. It tells of the bytes what the writer tells: over a terminal, a pipe or a
/// file that is nothing.
#[derive(Drop)]
pub struct WriteAdapter<W> {
    inner: W,
    faults: u64,
}

impl<W: Write> WriteAdapter<W> {
    /// A sink over this writer, with no fault so far.
    pub fn new(inner: W) -> Self
        ensures inner { inner_writer result ≡ inner }
        ensures faults { writer_faults result ≡ 0 }
    {
        WriteAdapter { inner, faults: 0 }
    }
}

impl<W: Write> Sink for WriteAdapter<W> {
    ghost held = { λ s. W.contents (inner_writer s) };

    ghost faults = { writer_faults };

    fn write(&mut self, piece: &[u8]) -> Result<usize, Failed>
        requires { 0 < length piece.now }
        ensures bound { IfOk result (TakesSome piece.now) }
        ensures bytes { WriteAppends (W.contents (inner_writer self.old))
            (W.contents (inner_writer self.new)) result piece.now }
        ensures cause { HasCause (writer_faults self.old) (writer_faults self.new) result }
        ensures counted { writer_faults self.new ≡ faults_after result (writer_faults self.old) }
        ensures bounded { writer_faults self.new ≤ 2 ^ 64 - 1 }
    {
        let faults = self.faults;
        match self.inner.write(piece) {
            Ok(count) if count > 0 => Ok(count),
            _ => {
                self.faults = faults.saturating_add(1);
                Err(Failed)
            }
        }
    }
}
