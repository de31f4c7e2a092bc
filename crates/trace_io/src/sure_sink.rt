//! A sink that never fails.

ghost use Rattle.std.specs.Prelude.{None, Ok, ◌≡◌, ◌+◌, ◌-◌, ◌^◌, ◌<◌, ◌≤◌, min, length, IfOk};
ghost use Rattle.std.specs.Io.KnownBytes.{WriteAppends};
ghost use Rattle.trace_io.specs.Bytes.{TakesSome};
ghost use Rattle.trace_io.specs.Causes.{HasCause, faults_after};

use crate::sink::Sink;
use crate::source::Failed;
use std::marker::Model;

/// Takes each piece whole and keeps only how many bytes it took, up to 2^64 - 1. It tells nothing of the bytes.
///
/// With it a caller learns how long a text is before it writes it anywhere.
#[derive(Drop)]
pub struct SureSink {
    taken: u64,
}

impl Model for SureSink {
    ghost use Rattle.std.specs.Prelude.{ℕ};

    ghost Value = { ℕ };

    ghost view = { λ s. s.taken };
}

impl SureSink {
    /// A sink that has taken nothing.
    pub fn new() -> SureSink
        ensures { result ≡ 0 }
    {
        SureSink { taken: 0 }
    }

    /// How many bytes it took; at 2^64 - 1 it counts no further.
    pub fn taken(&self) -> u64
        ensures { result ≡ self.now }
    {
        self.taken
    }
}

impl Sink for SureSink {
    ghost held = { λ s. None };

    ghost faults = { λ s. 0 };

    fn write(&mut self, piece: &[u8]) -> Result<usize, Failed>
        requires { 0 < length piece.now }
        ensures bound { IfOk result (TakesSome piece.now) }
        ensures bytes { WriteAppends None None result piece.now }
        ensures cause { HasCause 0 0 result }
        ensures counted { 0 ≡ faults_after result 0 }
        ensures bounded { 0 ≤ 2 ^ 64 - 1 }

        // It fails at no call, takes the whole piece, and counts its bytes.
        ensures count { result ≡ Ok (length piece.now) }
        ensures taken { self.new ≡ min (self.old + length piece.now) (2 ^ 64 - 1) }
    {
        let taken = self.taken;
        self.taken = taken.saturating_add(piece.len() as u64);
        Ok(piece.len())
    }
}
