//! The bytes of a run.

ghost use Rattle.std.specs.Prelude.{◌≡◌, ◌≤◌, ℕ, List, length};
ghost use Rattle.source_events.specs.Runs.{bytes_of};

use arrayvec::ArrayVec;
use std::marker::Model;
use trace_values::Cell;

/// The bytes of one run of a frame, at most 15.
#[derive(Debug, Drop)]
pub struct RunBytes {
    bytes: ArrayVec<u8, 15>,
}

impl Model for RunBytes {
    ghost Value = { List ℕ };

    ghost view = { λ b. b.bytes.items };

    ghost invariant = { λ b. length b.bytes.items ≤ 15 };
}

impl RunBytes {
    /// These bytes.
    pub fn new(run: &[u8]) -> RunBytes
        requires { length run.now ≤ 15 }
        ensures { result ≡ run.now }
    {
        let mut bytes = ArrayVec::new();
        for byte in run {
            bytes.push(*byte);
        }
        RunBytes { bytes }
    }

    /// Those of the cells of a run.
    pub fn of(run: &[Cell]) -> RunBytes
        requires { length run.now ≤ 15 }
        ensures { result ≡ bytes_of run.now }
    {
        let mut bytes = ArrayVec::new();
        for cell in run {
            bytes.push(cell.byte);
        }
        RunBytes { bytes }
    }

    /// The bytes, in order.
    pub fn as_slice(&self) -> &[u8]
        ensures value { result.now ≡ self.now }
        ensures few { length result.now ≤ 15 }
    {
        self.bytes.as_slice()
    }
}
