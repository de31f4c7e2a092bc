//! The runs of a frame.

ghost use Rattle.std.specs.Prelude.{◌≡◌, ◌<◌, ◌≤◌, length};
ghost use Rattle.source_events.specs.Runs.{run_length};

use trace_values::Cell;

/// How many of a frame's first cells are one run.
pub fn run_length(cells: &[Cell]) -> usize
    requires { 0 < length cells.now }
    ensures value { result ≡ run_length cells.now }
    ensures some { 0 < result }
    ensures within { result ≤ length cells.now }
{
    let mut n = 1;
    while n < cells.len() {
        if cells[n].run != cells[n - 1].run {
            return n;
        }
        n += 1;
    }
    n
}
