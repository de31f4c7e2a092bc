//! The bytes of a run, and where they are.

ghost use Rattle.std.specs.Prelude.{◌≡◌, ◌+◌, ◌≤◌, ◌<◌, List, length, take, get_or};
ghost use Rattle.source_events.specs.Runs.{bytes_of};
ghost use Rattle.source_machine.specs.declared.machine.TheConstants.{AHEAD};
ghost use Rattle.trace_values.specs.declared.cell.Cell.{Cell};
ghost use Rattle.frame_runs.specs.declared.run.TheConstants.{ROOM};

use source_events::RunBytes;
use trace_values::Cell;

/// A run of a source's bytes: in a frame, or a piece of a capture with no formatter.
pub trait Run {
    // its cells
    ghost cells: { Self → List Cell };

    /// How many bytes it has.
    fn len(&self) -> usize
        ensures { result ≡ length (cells self.now) };

    /// Its bytes, with `AHEAD` more behind them, whatever these are.
    fn ahead(&self) -> &[u8]
        ensures bytes { take (length (cells self.now)) result.now ≡ bytes_of (cells self.now) }
        ensures room { length (cells self.now) + AHEAD ≤ length result.now };

    /// It is a piece of a capture with no formatter, of which mostly no packet's bytes wait. Only speed depends on it.
    fn is_piece(&self) -> bool;

    /// The cell at an index.
    fn cell(&self, index: usize) -> Cell
        requires { index < length (cells self.now) }
        ensures { result ≡ get_or (cells self.now) index result };
}

/// How many bytes are kept of a run or of a frame: at most 15 of a run, and `AHEAD` more.
pub const ROOM: usize = 40;

/// The cells of a run, with their bytes one after the other.
#[derive(Drop)]
pub struct CellRun<'a> {
    cells: &'a [Cell],
    ahead: [u8; ROOM],
    ghost same: { take (length cells.now) ahead ≡ bytes_of cells.now },
    ghost few: { length cells.now ≤ 15 },
    ghost sized: { length ahead ≡ ROOM },
}

impl CellRun<'_> {
    ghost use Rattle.frame_runs.specs.Run.{cells_of};

    /// These cells.
    #[inline(always)]
    pub fn of(cells: &[Cell]) -> CellRun<'_>
        requires { length cells.now ≤ 15 }
        ensures { cells_of result ≡ cells.now }
    {
        let bytes = RunBytes::of(cells);
        let mut ahead = [0; ROOM];
        ahead[..cells.len()].copy_from_slice(bytes.as_slice());
        CellRun { cells, ahead }
    }
}

impl Run for CellRun<'_> {
    ghost use Rattle.frame_runs.specs.Run.{cells_of};

    ghost cells = { cells_of };

    #[inline(always)]
    fn len(&self) -> usize {
        self.cells.len()
    }

    #[inline(always)]
    fn is_piece(&self) -> bool {
        false
    }

    #[inline(always)]
    fn ahead(&self) -> &[u8] {
        &self.ahead
    }

    #[inline(always)]
    fn cell(&self, index: usize) -> Cell {
        self.cells[index]
    }
}
