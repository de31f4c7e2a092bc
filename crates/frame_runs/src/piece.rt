//! A piece of a capture with no formatter, whose bytes are those of source 1.

ghost use Rattle.std.specs.Prelude.{◌≡◌, ◌+◌, ◌^◌, ◌<◌, ◌≤◌, length};
ghost use Rattle.source_machine.specs.declared.machine.TheConstants.{AHEAD};

use crate::bare::bare_source;
use crate::run::Run;
use trace_values::Cell;

/// The front of a piece.
#[derive(Drop)]
pub struct PieceRun<'a> {
    /// The offset of its first byte.
    pub at: u64,
    /// How many bytes it has.
    pub count: usize,
    /// They, with `AHEAD` more after them.
    pub ahead: &'a [u8],
    ghost there: { count + AHEAD ≤ length ahead.now },
    ghost near: { at + count < 2 ^ 64 },
}

impl Run for PieceRun<'_> {
    ghost use Rattle.frame_runs.specs.Piece.{piece_cells};

    ghost cells = { piece_cells };

    #[inline(always)]
    fn len(&self) -> usize {
        self.count
    }

    #[inline(always)]
    fn is_piece(&self) -> bool {
        true
    }

    #[inline(always)]
    fn ahead(&self) -> &[u8] {
        self.ahead
    }

    #[inline(always)]
    fn cell(&self, index: usize) -> Cell {
        Cell {
            at: self.at + index as u64,
            id: Some(bare_source()),
            run: 0,
            byte: self.ahead[index],
        }
    }
}
