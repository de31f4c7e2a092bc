//! The capture, piece by piece.

ghost use Rattle.std.specs.Prelude.{◌≡◌, ◌↔◌, ◌≤◌, ◌<◌, ◌+◌, ◌*◌, ◌++◌, ◌∷◌, [], IsTrue, length, false, None};
ghost use Rattle.capture_exercise.specs.Names.{Msn, KEPT_ROOM, in_order};
ghost use Rattle.script_rebuild.specs.Writer.{Stands, stp_of, order_of, turns_of, count_of};
ghost use Rattle.script_text.specs.declared.raw_bytes.TheConstants.{RAW_BYTES};
ghost use Rattle.capture_exercise.specs.declared.maker.TheConstants.{MOST_ITEMS};
ghost use Rattle.capture_exercise.specs.Exercise.{exercise_port, exercise_lines, exercise_capture};

use crate::lines::line_at;
use crate::plans::source_ids;
use port_formatter::Formatter;
use script_rebuild::LineWriter;
use stp_grammar::packet::Order;

/// The most items of an exercise.
pub const MOST_ITEMS: u32 = 1_000_000;

/// The most bytes of the capture of an exercise: no more than any capture may have.
pub const MOST_BYTES: u64 = 1 << 36;

/// Makes the capture of the exercise: the lines of its items, one at a time, and then its rest.
#[derive(Drop)]
pub(crate) struct CaptureMaker {
    items: u32,
    /// How many of them are put.
    next: u32,
    writer: LineWriter,
    /// Nothing more comes.
    is_whole: bool,
    ghost few: { items ≤ MOST_ITEMS },
    ghost within: { next ≤ items },
    ghost stands: { is_whole ≡ false → ∥ Stands writer exercise_port (exercise_lines next) ∥₁ },
    ghost stp: { stp_of writer ≡ in_order (2 ∷ []) },
    ghost order: { order_of writer ≡ Msn },
    ghost turns: { turns_of writer ≡ None },
    ghost count: { is_whole ≡ false → count_of writer ≤ RAW_BYTES * next },
}

impl CaptureMaker {
    ghost use Rattle.capture_exercise.specs.Maker.{items_of, made_by, to_come, pieces_left};

    /// Nothing is made yet.
    pub(crate) fn new(items: u32) -> CaptureMaker
        requires few { items ≤ MOST_ITEMS }
        ensures items { items_of result ≡ items }
        ensures none { made_by result ≡ [] }
        ensures bytes { to_come result ≡ exercise_capture items }
        ensures pieces { pieces_left result ≡ items + 1 }
    {
        CaptureMaker {
            items,
            next: 0,
            writer: LineWriter::new(&source_ids(2), Order::Msn, Formatter::new(64, 0)),
            is_whole: false,
        }
    }

    /// The whole capture is made.
    pub(crate) fn is_whole(&self) -> bool
        ensures whole { IsTrue result ↔ (pieces_left self.now ≡ 0) }
        ensures bytes { IsTrue result → to_come self.now ≡ [] }
    {
        self.is_whole
    }

    /// The piece that was made last.
    pub(crate) fn made(&self) -> &[u8]
        ensures value { result.now ≡ made_by self.now }
        ensures few { length result.now ≤ KEPT_ROOM }
    {
        let (piece, _none) = self.writer.kept();
        piece
    }

    /// Makes the next piece: what becomes sure with the next line, or the rest.
    pub(crate) fn make(&mut self)
        requires more { 0 < pieces_left self.old }
        ensures items { items_of self.new ≡ items_of self.old }
        ensures bytes { to_come self.old ≡ made_by self.new ++ to_come self.new }
        ensures pieces { pieces_left self.new + 1 ≡ pieces_left self.old }
    {
        self.writer.forget();
        if self.next == self.items {
            self.writer.flush();
            self.is_whole = true;
        } else {
            let line = line_at(self.next);
            let _ = self.writer.put2(&line);
            self.next += 1;
        }
    }
}
