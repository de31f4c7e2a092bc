//! Rows of `source_counts`.

ghost use Rattle.std.specs.Prelude.{◌+◌, ◌≤◌, IfSome};
ghost use Rattle.frame_grammar.specs.Frame.{IsProperFrame};
ghost use Rattle.source_counts.specs.Kept.{total_of};
ghost use Rattle.trace_values.specs.declared.limits.TheConstants.{COUNT_ROOM};

use crate::notation::Words;
use crate::out::Out;
use arrayvec::ArrayVec;
use frame_grammar::frame::{FRAME_BYTES, cells_of};
use frame_grammar::plain::plain_frame;
use source_counts::{Counts, SourceCounts};
use std::alloc::Global;
use trace_values::SourceId;

/// More frames than a row has.
const MANY: usize = 100;

/// Counts the cells of a frame after this ID, and gives the ID after it.
fn add_cells(
    counts: &mut SourceCounts,
    frame: &[u8; FRAME_BYTES],
    before: Option<SourceId>,
) -> Option<SourceId>
    requires proper { IsProperFrame frame.now }
    requires room { total_of counts.old + 16 ≤ COUNT_ROOM }
    ensures { total_of counts.new ≤ total_of counts.old + 16 }
{
    let mut cells = ArrayVec::new();
    let after = cells_of(frame, &[0; FRAME_BYTES], before, &mut cells);
    counts.add_frame(cells.as_slice());
    after
}

/// Writes the line of a source's counts, if it has any.
fn put_counts(number: u8, counts: Counts, out: &mut Out) {
    if counts != (Counts { bytes: 0, items: 0 }) {
        out.put_value("  source ", &number);
        out.put_value(" bytes ", &counts.bytes);
        out.put_value(" items ", &counts.items);
        out.put("\n");
    }
}

/// The lines of these counts: of all, and of each source that has any.
fn told(alloc: Global, counts: &SourceCounts) -> Out {
    let mut out = Out::new(alloc);
    out.put_value("  frames ", &counts.frames());
    out.put_value(" unattributed ", &counts.unattributed());
    out.put("\n");
    for number in 0..127u8 {
        let source = SourceId::new(number).unwrap_or_default();
        put_counts(number, counts.of(source), &mut out);
    }
    out
}

/// Writes what is counted of frames by their bytes. By their cells it must be the same.
fn compare(by_bytes: &SourceCounts, by_cells: &SourceCounts, out: &mut Out) {
    let told_by_bytes = told(out.alloc, by_bytes);
    out.put(told_by_bytes.text());
    if told(out.alloc, by_cells).text() != told_by_bytes.text() {
        out.put("  ? cells\n");
    }
}

/// The frame of this index.
fn frame_at(bytes: &[u8], index: usize) -> Option<&[u8; FRAME_BYTES]>
    ensures { IfSome result (λ f. IsProperFrame f.now) }
{
    plain_frame(bytes.get(FRAME_BYTES.saturating_mul(index)..)?)
}

/// `frames BYTES`: what is counted of these frames by their bytes. By their cells it must be the same.
fn frames(bytes: &[u8], out: &mut Out) {
    let mut by_bytes = SourceCounts::new();
    let mut by_cells = SourceCounts::new();
    let mut id = None;
    for index in 0..MANY {
        let Some(frame) = frame_at(bytes, index) else {
            break;
        };
        let after = by_bytes.add_frame_bytes(frame, id);
        id = add_cells(&mut by_cells, frame, id);
        if after != id {
            out.put("  ? another ID\n");
        }
    }
    compare(&by_bytes, &by_cells, out);
}

/// Runs the row of this call.
pub fn run(call: &str, words: Words<'_>, out: &mut Out) {
    match call {
        "frames" => frames(&words.bytes(out), out),
        _ => out.put("  ? no such call\n"),
    }
}
