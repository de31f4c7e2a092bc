//! Rows of `trace_values`.

use crate::notation::{Words, put_cells, put_source};
use crate::out::Out;
use crate::trace_text_rows::reason_of;
use trace_values::{Cell, FramesMode, PacketsMode, Pattern, Reason, SourceId};

/// Whether the last of these units ends the pattern, after the others.
fn ends(pattern: Pattern, units: &[u8]) -> bool {
    let mut run = 0;
    let mut found = false;
    for unit in units {
        found = pattern.ends(run, *unit);
        run = pattern.run_after(run, *unit);
    }
    found
}

/// `ends UNIT MOST LAST UNITS`: whether the last of these units ends the pattern, each unit written as a byte.
fn pattern(mut words: Words<'_>, out: &mut Out) {
    let pattern = Pattern {
        unit: words.byte(),
        most: words.byte(),
        last: words.byte(),
    };
    let units = words.bytes(out);
    out.value(&ends(pattern, &units));
}

/// `sources`: the source of each number from 0 to 255.
fn sources(out: &mut Out) {
    out.put(" ");
    for number in 0..=255u8 {
        put_source(" ", SourceId::new(number), out);
    }
    out.put("\n");
}

/// `reason NAME`: the reason's number and name.
fn put_reason(reason: Reason, out: &mut Out) {
    out.put_value("  ", &reason.number());
    out.put(" ");
    out.put(reason.name());
    out.put("\n");
}

/// The values that stand where none is given: `default_source` or `default_cell`.
fn default(call: &str, out: &mut Out) {
    match call {
        "default_source" => out.value(&SourceId::default().number()),
        "default_cell" => put_cells(&[Cell::default()], out),
        _ => out.put("  ? no such call\n"),
    }
}

/// Runs the row of this call. `frames_mode 'NAME` and `packets_mode 'NAME` are the mode of this name.
pub fn run(call: &str, mut words: Words<'_>, out: &mut Out) {
    match call {
        "ends" => pattern(words, out),
        "sources" => sources(out),
        "reason" => put_reason(reason_of(words.word()), out),
        "frames_mode" => out.optional(&FramesMode::named(words.text())),
        "packets_mode" => out.optional(&PacketsMode::named(words.text())),
        _ => default(call, out),
    }
}
