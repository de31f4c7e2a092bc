//! The lines of counts.

ghost use Rattle.source_events.specs.declared.tails.TheConstants.{GREATEST_COUNT};
ghost use Rattle.std.specs.Prelude.{◌≡◌, ◌+◌, ◌≤◌, ◌^◌, ◌++◌, length};
ghost use Rattle.trace_text.specs.CountText.{port_counts_text, faults_line, exercise_lines, source_counts_line};

use crate::room::{put_bytes, put_count, put_short};
use trace_stream::{OUTLET_ROOM, Outlet, TEXT_ROOM, Text};
use trace_values::SourceId;

/// The most bytes of the line of what a source sent.
pub const SOURCE_COUNTS_ROOM: usize = 58;

/// How many full and half synchronisations and frames a port has: `full N`, `half N`, `frames N`.
#[derive(Clone, Copy)]
pub struct PortCountsLines {
    pub fulls: u64,
    pub halves: u64,
    pub frames: u64,
}

impl Text for PortCountsLines {
    ghost text = { λ l. port_counts_text l.fulls l.halves l.frames };

    fn put(&self, room: &mut [u8], from: usize) -> usize {
        let from = put_count(room, from, b"full ", self.fulls);
        let from = put_count(room, from, b"\nhalf ", self.halves);
        let from = put_count(room, from, b"\nframes ", self.frames);
        put_bytes(room, from, b"\n")
    }
}

/// How many faults the report of a capture has that goes on after each: `faults N`.
#[derive(Clone, Copy)]
pub struct FaultCountLine {
    pub faults: u64,
}

impl Text for FaultCountLine {
    ghost text = { λ l. faults_line l.faults };

    fn put(&self, room: &mut [u8], from: usize) -> usize {
        let from = put_count(room, from, b"faults ", self.faults);
        put_bytes(room, from, b"\n")
    }
}

/// How many items an exercise has, and how many bytes its capture: `items N`, `capture N`.
#[derive(Clone, Copy)]
pub struct ExerciseLines {
    pub items: u32,
    pub capture: u64,
}

impl Text for ExerciseLines {
    ghost text = { λ l. exercise_lines l.items l.capture };

    fn put(&self, room: &mut [u8], from: usize) -> usize {
        let from = put_count(room, from, b"items ", u64::from(self.items));
        let from = put_count(room, from, b"\ncapture ", self.capture);
        put_bytes(room, from, b"\n")
    }
}

/// How many bytes and items a source sent.
#[derive(Clone, Copy)]
struct SourceCountsLine {
    id: u8,
    bytes: u64,
    items: u64,
}

impl Text for SourceCountsLine {
    ghost text = { λ l. source_counts_line l.id l.bytes l.items };

    fn put(&self, room: &mut [u8], from: usize) -> usize {
        let from = put_short(room, from, self.id);
        let from = put_count(room, from, b" bytes ", self.bytes);
        let from = put_count(room, from, b" items ", self.items);
        put_bytes(room, from, b"\n")
    }
}

/// How many bytes and items a source sent: `ID bytes B items I`.
pub fn put_source_counts(outlet: &mut Outlet, id: SourceId, bytes: u64, items: u64)
    requires room { length outlet.old + TEXT_ROOM ≤ OUTLET_ROOM }
    ensures text { outlet.new ≡ outlet.old ++ source_counts_line id bytes items }
    ensures bound { length outlet.new ≤ length outlet.old + SOURCE_COUNTS_ROOM }
    // of a capture
    ensures capture { bytes ≤ GREATEST_COUNT → items ≤ GREATEST_COUNT → length outlet.new ≤ length outlet.old + 44 }
{
    let line = SourceCountsLine {
        id: id.number(),
        bytes,
        items,
    };
    outlet.put(&line);
}
