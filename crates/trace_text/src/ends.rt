//! The lines at the end.

ghost use Rattle.std.specs.Prelude.{◌≡◌, ◌+◌, ◌*◌, ◌≤◌, ◌++◌, length, codes, decimal};
ghost use Rattle.trace_text.specs.EndText.{mode_text, kind_text, rest_text, port_line, source_line};
ghost use Rattle.trace_text.specs.EndText.{tails_text};
ghost use Rattle.trace_text.specs.Puts.{Puts};

use crate::lengths::{few_digits, few_id_digits};
use crate::room::{ITEM_ROOM, WORD_ROOM, put_byte, put_bytes, put_count, put_short, put_slice};
use source_events::{PortMode, SourceKind, SourceTail, Tails};
use trace_stream::{OUTLET_ROOM, Outlet, TEXT_ROOM, Text};

/// How many bytes were read: `end N`.
#[derive(Clone, Copy)]
pub struct EndLine {
    pub bytes: u64,
}

/// How the port was read: `port MODE skipped S tail T unattributed U`.
#[derive(Clone, Copy)]
pub struct PortEndLine {
    pub mode: PortMode,
    /// Bytes before the first full synchronisation.
    pub skipped: u64,
    /// Bytes of the unfinished frame.
    pub tail: u64,
    /// Bytes of no source.
    pub unattributed: u64,
}

/// How a mapped source was read: `ID itm MODE skipped S tail T`, or `ID stp MODE skipped S tail T`.
#[derive(Clone, Copy)]
pub struct SourceEndLine {
    pub source: SourceTail,
}

/// The word of what a port or a source was read as.
fn mode_word(mode: PortMode) -> &'static str
    ensures text { result.now ≡ mode_text mode }
    ensures bound { length result.now ≤ WORD_ROOM }
{
    match mode {
        PortMode::Bare => "bare",
        PortMode::Aligned => "aligned",
        PortMode::Locked => "locked",
        PortMode::Hunting => "hunting",
    }
}

/// Puts what a source sends, between spaces.
fn put_kind(room: &mut [u8], from: usize, kind: SourceKind) -> usize
    requires room { from + WORD_ROOM ≤ length room.old }
    ensures { Puts room.old room.new from result WORD_ROOM (codes " " ++ (kind_text kind ++ codes " ")) }
{
    match kind {
        SourceKind::Itm => put_bytes(room, from, b" itm "),
        SourceKind::Stp => put_bytes(room, from, b" stp "),
    }
}

/// Puts the skipped bytes and the tail.
fn put_rest(room: &mut [u8], from: usize, skipped: u64, tail: u64) -> usize
    requires room { from + ITEM_ROOM ≤ length room.old }
    ensures { Puts room.old room.new from result ITEM_ROOM (rest_text skipped tail) }
{
    let from = put_count(room, from, b" skipped ", skipped);
    put_count(room, from, b" tail ", tail)
}

impl Text for EndLine {
    ghost text = { λ l. codes "end " ++ (decimal l.bytes ++ codes "\n") };

    fn put(&self, room: &mut [u8], from: usize) -> usize {
        let from = put_count(room, from, b"end ", self.bytes);
        put_bytes(room, from, b"\n")
    }
}

impl Text for PortEndLine {
    ghost text = { λ l. port_line l.mode l.skipped l.tail l.unattributed };

    fn put(&self, room: &mut [u8], from: usize) -> usize {
        let from = put_bytes(room, from, b"port ");
        let from = put_slice(room, from, mode_word(self.mode).as_bytes());
        let from = put_rest(room, from, self.skipped, self.tail);
        let from = put_count(room, from, b" unattributed ", self.unattributed);
        put_bytes(room, from, b"\n")
    }
}

impl Text for SourceEndLine {
    ghost text = { λ l. source_line l.source };

    fn put(&self, room: &mut [u8], from: usize) -> usize {
        let source = self.source;
        let from = put_short(room, from, source.id.number());
        let from = put_kind(room, from, source.kind);
        let from = put_slice(room, from, mode_word(source.mode).as_bytes());
        let from = put_rest(room, from, source.skipped, source.tail);
        put_byte(room, from, b'\n')
    }
}

/// The most bytes of the lines at the end of a capture: 25 of the first, 102 of the port's, and 71 of each of 16
/// sources.
pub const TAILS_ROOM: usize = 1263;

/// Puts the line at the end of a mapped source.
fn put_source_end(outlet: &mut Outlet, source: &SourceTail)
    requires room { length outlet.old + TEXT_ROOM ≤ OUTLET_ROOM }
    ensures line { outlet.new ≡ outlet.old ++ source_line source.now }
    ensures bound { length outlet.new ≤ length outlet.old + 71 }
{
    few_id_digits(source.id);
    few_digits(source.skipped);
    few_digits(source.tail);
    outlet.put(&SourceEndLine { source: *source });
}

/// Puts the first lines at the end of a capture.
fn put_port_ends(outlet: &mut Outlet, tails: &Tails)
    requires room { length outlet.old + 2 * TEXT_ROOM ≤ OUTLET_ROOM }
    ensures lines { outlet.new ≡ outlet.old ++ ((codes "end " ++ (decimal tails.now.bytes ++ codes "\n"))
        ++ port_line tails.now.mode tails.now.skipped tails.now.tail tails.now.unattributed) }
    ensures bound { length outlet.new ≤ length outlet.old + 127 }
{
    few_digits(tails.bytes);
    few_digits(tails.skipped);
    few_digits(tails.tail);
    few_digits(tails.unattributed);
    outlet.put(&EndLine { bytes: tails.bytes });
    outlet.put(&PortEndLine {
        mode: tails.mode,
        skipped: tails.skipped,
        tail: tails.tail,
        unattributed: tails.unattributed,
    });
}

/// Puts the lines at the end of a capture: `EndLine`, `PortEndLine`, and `SourceEndLine` for each mapped source in
/// increasing order of ID.
pub fn print_tails(outlet: &mut Outlet, tails: &Tails)
    requires room { length outlet.old + TAILS_ROOM + TEXT_ROOM ≤ OUTLET_ROOM }
    ensures lines { outlet.new ≡ outlet.old ++ tails_text tails.now }
    ensures bound { length outlet.new ≤ length outlet.old + TAILS_ROOM }
{
    put_port_ends(outlet, tails);
    for source in tails.sources.as_slice() {
        put_source_end(outlet, source);
    }
}
