//! Rows of `trace_text`.

use crate::notation::Words;
use crate::out::Out;
use source_events::{PortMode, SourceKind, SourceTail, Stop};
use trace_stream::{TEXT_ROOM, Text};
use trace_text::{
    BufferLine, EndLine, FaultLine, ImageLine, LastLine, LimitLine, PortCountsLines, PortEndLine,
    ScriptFaultLine, SourceEndLine,
};
use trace_values::{Fault, Reason};

/// Writes these lines, each with `\n` where it ends.
fn put_lines(text: &[u8], out: &mut Out) {
    out.put("  ");
    for line in str::from_utf8(text).unwrap_or("?").lines() {
        out.put(line);
        out.put("\\n");
    }
    out.put("\n");
}

/// Writes a text.
fn put<T: Text>(text: &T, out: &mut Out)
    requires { T.fits text.now }
{
    let mut room = [b'.'; TEXT_ROOM];
    let end = text.put(&mut room, 0);
    put_lines(&room[..end], out);
}

fn mode_of(word: &str) -> PortMode {
    match word {
        "aligned" => PortMode::Aligned,
        "locked" => PortMode::Locked,
        "hunting" => PortMode::Hunting,
        _ => PortMode::Bare,
    }
}

fn kind_of(word: &str) -> SourceKind {
    match word {
        "itm" => SourceKind::Itm,
        _ => SourceKind::Stp,
    }
}

/// `source NUMBER KIND MODE SKIPPED TAIL`
fn tail_of(mut words: Words<'_>) -> SourceTail {
    SourceTail {
        id: words.source().unwrap_or_default(),
        kind: kind_of(words.word()),
        mode: mode_of(words.word()),
        skipped: words.number(),
        tail: words.number(),
    }
}

/// The reason of this name.
pub fn reason_of(word: &str) -> Reason {
    match word {
        "BadSync" => Reason::BadSync,
        "SyncInFrame" => Reason::SyncInFrame,
        "ReservedHeader" => Reason::ReservedHeader,
        "BadItmSync" => Reason::BadItmSync,
        "LongStamp" => Reason::LongStamp,
        "ShortStamp" => Reason::ShortStamp,
        "Unsupported" => Reason::Unsupported,
        "StampSize" => Reason::StampSize,
        _ => Reason::BadAsync,
    }
}

/// `AT HALF REASON`
fn reached_of(mut words: Words<'_>) -> Fault {
    Fault {
        at: words.number(),
        half: words.byte(),
        reason: reason_of(words.word()),
    }
}

/// `fault PROTOCOL SOURCE AT HALF REASON`, where the protocol is `stp` or another.
fn fault_of(mut words: Words<'_>) -> FaultLine {
    let stp = words.word() == "stp";
    let source = words.source();
    let fault = reached_of(words);
    FaultLine {
        stop: Stop { fault, source },
        stp,
    }
}

/// The line of a source's end.
fn put_source(source: SourceTail, out: &mut Out) {
    put(&SourceEndLine { source }, out);
}

/// `port MODE SKIPPED TAIL UNATTRIBUTED`
fn port_of(mut words: Words<'_>) -> PortEndLine {
    PortEndLine {
        mode: mode_of(words.word()),
        skipped: words.number(),
        tail: words.number(),
        unattributed: words.number(),
    }
}

/// `counts FULLS HALVES FRAMES`
fn counts_of(mut words: Words<'_>) -> PortCountsLines {
    PortCountsLines {
        fulls: words.number(),
        halves: words.number(),
        frames: words.number(),
    }
}

/// `buffer POINTER FULL DROPPED`, where `FULL` is 0 or 1.
fn buffer_of(mut words: Words<'_>) -> BufferLine {
    BufferLine {
        pointer: words.number(),
        full: words.number() == 1,
        dropped: words.number(),
    }
}

/// `last BYTES`
fn last(bytes: &[u8], out: &mut Out) {
    if bytes.len() > 8 {
        return out.put("  ? many bytes\n");
    }
    put(&LastLine { bytes }, out);
}

/// The line of a script's fault; none of a long name.
fn put_script(line: u64, number: u8, name: &str, out: &mut Out) {
    if name.len() > 12 {
        return out.put("  ? a long name\n");
    }
    put(&ScriptFaultLine { line, number, name }, out);
}

/// `script LINE NUMBER NAME`
fn script(mut words: Words<'_>, out: &mut Out) {
    let (line, number) = (words.number(), words.byte());
    put_script(line, number, words.word(), out);
}

/// `end N`, `limit N` and `image N`
fn put_number(call: &str, number: u64, out: &mut Out) {
    match call {
        "end" => put(&EndLine { bytes: number }, out),
        "limit" => put(&LimitLine { limit: number }, out),
        "image" => put(&ImageLine { size: number }, out),
        _ => out.put("  ? no such call\n"),
    }
}

/// The lines after those of a source: `counts`, `buffer`, `script` and `last`.
fn run_note(call: &str, mut words: Words<'_>, out: &mut Out) {
    match call {
        "counts" => put(&counts_of(words), out),
        "buffer" => put(&buffer_of(words), out),
        "script" => script(words, out),
        "last" => last(&words.bytes(out), out),
        _ => put_number(call, words.number(), out),
    }
}

/// Runs the row of this call: the text of a line or of several.
pub fn run(call: &str, words: Words<'_>, out: &mut Out) {
    match call {
        "port" => put(&port_of(words), out),
        "source" => put_source(tail_of(words), out),
        "fault" => put(&fault_of(words), out),
        _ => run_note(call, words, out),
    }
}
