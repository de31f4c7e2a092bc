//! Rows of `script_text`.

use crate::notation::Words;
use crate::out::Out;
use crate::plans::sources_of;
use script_text::{Item, Line, Line2, LineFault, read_line, read_line2};

/// Writes an item, by the value that it is.
fn put_item(item: &Item, out: &mut Out) {
    match item {
        Item::Itm(packet) => out.put_value(": ", packet),
        Item::Dwt(packet) => out.put_value(": ", packet),
        Item::Stp(item) => out.put_value(": ", item),
        Item::Raw(bytes) => {
            out.put(": ");
            out.put_digits(bytes.as_slice());
        }
    }
}

/// Writes what a line says.
fn put_line(line: &Line, out: &mut Out) {
    match line {
        Line::Nothing => out.put("  nothing"),
        Line::Of { id, item } => {
            out.put_value("  ", &id.number());
            put_item(item, out);
        }
    }
    out.put("\n");
}

/// Writes what a line of version 2 says.
fn put_line2(line: &Line2, out: &mut Out) {
    match line {
        Line2::One(line) => put_line(line, out),
        Line2::Flush => out.put("  flush\n"),
        Line2::Trigger(byte) => out.bytes("  trigger ", &[*byte]),
    }
}

/// Writes what `read_line` answers.
fn put_read(read: Result<Line, LineFault>, out: &mut Out) {
    match read {
        Ok(line) => put_line(&line, out),
        Err(fault) => out.error(&fault),
    }
}

/// Writes what `read_line2` answers.
fn put_read2(read: Result<Line2, LineFault>, out: &mut Out) {
    match read {
        Ok(line) => put_line2(&line, out),
        Err(fault) => out.error(&fault),
    }
}

/// Runs the row of this call: `read_line ITM STP 'LINE` or `read_line2 ITM STP 'LINE`, where these sources are mapped.
pub fn run(call: &str, mut words: Words<'_>, out: &mut Out) {
    let plan = sources_of(&mut words);
    let line = words.text().as_bytes();
    match call {
        "read_line" => put_read(read_line(line, &plan), out),
        "read_line2" => put_read2(read_line2(line, &plan), out),
        _ => out.put("  ? no such call\n"),
    }
}
