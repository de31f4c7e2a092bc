//! How numbers and bytes are written in a row, and sources and cells in an answer.

use crate::out::Out;
use trace_values::{Cell, SourceId};

/// The number of a word: decimal digits, or hexadecimal ones after an `x`. Any other word is none.
pub fn number_of(word: &str) -> Option<u64> {
    match word.strip_prefix('x') {
        Some(digits) => u64::from_str_radix(digits, 16).ok(),
        None => word.parse::<u64>().ok(),
    }
}

/// Adds these bytes, so many times.
fn add_times(added: &[u8], times: usize, bytes: &mut Vec<u8>, out: &mut Out) {
    for _ in 0..times {
        out.note(bytes.extend_from_slice(added));
    }
}

/// Adds the bytes of hexadecimal digits, or of `HH..*N`.
pub fn add_digits(word: &str, bytes: &mut Vec<u8>, out: &mut Out) {
    let (digits, times) = word.split_once('*').unwrap_or((word, "1"));
    match hex::decode(out.alloc, digits) {
        Ok(decoded) => add_times(&decoded, times.parse::<usize>().unwrap_or(0), bytes, out),
        Err(_) => out.put("  ? no bytes\n"),
    }
}

/// The words of a row that are still to be read.
#[derive(Clone, Copy)]
pub struct Words<'a> {
    pub rest: &'a str,
}

impl<'a> Words<'a> {
    /// The next word; an empty one after the last.
    pub fn word(&mut self) -> &'a str {
        let (word, rest) = self.rest.split_once(' ').unwrap_or((self.rest, ""));
        self.rest = rest;
        word
    }

    /// All that comes after the next `'`.
    pub fn text(self) -> &'a str {
        self.rest.strip_prefix('\'').unwrap_or("")
    }

    /// The number of the next word.
    pub fn optional(&mut self) -> Option<u64> {
        number_of(self.word())
    }

    /// A number, 0 where there is none.
    pub fn number(&mut self) -> u64 {
        self.optional().unwrap_or(0)
    }

    /// A number of 8 bits.
    pub fn byte(&mut self) -> u8 {
        (self.number() % 0x100) as u8
    }

    /// A number of 16 bits.
    pub fn half(&mut self) -> u16 {
        (self.number() % 0x1_0000) as u16
    }

    /// A number of 32 bits.
    pub fn quarter(&mut self) -> u32 {
        (self.number() % 0x1_0000_0000) as u32
    }

    /// The ID of a source, or `-`.
    pub fn source(&mut self) -> Option<SourceId> {
        match self.optional() {
            Some(number) => SourceId::new((number % 0x100) as u8),
            None => None,
        }
    }

    /// The bytes of all words that are left: hexadecimal digits, or `HH..*N`, which is N times these bytes.
    pub fn bytes(self, out: &mut Out) -> Vec<u8> {
        let mut bytes = Vec::new(out.alloc);
        for word in self.rest.split(' ') {
            add_digits(word, &mut bytes, out);
        }
        bytes
    }
}

/// Writes a text and the number of a source, or `-`.
pub fn put_source(text: &str, source: Option<SourceId>, out: &mut Out) {
    out.put(text);
    match source {
        Some(source) => out.put_value("", &source.number()),
        None => out.put("-"),
    }
}

/// Writes a cell: its offset, its source, its run, and its byte.
fn put_cell(cell: &Cell, out: &mut Out) {
    out.put_value(" ", &cell.at);
    put_source(":", cell.id, out);
    out.put_value(":", &cell.run);
    out.put(":");
    out.put_digits(&[cell.byte]);
}

/// Writes the line of cells.
pub fn put_cells(cells: &[Cell], out: &mut Out) {
    out.put("  cells");
    for cell in cells {
        put_cell(cell, out);
    }
    out.put("\n");
}
