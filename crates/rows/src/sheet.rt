//! The lines of the input: what they set, and the rows that they run.

use crate::desk::Desk;
use crate::libraries::run_row;
use crate::names::{Named, add_text, add_word, numbers_in, text_of, words_in};
use crate::notation::Words;
use crate::out::Out;
use crate::row::Row;
use std::alloc::Global;

/// What the lines so far have set.
#[derive(Drop)]
pub struct Sheet {
    names: Vec<Named>,
    words: Vec<String>,
    reads: Vec<usize>,
    writes: Vec<usize>,
    notes: Vec<usize>,
}

/// The first of these numbers; many, where there is none.
fn first_of(numbers: &[usize]) -> usize {
    numbers.first().copied().unwrap_or(4096)
}

impl Sheet {
    /// Nothing is set.
    pub fn new(alloc: Global) -> Sheet {
        Sheet {
            names: Vec::new(alloc),
            words: Vec::new(alloc),
            reads: Vec::new(alloc),
            writes: Vec::new(alloc),
            notes: Vec::new(alloc),
        }
    }

    /// A row over no bytes, with the first numbers that are set.
    fn plain_row(&self, alloc: Global) -> Row {
        let mut row = Row::new(alloc);
        row.read = [first_of(&self.reads)];
        row.write = [first_of(&self.writes)];
        row.note_room = first_of(&self.notes);
        row
    }

    /// Takes a word of a row.
    fn take_word(&self, word: &str, row: &mut Row, out: &mut Out) {
        if !row.set(word) {
            add_word(&self.names, word, &mut row.bytes, out);
        }
    }

    /// The row of a line.
    fn row_of(&self, line: &str, out: &mut Out) -> Row {
        let mut row = self.plain_row(out.alloc);
        let (front, text) = line.split_once('\'').unwrap_or((line, ""));
        for word in front.split(' ') {
            self.take_word(word, &mut row, out);
        }
        add_text(text, &mut row.bytes, out);
        row
    }

    /// Runs a row with all lengths of writes and rooms for notes that are set.
    fn run_writes(&self, row: &mut Row, desk: &mut Desk, out: &mut Out) {
        for &write in &self.writes {
            row.write = [write];
            self.run_notes(row, desk, out);
        }
    }

    /// Runs a row with all rooms for notes that are set.
    fn run_notes(&self, row: &mut Row, desk: &mut Desk, out: &mut Out) {
        for &note_room in &self.notes {
            row.note_room = note_room;
            desk.compare(&self.words, row, out);
        }
    }

    /// Runs a row with all numbers that are set, and writes what it answers.
    fn run_row(&self, row: &mut Row, desk: &mut Desk, out: &mut Out) {
        desk.first.call(&self.words, row, out);
        desk.first.tell(row, out);
        for &read in &self.reads {
            row.read = [read];
            self.run_writes(row, desk, out);
        }
    }

    /// Runs the row of a line.
    fn run_line(&self, line: &str, desk: &mut Desk, out: &mut Out) {
        let mut row = self.row_of(line, out);
        self.run_row(&mut row, desk, out);
    }

    /// Writes what the row of a line answers where each of its reads or writes of at most this many bytes fails.
    fn run_failing(
        &self,
        line: &str,
        (of_reads, piece): (bool, usize),
        desk: &mut Desk,
        out: &mut Out,
    ) {
        let mut row = self.row_of(line, out);
        let step = if of_reads { 0 } else { piece };
        let most = row.bytes.len().max(desk.first.text().len()) as u64;
        for number in 0..=most.saturating_add(1) {
            row.fail(of_reads, piece, number);
            desk.other.call(&self.words, &row, out);
            if desk.take_failing(number, step, out) {
                return;
            }
        }
    }

    /// Runs the row of a line, and then with each of its reads failing.
    fn run_reads_failing(&self, line: &str, desk: &mut Desk, out: &mut Out) {
        self.run_line(line, desk, out);
        for &piece in &self.reads {
            out.put_value("  reads of ", &piece);
            out.put("\n");
            self.run_failing(line, (true, piece), desk, out);
        }
    }

    /// Runs the row of a line, and then with each of its writes failing.
    fn run_writes_failing(&self, line: &str, desk: &mut Desk, out: &mut Out) {
        self.run_line(line, desk, out);
        for &piece in &self.writes {
            out.put_value("  writes of ", &piece);
            out.put("\n");
            self.run_failing(line, (false, piece), desk, out);
        }
    }

    /// Gives bytes a name.
    fn add_name(&mut self, line: &str, out: &mut Out) {
        let (name, rest) = line.split_once(' ').unwrap_or((line, ""));
        let named = Named {
            name: text_of(name, out),
            bytes: self.row_of(rest, out).bytes,
        };
        if self.names.push(named).is_err() {
            out.fail();
        }
    }

    /// Does what a line says.
    pub fn take_line(&mut self, line: &str, desk: &mut Desk, out: &mut Out) {
        let (verb, rest) = line.split_once(' ').unwrap_or((line, ""));
        match verb {
            "words" => self.words = words_in(rest, out),
            "reads" => self.reads = numbers_in(rest, out),
            "writes" => self.writes = numbers_in(rest, out),
            "notes" => self.notes = numbers_in(rest, out),
            "bytes" => self.add_name(rest, out),
            "run" => self.run_line(rest, desk, out),
            "each-read" => self.run_reads_failing(rest, desk, out),
            "each-write" => self.run_writes_failing(rest, desk, out),
            _ => run_row(Words { rest: line }, out),
        }
    }
}
