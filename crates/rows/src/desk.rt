//! The answers to calls of a row.

use crate::answer::Answer;
use crate::out::Out;
use crate::row::Row;
use std::alloc::Global;
use std::mem::swap;

/// Calls of consecutive numbers that fail in one way: with texts whose lengths are evenly apart.
#[derive(Drop)]
struct Stretch {
    first: u64,
    last: u64,
    least: usize,
    most: usize,
}

/// Answers to calls of a row.
#[derive(Drop)]
pub struct Desk {
    /// The answer to a row's first call.
    pub first: Answer,
    /// The answer to another call of it.
    pub other: Answer,
    /// The answer to the call before that, and the calls that it is the last of.
    last: Answer,
    stretch: Stretch,
}

/// Writes a text and `J..K`, or the one number that both are.
fn put_range(text: &str, first: u64, last: u64, out: &mut Out) {
    out.put_value(text, &first);
    if first != last {
        out.put_value("..", &last);
    }
}

impl Desk {
    /// No answers yet.
    pub fn new(alloc: Global) -> Desk {
        Desk {
            first: Answer::new(alloc),
            other: Answer::new(alloc),
            last: Answer::new(alloc),
            stretch: Stretch {
                first: 0,
                last: 0,
                least: 0,
                most: 0,
            },
        }
    }

    /// Makes a call of a row that must answer what the first one does.
    pub fn compare(&mut self, words: &[String], row: &Row, out: &mut Out) {
        self.other.call(words, row, out);
        if !self.first.agrees(&self.other, row.note_room) {
            out.put_value("  ? reads of ", &row.read[0]);
            out.put_value(", writes of ", &row.write[0]);
            out.put_value(", notes of ", &row.note_room);
            out.put("\n");
        }
    }

    /// Writes the line of the last calls that failed in one way.
    fn tell_stretch(&self, out: &mut Out) {
        put_range("    ", self.stretch.first, self.stretch.last, out);
        put_range(
            ": ",
            self.stretch.least as u64,
            self.stretch.most as u64,
            out,
        );
        out.put_value(" bytes = ", &self.last.status);
        out.put(" ! ");
        out.put(self.last.note_text());
    }

    /// Whether the other answer goes on in the same way as the last one, with a text that is longer by so many bytes.
    fn goes_on(&self, step: usize) -> bool {
        self.last.status == self.other.status
            && self.last.note() == self.other.note()
            && self.stretch.most.saturating_add(step) == self.other.text().len()
    }

    /// Adds the other answer, to a failing call of this number, to the last ones, or begins anew with it.
    fn add_failing(&mut self, number: u64, goes_on: bool) {
        self.stretch.last = number;
        self.stretch.most = self.other.text().len();
        if !goes_on {
            self.stretch.first = number;
            self.stretch.least = self.stretch.most;
        }
    }

    /// Takes the other answer, to a call of which the read or write of this number fails, and which has a text that is
    /// longer than the last one by so many bytes, if it goes on in the same way. Answers whether none failed.
    pub fn take_failing(&mut self, number: u64, step: usize, out: &mut Out) -> bool {
        if !self.first.text().starts_with(self.other.text()) {
            out.put("    ? no front of the text\n");
        }
        let is_last = self.first.agrees(&self.other, usize::MAX);
        let goes_on = number > 0 && !is_last && self.goes_on(step);
        if number > 0 && !goes_on {
            self.tell_stretch(out);
        }
        self.add_failing(number, goes_on);
        if is_last {
            out.put_value("    ", &number);
            out.put(": as above\n");
        }
        swap(&mut self.other, &mut self.last);
        is_last
    }
}
