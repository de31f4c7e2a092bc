//! What the program writes. That there was no room for some of it is told at the end, so that what writes an answer has
//! no error to hand on.

use std::alloc::{AllocError, Global};
use std::fmt::{Debug, Display};

/// The answers so far. Each line of an answer begins with two blanks.
#[derive(Drop)]
pub struct Out {
    pub alloc: Global,
    text: String,
    is_whole: bool,
}

impl Out {
    /// Nothing is written yet.
    pub fn new(alloc: Global) -> Out {
        Out {
            alloc,
            text: String::new(alloc),
            is_whole: true,
        }
    }

    /// What was written.
    pub fn text(&self) -> &str {
        self.text.as_str()
    }

    /// Whether there was room for all.
    pub fn is_whole(&self) -> bool {
        self.is_whole
    }

    /// Notes that there was no room.
    pub fn fail(&mut self) {
        self.is_whole = false;
    }

    /// Notes whether there was room.
    pub fn note(&mut self, done: Result<(), AllocError>) {
        self.is_whole = self.is_whole && done.is_ok();
    }

    /// Writes this text.
    pub fn put(&mut self, text: &str) {
        let done = self.text.push_str(text);
        self.note(done);
    }

    /// Writes a text and this value; a number in decimal.
    pub fn put_value<T: Debug>(&mut self, text: &str, value: &T) {
        let done = write!(self.text, "{text}{value:?}");
        self.note(done);
    }

    /// Writes the line of a number in decimal and one in hexadecimal.
    pub fn put_word(&mut self, number: u8, word: u64) {
        let done = write!(self.text, "  {number} {word:x}\n");
        self.note(done);
    }

    /// Writes two hexadecimal digits for each byte.
    pub fn put_digits(&mut self, bytes: &[u8]) {
        match hex::encode(self.alloc, bytes) {
            Ok(digits) => self.put(digits.as_str()),
            Err(_) => self.is_whole = false,
        }
    }

    /// Writes the line of this value.
    pub fn value<T: Debug>(&mut self, value: &T) {
        self.put_value("  ", value);
        self.put("\n");
    }

    /// Writes the line of these two values.
    pub fn values<T: Debug, U: Debug>(&mut self, first: &T, second: &U) {
        self.put_value("  ", first);
        self.put_value(" ", second);
        self.put("\n");
    }

    /// Writes the line of this error.
    pub fn error<E: Debug + Display>(&mut self, error: &E) {
        let done = write!(self.text, "  {error:?}: {error}\n");
        self.note(done);
    }

    /// Writes the line of this value, or that there is none.
    pub fn optional<T: Debug>(&mut self, value: &Option<T>) {
        match value {
            Some(value) => self.value(value),
            None => self.put("  none\n"),
        }
    }

    /// Writes the line of these bytes after this text.
    pub fn bytes(&mut self, text: &str, bytes: &[u8]) {
        self.put(text);
        self.put_digits(bytes);
        self.put(if bytes.is_empty() { "none\n" } else { "\n" });
    }
}
