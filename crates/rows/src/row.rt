//! A row: a call of the program.

use std::alloc::Global;

/// Room for the longest text of a row, and for the longest note.
pub const ROOM: usize = 65536;

pub const NOTE_ROOM: usize = 4096;

/// What a call reads, how long its reads and its writes are at most, which of them fails, and what there is room for.
#[derive(Drop)]
pub struct Row {
    pub bytes: Vec<u8>,
    pub read: [usize; 1],
    pub failing_read: [u64; 1],
    pub write: [usize; 1],
    pub failing_write: [u64; 1],
    /// How many bytes the output has room for, of `ROOM` at most.
    pub room: usize,
    /// How many bytes the notes have room for, of `NOTE_ROOM` at most.
    pub note_room: usize,
    /// How many lines of the note are told.
    pub note_lines: usize,
    pub tells_left: bool,
}

impl Row {
    /// A row over no bytes, in which nothing fails.
    pub fn new(alloc: Global) -> Row {
        Row {
            bytes: Vec::new(alloc),
            read: [4096],
            failing_read: [u64::MAX],
            write: [4096],
            failing_write: [u64::MAX],
            room: ROOM,
            note_room: NOTE_ROOM,
            note_lines: usize::MAX,
            tells_left: false,
        }
    }

    /// Makes the read, or the write, of this number fail, where they have at most so many bytes.
    pub fn fail(&mut self, of_reads: bool, piece: usize, number: u64) {
        if of_reads {
            self.read = [piece];
            self.failing_read = [number];
        } else {
            self.write = [piece];
            self.failing_write = [number];
        }
    }

    /// Takes a word that sets something, and answers whether it is one.
    pub fn set(&mut self, word: &str) -> bool {
        let (name, value) = word.split_once('=').unwrap_or((word, "0"));
        match value.parse::<usize>() {
            Ok(number) => self.set_number(name, number),
            Err(_) => false,
        }
    }

    /// Sets what has this name, and answers whether something has.
    fn set_number(&mut self, name: &str, number: usize) -> bool {
        match name {
            "left" => self.tells_left = true,
            "read" => self.failing_read = [number as u64],
            "write" => self.failing_write = [number as u64],
            "room" => self.room = number,
            "note" => self.note_lines = number,
            _ => return false,
        }
        true
    }
}
