//! How words, numbers and named bytes are written in the rows of calls of the program.

use crate::notation::add_digits;
use crate::out::Out;

/// Bytes that have a name.
#[derive(Drop)]
pub struct Named {
    pub name: String,
    pub bytes: Vec<u8>,
}

/// The number of these digits, and the other where there are none.
fn number_or(digits: &str, other: usize) -> usize {
    digits.parse::<usize>().unwrap_or(other)
}

/// The numbers in a line.
pub fn numbers_in(line: &str, out: &mut Out) -> Vec<usize> {
    let mut found = Vec::new(out.alloc);
    for word in line.split(' ') {
        if let Ok(number) = word.parse::<usize>() {
            out.note(found.extend_from_slice(&[number]));
        }
    }
    found
}

/// This text, in which `\\s` is a blank.
pub fn text_of(text: &str, out: &mut Out) -> String {
    match text.replace(out.alloc, "\\s", " ") {
        Ok(text) => text,
        Err(_) => {
            out.fail();
            String::new(out.alloc)
        }
    }
}

/// Adds a word, if it is not empty.
fn add_argument(word: &str, words: &mut Vec<String>, out: &mut Out) {
    if !word.is_empty() && words.push(text_of(word, out)).is_err() {
        out.fail();
    }
}

/// The words in a line.
pub fn words_in(line: &str, out: &mut Out) -> Vec<String> {
    let mut found = Vec::new(out.alloc);
    for word in line.split(' ') {
        add_argument(word, &mut found, out);
    }
    found
}

/// The part `A..B]` of these bytes.
fn cut<'a>(bytes: &'a [u8], range: &str) -> Option<&'a [u8]> {
    let (first, last) = range.strip_suffix(']')?.split_once("..")?;
    bytes.get(number_or(first, 0)..number_or(last, bytes.len()))
}

/// The bytes of `NAME` or of `NAME[A..B]`.
fn part<'a>(names: &'a [Named], word: &str) -> Option<&'a [u8]> {
    let (name, range) = word.split_once('[').unwrap_or((word, "..]"));
    for named in names {
        if named.name.as_str() == name {
            return cut(&named.bytes, range);
        }
    }
    None
}

/// Adds the bytes of a word.
pub fn add_word(names: &[Named], word: &str, bytes: &mut Vec<u8>, out: &mut Out) {
    match part(names, word) {
        Some(part) => out.note(bytes.extend_from_slice(part)),
        None => add_digits(word, bytes, out),
    }
}

/// Adds the bytes of a text in which a backslash begins `\n`, `\r` or a backslash.
pub fn add_text(text: &str, bytes: &mut Vec<u8>, out: &mut Out) {
    let mut escaped = false;
    for &byte in text.as_bytes() {
        let letter = match byte {
            b'n' if escaped => b'\n',
            b'r' if escaped => b'\r',
            _ => byte,
        };
        escaped = byte == b'\\' && !escaped;
        if !escaped {
            out.note(bytes.extend_from_slice(&[letter]));
        }
    }
}
