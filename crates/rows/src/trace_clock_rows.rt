//! Rows of `trace_clock`.

use crate::notation::Words;
use crate::out::Out;
use trace_clock::{Stamps, word_after, word_fits, word_nibbles};

/// The size whose word is a whole one.
const WHOLE: u8 = 14;

/// Writes how many nibbles a word of this size has, and the last word after this one.
fn put_after(last: u64, size: u8, word: u64, out: &mut Out) {
    if size < 15 && word_fits(size, word) {
        out.put_word(word_nibbles(size), word_after(last, size, word));
    } else {
        out.put("  no word\n");
    }
}

/// `word_after LAST SIZE WORD`: how many nibbles a word of this size has, and the last word after this one.
fn after(mut words: Words<'_>, out: &mut Out) {
    let (last, size) = (words.number(), words.byte());
    put_after(last, size, words.number(), out);
}

/// Writes the least size that tells the time after this whole word, and its word.
fn put_least(is_gray: bool, word: u64, time: u64, out: &mut Out) {
    if !word_fits(WHOLE, word) {
        return out.put("  no word\n");
    }
    let mut stamps = Stamps::new(is_gray);
    stamps.apply(WHOLE, word);
    let (size, low) = stamps.least(time);
    out.put_word(size, low);
}

/// `least KIND WORD TIME`, where the kind is `gray` or `natural`: the least size that tells the time after this whole
/// word, and its word.
fn least(mut words: Words<'_>, out: &mut Out) {
    let is_gray = words.word() == "gray";
    let word = words.number();
    put_least(is_gray, word, words.number(), out);
}

/// Runs the row of this call.
pub fn run(call: &str, words: Words<'_>, out: &mut Out) {
    match call {
        "word_after" => after(words, out),
        "least" => least(words, out),
        _ => out.put("  ? no such call\n"),
    }
}
