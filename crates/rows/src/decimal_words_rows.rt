//! Rows of `decimal_words`.

use crate::notation::Words;
use crate::out::Out;
use decimal_words::{bytes_after, id_in, id_named, number_in, number_named, text_after};

/// Writes a `?` where two ways of the library, over texts and over bytes, differ.
fn compare(are_same: bool, out: &mut Out) {
    if !are_same {
        out.put("  ? bytes\n");
    }
}

/// Writes the number that a text says, if it is in the range.
fn put_number(least: u64, greatest: u64, text: &str, out: &mut Out) {
    let found = number_named(least, greatest, text);
    compare(found == number_in(least, greatest, text.as_bytes()), out);
    out.optional(&found);
}

/// `number LEAST GREATEST 'TEXT`: the number that the text says, if it is in the range.
fn number(mut words: Words<'_>, out: &mut Out) {
    let (least, greatest) = (words.number(), words.number());
    put_number(least, greatest, words.text(), out);
}

/// Writes the number of the source that a text says, if it is in the range.
fn put_id(least: u8, greatest: u8, text: &str, out: &mut Out) {
    if greatest > 126 {
        return out.put("  ? no range of sources\n");
    }
    let found = id_named(least, greatest, text);
    compare(found == id_in(least, greatest, text.as_bytes()), out);
    match found {
        Some(id) => out.value(&id.number()),
        None => out.put("  none\n"),
    }
}

/// `id LEAST GREATEST 'TEXT`: the number of the source that the text says, if it is in the range.
fn id(mut words: Words<'_>, out: &mut Out) {
    let (least, greatest) = (words.byte(), words.byte());
    put_id(least, greatest, words.text(), out);
}

/// Writes the rest of a text, if there is one.
fn put_rest(rest: Option<&str>, out: &mut Out) {
    match rest {
        Some(rest) => {
            out.put("  '");
            out.put(rest);
            out.put("\n");
        }
        None => out.put("  none\n"),
    }
}

/// Writes what is after this front of a text.
fn put_after(front: &str, text: &str, out: &mut Out) {
    put_rest(text_after(front, text), out);
    let of_text = text_after(front, text).is_some();
    compare(
        of_text == bytes_after(front.as_bytes(), text.as_bytes()).is_some(),
        out,
    );
}

/// `after FRONT 'TEXT`: what is after this front of the text.
fn after(mut words: Words<'_>, out: &mut Out) {
    let front = words.word();
    put_after(front, words.text(), out);
}

/// Runs the row of this call.
pub fn run(call: &str, words: Words<'_>, out: &mut Out) {
    match call {
        "number" => number(words, out),
        "id" => id(words, out),
        "after" => after(words, out),
        _ => out.put("  ? no such call\n"),
    }
}
