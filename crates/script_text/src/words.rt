//! The words of a line.

ghost use Rattle.std.specs.Prelude.{◌≡◌, ◌≤◌, ◌+◌, ◌∷◌, [], ◌++◌, true, ◌&&◌, nat_lt, length};
ghost use Rattle.std.specs.List.{prefix_len};
ghost use Rattle.arrayvec.specs.ArrayVec.{array_vec_len};
ghost use Rattle.script_text.specs.Words.{is_graphic, are_printable, texts, words_in, are_words, word_of};

use arrayvec::ArrayVec;

/// At most eight words: no item has more than seven, and its source's ID is before them.
pub type Words<'a> = ArrayVec<&'a [u8], 8>;

/// Whether a byte is a printable character, and no space.
fn is_graphic(byte: u8) -> bool
    ensures { result ≡ is_graphic byte }
{
    0x20 < byte && byte <= 0x7E
}

/// How many such bytes a line begins with.
fn word_len(line: &[u8]) -> usize
    ensures value { result ≡ prefix_len is_graphic line.now }
    ensures bound { result ≤ length line.now }
{
    match line {
        [] => 0,
        [byte, line @ ..] => {
            if is_graphic(*byte) {
                1 + word_len(line)
            } else {
                0
            }
        }
    }
}

/// Puts a word after others; false where it is empty, or there is no room.
fn put_word<'a>(word: &'a [u8], words: &mut Words<'a>) -> bool
    ensures told { result ≡ (nat_lt 0 (length word.now) && nat_lt (array_vec_len words.old) 8) }
    ensures put { result ≡ true → texts words.new.items ≡ texts words.old.items ++ word.now ∷ [] }
    ensures count { result ≡ true → array_vec_len words.new ≡ array_vec_len words.old + 1 }
{
    !word.is_empty() && words.try_push(word).is_ok()
}

/// Puts the words of a line, which are between single spaces, after others; false where one is empty or has a byte that
/// is not printable, or there is no room.
pub fn put_words<'a>(line: &'a [u8], words: &mut Words<'a>) -> bool
    ensures told { result ≡ (are_printable line.now && are_words (array_vec_len words.old) (words_in line.now)) }
    ensures put { result ≡ true → texts words.new.items ≡ texts words.old.items ++ words_in line.now }
{
    let end = word_len(line);
    if end == line.len() {
        return put_word(line, words);
    }
    if line[end] != b' ' {
        return false;
    }
    if !put_word(&line[..end], words) {
        return false;
    }
    put_words(&line[end + 1..], words)
}

/// The word of this number, from 0 on; an empty one where there is none.
pub fn word_of<'a>(words: &[&'a [u8]], k: usize) -> &'a [u8]
    ensures { result.now ≡ word_of (texts words.now) k }
{
    if k < words.len() { words[k] } else { &[] }
}
