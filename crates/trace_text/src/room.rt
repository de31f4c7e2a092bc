//! Bytes and numbers in the room that a text is given. Each is put after the first `from` bytes,
//! and its end is the answer.

ghost use Rattle.std.specs.Prelude.{◌≡◌, ◌+◌, ◌*◌, ◌≤◌, ◌<◌, ◌++◌, ◌∷◌, [], length, take, drop, codes, decimal, nat_lt};
ghost use Rattle.std.specs.Prelude.{if◌then◌else◌, ◌/◌, slice_index};
ghost use Rattle.hex.specs.Hex.{encode_lower};
ghost use Rattle.trace_text.specs.Pairs.{pair, four, eight};
ghost use Rattle.itm_grammar.specs.Spelling.{byte_count};
ghost use Rattle.trace_text.specs.Values.{bytes_of_value, value_text, width_text};
ghost use Rattle.trace_text.specs.Puts.{Puts, PutsAll};

use crate::tables::{NUMBERS, PAIRS, PORTS, VALUE_LENS, VALUE_SHIFTS, WIDTH_LENS, WIDTHS};
use itm_grammar::packet::Size;

/// Bytes that a number or a value is given: more than any has.
pub(crate) const NUMBER_ROOM: usize = 24;

/// Bytes that a number of at most three digits is given.
pub(crate) const SHORT_ROOM: usize = 4;

/// Bytes that a number of at most five digits is given: more than any has.
pub(crate) const MEDIUM_ROOM: usize = 7;

/// The most bytes of a word.
pub(crate) const WORD_ROOM: usize = 12;

/// Bytes that a part of a line is given, as two words and a number.
pub(crate) const PART_ROOM: usize = 50;

/// Bytes that the text of a packet is given, or two parts of a line.
pub(crate) const ITEM_ROOM: usize = 80;

/// Puts a piece whose length is a constant, as a word that the code spells. Its bytes are put one by one, which becomes
/// a few stores of whole words: a copy of a slice asks first whether the two overlap.
#[inline(always)]
pub(crate) fn put_bytes(room: &mut [u8], from: usize, piece: &[u8]) -> usize
    requires room { from + length piece.now ≤ length room.old }
    ensures { PutsAll room.old room.new from result (length piece.now) piece.now }
{
    let mut end = from;
    for index in 0..piece.len() {
        end = put_byte(room, end, piece[index]);
    }
    end
}

/// Puts a piece whose length is known only when it runs. It is copied as a whole, since a loop would ask at each byte
/// whether it is the last.
#[inline(always)]
pub(crate) fn put_slice(room: &mut [u8], from: usize, piece: &[u8]) -> usize
    requires room { from + length piece.now ≤ length room.old }
    ensures { PutsAll room.old room.new from result (length piece.now) piece.now }
{
    let end = from + piece.len();
    room[from..end].copy_from_slice(piece);
    end
}

/// Puts one byte.
#[inline(always)]
pub(crate) fn put_byte(room: &mut [u8], from: usize, byte: u8) -> usize
    requires room { from + 1 ≤ length room.old }
    ensures { PutsAll room.old room.new from result 1 (byte ∷ []) }
{
    room[from] = byte;
    from + 1
}

/// Puts the first `len` bytes of the entry of this number in a table, whose entries have `size` bytes each, a constant.
/// There is room for the whole entry, so that no branch depends on `len`; what is after the text's end is of no
/// account.
#[inline(always)]
pub(crate) fn put_entry(
    room: &mut [u8],
    from: usize,
    table: &[u8],
    size: usize,
    number: usize,
    len: usize,
) -> usize
    requires table { size * number + size ≤ length table.now }
    requires few { len ≤ size }
    requires room { from + size ≤ length room.old }
    ensures { PutsAll room.old room.new from result len (take len (drop (size * number) table.now)) }
{
    let start = size * number;
    let _all = put_bytes(room, from, &table[start..start + size]);
    from + len
}

/// Puts what a table of entries of `size` bytes, a constant, has for this number: as many bytes as the table beside it
/// says. No branch depends on how many they are.
#[inline(always)]
pub(crate) fn put_part(
    room: &mut [u8],
    from: usize,
    table: &[u8],
    size: usize,
    lens: &[u8],
    number: u8,
) -> usize
    requires number { number < length lens.now }
    requires table { size * number + size ≤ length table.now }
    requires few { slice_index lens.now number ≤ size }
    requires room { from + size ≤ length room.old }
    ensures { Puts room.old room.new from result size
        (take (slice_index lens.now number) (drop (size * number) table.now)) }
{
    let number = number as usize;
    put_entry(room, from, table, size, number, lens[number] as usize)
}

/// Puts the tens and the ones of a number below 100.
#[inline]
pub(crate) fn put_two(room: &mut [u8], from: usize, number: u8) -> usize
    requires room { from + 2 ≤ length room.old }
    requires two { number < 100 }
    ensures { PutsAll room.old room.new from result 2 (pair number) }
{
    put_entry(room, from, PAIRS, 2, number as usize, 2)
}

/// Puts the first `len` of the bytes, which are copied as a whole, so that where their number is a constant no branch
/// depends on `len`. There is room for all of them. What is after the text's end is of no account.
#[inline(always)]
pub(crate) fn put_front(room: &mut [u8], from: usize, bytes: &[u8], len: usize) -> usize
    requires few { len ≤ length bytes.now }
    requires room { from + length bytes.now ≤ length room.old }
    ensures { PutsAll room.old room.new from result len (take len bytes.now) }
{
    let _all = put_slice(room, from, bytes);
    from + len
}

/// Puts a number of at most three digits in decimal. No branch depends on how many it has.
#[inline]
pub(crate) fn put_short(room: &mut [u8], from: usize, number: u8) -> usize
    requires room { from + SHORT_ROOM ≤ length room.old }
    ensures { Puts room.old room.new from result 3 (decimal number) }
{
    let has_two = number >= 10;
    let has_three = number >= 100;
    let len = 1 + has_two as usize + has_three as usize;
    put_entry(room, from, NUMBERS, 4, number as usize, len)
}

/// Puts `port`, the number of a stimulus port, and a space after it.
#[inline(always)]
pub(crate) fn put_port(room: &mut [u8], from: usize, port: u8) -> usize
    requires port { port < 32 }
    requires room { from + 8 ≤ length room.old }
    ensures { Puts room.old room.new from result 8 (codes "port " ++ (decimal port ++ codes " ")) }
{
    let has_two = port >= 10;
    let len = 7 + has_two as usize;
    put_entry(room, from, PORTS, 8, port as usize, len)
}

/// Puts the four digits of a number below 10,000, also those that are leading zeros.
#[inline(always)]
fn put_four(room: &mut [u8], from: usize, number: u16) -> usize
    requires room { from + 4 ≤ length room.old }
    requires four { number < 10000 }
    ensures { PutsAll room.old room.new from result 4 (four number) }
{
    let from = put_two(room, from, (number / 100) as u8);
    put_two(room, from, (number % 100) as u8)
}

/// Puts the eight digits of a number below 100,000,000, also those that are leading zeros.
#[inline(always)]
fn put_eight(room: &mut [u8], from: usize, number: u32) -> usize
    requires room { from + 8 ≤ length room.old }
    requires eight { number < 100000000 }
    ensures { PutsAll room.old room.new from result 8 (eight number) }
{
    let from = put_four(room, from, (number / 10_000) as u16);
    put_four(room, from, (number % 10_000) as u16)
}

/// Puts a number below 10,000 in decimal.
#[inline(always)]
fn put_up_to_four(room: &mut [u8], from: usize, number: u16) -> usize
    requires room { from + 5 ≤ length room.old }
    requires few { number < 10000 }
    ensures { Puts room.old room.new from result 5 (decimal number) }
{
    if number < 100 {
        return put_short(room, from, number as u8);
    }
    let from = put_short(room, from, (number / 100) as u8);
    put_two(room, from, (number % 100) as u8)
}

/// Puts a number below 100,000,000 in decimal.
#[inline(always)]
fn put_up_to_eight(room: &mut [u8], from: usize, number: u32) -> usize
    requires room { from + 9 ≤ length room.old }
    requires few { number < 100000000 }
    ensures { Puts room.old room.new from result 9 (decimal number) }
{
    if number < 10_000 {
        return put_up_to_four(room, from, number as u16);
    }
    let from = put_up_to_four(room, from, (number / 10_000) as u16);
    put_four(room, from, (number % 10_000) as u16)
}

/// Puts a number in decimal, without leading zeros.
#[inline]
pub(crate) fn put_number(room: &mut [u8], from: usize, number: u64) -> usize
    requires room { from + NUMBER_ROOM ≤ length room.old }
    ensures { Puts room.old room.new from result NUMBER_ROOM (decimal number) }
{
    if number < 100_000_000 {
        return put_up_to_eight(room, from, number as u32);
    }
    let high = number / 100_000_000;
    let from = if high < 100_000_000 {
        put_up_to_eight(room, from, high as u32)
    } else {
        let from = put_up_to_four(room, from, (high / 100_000_000) as u16);
        put_eight(room, from, (high % 100_000_000) as u32)
    };
    put_eight(room, from, (number % 100_000_000) as u32)
}

/// Puts a word, and a number after it.
#[inline(always)]
pub(crate) fn put_count(room: &mut [u8], from: usize, word: &[u8], number: u64) -> usize
    requires room { from + length word.now + NUMBER_ROOM ≤ length room.old }
    ensures { Puts room.old room.new from result (length word.now + NUMBER_ROOM) (word.now ++ decimal number) }
{
    let from = put_bytes(room, from, word);
    put_number(room, from, number)
}

/// Puts a number of at most five digits in decimal.
#[inline]
pub(crate) fn put_medium(room: &mut [u8], from: usize, number: u16) -> usize
    requires room { from + MEDIUM_ROOM ≤ length room.old }
    ensures { Puts room.old room.new from result MEDIUM_ROOM (decimal number) }
{
    if number < 10_000 {
        return put_up_to_four(room, from, number);
    }
    let from = put_short(room, from, (number / 10_000) as u8);
    put_four(room, from, number % 10_000)
}

/// Puts bytes in hexadecimal, two digits each.
#[inline(always)]
pub(crate) fn put_digits(room: &mut [u8], from: usize, bytes: &[u8]) -> usize
    requires { from + 2 * length bytes.now ≤ length room.old }
    ensures { PutsAll room.old room.new from result (2 * length bytes.now) (encode_lower bytes.now) }
{
    let end = from + 2 * bytes.len();
    let _ = hex::encode_to_slice(bytes, &mut room[from..end]);
    end
}

/// Puts the hexadecimal digits of the first `count` of four bytes. No branch depends on how many they are.
#[inline(always)]
fn put_hex_front(room: &mut [u8], from: usize, bytes: &[u8; 4], count: usize) -> usize
    requires few { count ≤ 4 }
    requires room { from + 8 ≤ length room.old }
    ensures { PutsAll room.old room.new from result (2 * count) (encode_lower (take count bytes.now)) }
{
    let _all = put_digits(room, from, bytes);
    from + 2 * count
}

/// Puts the word of a width and a space after it. What depends on the size is read from tables by its number: a `match`
/// of it would become a branch.
#[inline(always)]
fn put_width(room: &mut [u8], from: usize, size: Size) -> usize
    requires room { from + 4 ≤ length room.old }
    ensures { Puts room.old room.new from result 4 (width_text size) }
{
    put_part(room, from, WIDTHS, 4, WIDTH_LENS, size as u8)
}

/// The bytes of a value of this size, the most significant first, and then others. No branch depends on the size.
#[inline(always)]
fn value_bytes(size: Size, value: u32) -> [u8; 4]
    ensures { take (byte_count size) result ≡ bytes_of_value size value }
{
    let shifts = VALUE_SHIFTS;
    (value << shifts[size as usize]).to_be_bytes()
}

/// How many bytes a value of this size has. No branch depends on the size.
#[inline(always)]
fn value_len(size: Size) -> usize
    ensures { result ≡ byte_count size }
{
    let lens = VALUE_LENS;
    lens[size as usize] as usize
}

/// Puts the word of a width, and the value in hexadecimal with as many digits as its bytes have.
#[inline(always)]
pub(crate) fn put_value(room: &mut [u8], from: usize, size: Size, value: u32) -> usize
    requires room { from + NUMBER_ROOM ≤ length room.old }
    ensures { Puts room.old room.new from result NUMBER_ROOM (value_text size value) }
{
    let from = put_width(room, from, size);
    put_hex_front(room, from, &value_bytes(size, value), value_len(size))
}
