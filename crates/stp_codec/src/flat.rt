//! Packets of which many bytes are there, read at once as numbers and with few branches (MIPI System Trace Protocol,
//! version 2, in this project's profile of it).
//!
//! They are read so for speed alone: what is not found here is read otherwise.

ghost use Rattle.std.specs.Prelude.{◌≡◌, ℕ, ◌+◌, ◌-◌, ◌*◌, ◌/◌, ◌%◌, ◌^◌, ◌<◌, ◌≤◌, ◌==◌, List, true, length, get_or};
ghost use Rattle.std.specs.Prelude.{IfSome};
ghost use Rattle.std.specs.Prelude.{if◌then◌else◌};
ghost use Rattle.stp_codec.specs.Names.{Go, StpPacket, Msn, Start, Size, line_of, row_at, IsProper, rule, begin};
ghost use Rattle.stp_codec.specs.Wholes.{nibbles_in, between, Ends, left_by};
ghost use Rattle.stp_codec.specs.Parts.{row_packet_of};
ghost use Rattle.stp_codec.specs.declared.flat.TheConstants.{WINDOW};

use crate::numbers::{nibble_of, number_at_once};
use stp_grammar::opcode::{payload_at, stamped_at};
use trace_clock::word_nibbles;

/// Bytes that are there where a packet is read so, and behind those of which `find_part` finds what they are: more than
/// the longest packet of a row has, and the shortest ASYNC.
pub const WINDOW: usize = 24;

/// A packet, as numbers.
#[derive(Clone, Copy, Drop)]
pub struct PacketParts {
    /// How many nibbles it takes of the bytes in which it was found.
    pub nibbles: usize,
    /// The number of its row in the table of opcodes, 0 to 34, or `ASYNC`.
    pub number: u8,
    /// The number that its payload makes, 0 where it has none.
    pub payload: u64,
    /// Its timestamp's size, 0 where it has none.
    pub size: u8,
    /// Its timestamp's word, 0 where it has none.
    pub word: u64,
}

impl PacketParts {
    /// The same packet, where so many of its nibbles are before the bytes.
    #[inline(always)]
    pub fn after(&self, before: usize) -> PacketParts
        requires { before ≤ self.now.nibbles }
        ensures { result ≡ record self.now { nibbles = self.now.nibbles - before } }
    {
        PacketParts {
            nibbles: self.nibbles - before,
            number: self.number,
            payload: self.payload,
            size: self.size,
            word: self.word,
        }
    }
}

/// A packet of the row with this number, from its timestamp's size nibble on.
#[inline(always)]
fn parts_from_size(number: u8, payload: u64, bytes: &[u8], start: usize) -> Option<PacketParts>
    requires number { number < 35 }
    requires stamped { (line_of (row_at number)).stamped ≡ true }
    requires fits { payload < 16 ^ (line_of (row_at number)).payload }
    requires there { start + 20 ≤ 2 * length bytes.now }
    ensures end { IfSome result (λ x. (start < x.nibbles) × (x.nibbles ≤ 2 * length bytes.now)) }
    ensures number { IfSome result (λ x. x.number < 35) }
    ensures whole { IfSome result (λ x. Ends Msn (Go (Size (row_at number) payload))
        (between (nibbles_in bytes.now) start x.nibbles) (row_packet_of x)) }
    ensures proper { IfSome result (λ x. IsProper (row_packet_of x)) }
{
    let size = nibble_of(bytes, start);
    if size == 15 {
        return None;
    }
    let count = word_nibbles(size);
    let word = number_at_once(bytes, start + 1, count);
    Some(PacketParts {
        nibbles: start + 1 + count as usize,
        number,
        payload,
        size,
        word,
    })
}

/// A packet of the row with this number, from the nibble after its opcode on.
#[inline(always)]
fn parts_from_opcode(number: u8, bytes: &[u8], start: usize) -> Option<PacketParts>
    requires number { number < 35 }
    requires start { start ≤ 3 }
    requires there { WINDOW ≤ length bytes.now }
    ensures end { IfSome result (λ x. (start ≤ x.nibbles) × (x.nibbles ≤ 2 * length bytes.now)) }
    ensures number { IfSome result (λ x. x.number < 35) }
    ensures whole { IfSome result (λ x. Ends Msn (begin (row_at number))
        (between (nibbles_in bytes.now) start x.nibbles) (row_packet_of x)) }
    ensures proper { IfSome result (λ x. IsProper (row_packet_of x)) }
{
    let most = payload_at(number);
    let payload = number_at_once(bytes, start, most);
    let end = start + most as usize;
    if stamped_at(number) {
        parts_from_size(number, payload, bytes, end)
    } else {
        Some(PacketParts {
            nibbles: end,
            number,
            payload,
            size: 0,
            word: 0,
        })
    }
}

/// The numbers of the rows by the last nibbles of their opcodes: those of one nibble, of F and one, and of F, 0 and
/// one. `NONE` where there is none.
const OPCODES: &[u8] = &[
    0, 1, 2, 3, 4, 5, 6, 7, 8, 9, 10, 11, 12, 13, 14, 35, 35, 15, 16, 17, 18, 19, 20, 21, 22, 23,
    24, 25, 26, 27, 28, 35, 29, 30, 35, 35, 35, 35, 31, 32, 33, 34, 35, 35, 35, 35, 35, 35,
];

/// No number of a row.
const NONE: u8 = 35;

/// The number of the row of whose opcode these are the first three nibbles, the first the least significant, or `NONE`;
/// and how many nibbles the opcode has. No branch chooses between opcodes. `NONE` for ASYNC too.
#[inline(always)]
fn opcode_in(nibbles: u32) -> (u8, usize)
    ensures number { result.0 ≤ 35 }
    ensures few { (0 < result.1) × (result.1 ≤ 3) }
    ensures whole { (r : List ℕ) (start end : ℕ) (packet : StpPacket) → result.0 < 35 → start + 1 < length r →
        nibbles / 16 % 16 ≡ get_or r start 0 → nibbles / 256 % 16 ≡ get_or r (start + 1) 0 →
        start + result.1 ≤ end + 1 →
        Ends Msn (begin (row_at result.0)) (between r (start + result.1 - 1) end) packet →
        Ends Msn (rule Msn Start (nibbles % 16)) (between r start end) packet }
{
    let opcodes = OPCODES;
    let two = u32::from(nibbles % 16 == 15);
    let three = u32::from(nibbles % 256 == 15);
    let before = two + three;
    let last = (nibbles >> (4 * before)) % 16;
    (opcodes[(16 * before + last) as usize], before as usize + 1)
}

/// The first three nibbles of a packet, the first the least significant: this one, if it is not 0, and those of the
/// bytes.
#[inline(always)]
fn front_of(first: u8, bytes: &[u8]) -> u32
    requires first { first < 16 }
    requires there { 2 ≤ length bytes.now }
    ensures first { result % 16 ≡ (if first == 0 then get_or (nibbles_in bytes.now) 0 0 else first) }
    ensures second { result / 16 % 16 ≡ get_or (nibbles_in bytes.now) (if first == 0 then 1 else 0) 0 }
    ensures third { result / 256 % 16 ≡ get_or (nibbles_in bytes.now) ((if first == 0 then 1 else 0) + 1) 0 }
{
    let there = u32::from(bytes[0]) + 256 * u32::from(bytes[1]);
    u32::from(first) + (there << (4 * u32::from(first != 0)))
}

/// The packet that the bytes finish, of which this nibble is before them; none is where that is 0. Most significant
/// nibbles come first. None for ASYNC, and where there is none.
#[inline(always)]
pub fn parts_from_first(first: u8, bytes: &[u8]) -> Option<PacketParts>
    requires first { first < 16 }
    requires there { WINDOW ≤ length bytes.now }
    ensures end { IfSome result (λ x. (0 < x.nibbles) × (x.nibbles ≤ 2 * length bytes.now)) }
    ensures number { IfSome result (λ x. x.number < 35) }
    ensures whole { IfSome result (λ x.
        Ends Msn (Go (left_by Msn first)) (between (nibbles_in bytes.now) 0 x.nibbles) (row_packet_of x)) }
    ensures proper { IfSome result (λ x. IsProper (row_packet_of x)) }
{
    let (number, nibbles) = opcode_in(front_of(first, bytes));
    if number == NONE {
        return None;
    }
    parts_from_opcode(number, bytes, nibbles - usize::from(first != 0))
}
