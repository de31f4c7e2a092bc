//! An unfinished packet, and one more nibble of it.

ghost use Rattle.std.specs.Prelude.{◌≡◌, ◌<◌, ◌≤◌, ◌+◌, ◌*◌, ◌^◌, true};
ghost use Rattle.stp_grammar.specs.declared.packet.Order.TheVariants.{Msn};
ghost use Rattle.stp_grammar.specs.declared.partial.Partial.TheVariants.{Start, Second, Third, Run};
ghost use Rattle.stp_grammar.specs.Opcodes.{line_of, Opening, head_of};
ghost use Rattle.stp_grammar.specs.Names.{nibble_count};
ghost use Rattle.trace_values.specs.declared.limits.TheConstants.{NIBBLE_ROOM};
ghost use Rattle.stp_grammar.specs.Rule.{rule, begin, after_payload, opened};
ghost use Rattle.stp_grammar.specs.Rule.{payload_with, size_with};
ghost use Rattle.stp_grammar.specs.Rule.{word_with, is_sound, IsSoundNext, count_of};
ghost use Rattle.stp_grammar.specs.Rule.{held_after};

use crate::nibble::number_with;
use crate::opcode::{Head, opcode_of, row_at};
use crate::packet::{Order, Row, StpPacket};
use trace_clock::word_nibbles;
use trace_values::{Next, Reason};

/// What is kept of an unfinished packet: by its nibbles so far, what the next one is.
#[derive(Clone, Copy, Drop)]
pub enum Partial {
    /// There are none: the first nibble of a packet.
    Start,
    /// After F: the second nibble of an opcode, or of ASYNC.
    Second,
    /// After F and 0: the third nibble of an opcode.
    Third,
    /// After this many nibbles F, at least 2: a nibble of ASYNC.
    Run(u64),
    /// After the opcode of this row and `count` payload nibbles, which make this value: another of them.
    Payload {
        row: Row,
        count: u8,
        value: u64,
    },
    /// After the opcode of a row with a timestamp, and its payload: the timestamp's size.
    Size {
        row: Row,
        payload: u64,
    },
    /// After these, a size other than 0 and `count` nibbles of its word, which make this number: another of them.
    Word {
        row: Row,
        payload: u64,
        size: u8,
        count: u8,
        word: u64,
    },
}

/// After the last nibble of a row's payload.
#[inline]
fn after_payload(row: Row, payload: u64) -> Next<Partial, StpPacket>
    requires fits { payload < 16 ^ (line_of row).payload }
    ensures next { result ≡ after_payload row payload }
    ensures sound { IsSoundNext result }
{
    if row.is_stamped() {
        Next::Go(Partial::Size { row, payload })
    } else {
        Next::End(StpPacket::Plain { row, payload })
    }
}

/// After the opcode of this row.
#[inline]
fn begin(row: Row) -> Next<Partial, StpPacket>
    ensures next { result ≡ begin row }
    ensures sound { IsSoundNext result }
{
    if row.payload_nibbles() == 0 {
        after_payload(row, 0)
    } else {
        Next::Go(Partial::Payload {
            row,
            count: 0,
            value: 0,
        })
    }
}

/// After nibbles of an opcode, which begin this, with the state where they are only a front.
#[inline]
fn opened(head: Head, front: Partial) -> Next<Partial, StpPacket>
    requires known { (opening : Opening) × (head ≡ head_of opening) }
    requires sound { is_sound front ≡ true }
    ensures next { (opening : Opening) → head ≡ head_of opening → result ≡ opened opening front }
    ensures sound { IsSoundNext result }
{
    match head {
        Head::Whole(number) => begin(row_at(number)),
        Head::More => Next::Go(front),
        Head::Refused => Next::Fail(Reason::Unsupported),
    }
}

/// The first nibble of a packet.
#[inline]
fn first(nibble: u8) -> Next<Partial, StpPacket>
    requires { nibble < 16 }
    ensures next { result ≡ rule Msn Start nibble }
    ensures sound { IsSoundNext result }
{
    opened(opcode_of(nibble, None, None), Partial::Second)
}

/// The nibble after F: with another F the packet can only be an ASYNC.
#[inline]
fn second(nibble: u8) -> Next<Partial, StpPacket>
    requires { nibble < 16 }
    ensures next { result ≡ rule Msn Second nibble }
    ensures sound { IsSoundNext result }
{
    if nibble == 15 {
        Next::Go(Partial::Run(2))
    } else {
        opened(opcode_of(15, Some(nibble), None), Partial::Third)
    }
}

/// The nibble after F and 0.
#[inline]
fn third(nibble: u8) -> Next<Partial, StpPacket>
    requires { nibble < 16 }
    ensures next { result ≡ rule Msn Third nibble }
    ensures sound { IsSoundNext result }
{
    opened(opcode_of(15, Some(0), Some(nibble)), Partial::Third)
}

/// A nibble after this many nibbles F.
#[inline]
fn run_with(count: u64, nibble: u8) -> Next<Partial, StpPacket>
    requires some { 2 ≤ count }
    requires room { count ≤ NIBBLE_ROOM }
    ensures next { result ≡ rule Msn (Run count) nibble }
    ensures sound { IsSoundNext result }
{
    if nibble == 15 {
        Next::Go(Partial::Run(count + 1))
    } else if nibble == 0 && count >= 21 {
        Next::End(StpPacket::Async)
    } else {
        Next::Fail(Reason::BadAsync)
    }
}

/// After a payload nibble before which there were `count`, and with which they make this value.
#[inline]
fn payload_with(row: Row, count: u8, value: u64) -> Next<Partial, StpPacket>
    requires few { count < (line_of row).payload }
    requires fits { value < 16 ^ (count + 1) }
    ensures next { result ≡ payload_with row count value }
    ensures sound { IsSoundNext result }
{
    if count + 1 == row.payload_nibbles() {
        after_payload(row, value)
    } else {
        Next::Go(Partial::Payload {
            row,
            count: count + 1,
            value,
        })
    }
}

/// A timestamp's size nibble.
#[inline]
fn size_with(row: Row, payload: u64, size: u8) -> Next<Partial, StpPacket>
    requires fits { payload < 16 ^ (line_of row).payload }
    ensures next { result ≡ size_with row payload size }
    ensures sound { IsSoundNext result }
{
    match size {
        0 => Next::End(StpPacket::Stamped {
            row,
            payload,
            size: 0,
            word: 0,
        }),
        1..=14 => Next::Go(Partial::Word {
            row,
            payload,
            size,
            count: 0,
            word: 0,
        }),
        _ => Next::Fail(Reason::StampSize),
    }
}

/// After a nibble of a timestamp's word before which there were `count`, and with which they make this number.
#[inline]
fn word_with(row: Row, payload: u64, size: u8, count: u8, word: u64) -> Next<Partial, StpPacket>
    requires fits { payload < 16 ^ (line_of row).payload }
    requires size { size < 15 }
    requires few { count < nibble_count size }
    requires word { word < 16 ^ (count + 1) }
    ensures next { result ≡ word_with row payload size count word }
    ensures sound { IsSoundNext result }
{
    if count + 1 == word_nibbles(size) {
        Next::End(StpPacket::Stamped {
            row,
            payload,
            size,
            word,
        })
    } else {
        Next::Go(Partial::Word {
            row,
            payload,
            size,
            count: count + 1,
            word,
        })
    }
}

impl Partial {
    /// The unfinished packet with one more nibble.
    #[inline]
    pub fn with_nibble(self, order: Order, nibble: u8) -> Next<Partial, StpPacket>
        requires sound { is_sound self ≡ true }
        requires nibble { nibble < 16 }
        requires room { count_of self ≤ NIBBLE_ROOM }
        ensures next { result ≡ rule order self nibble }
        ensures sound { IsSoundNext result }
        ensures held { held_after result ≤ count_of self + 1 }
    {
        match self {
            Partial::Start => first(nibble),
            Partial::Second => second(nibble),
            Partial::Third => third(nibble),
            Partial::Run(count) => run_with(count, nibble),
            Partial::Payload { row, count, value } => payload_with(
                row,
                count,
                number_with(order, count, value, nibble),
            ),
            Partial::Size { row, payload } => size_with(row, payload, nibble),
            Partial::Word {
                row,
                payload,
                size,
                count,
                word,
            } => word_with(
                row,
                payload,
                size,
                count,
                number_with(order, count, word, nibble),
            ),
        }
    }

    /// How many nibbles of the unfinished packet there are.
    #[inline]
    pub fn len(self) -> u64
        ensures { result ≡ count_of self }
    {
        match self {
            Partial::Start => 0,
            Partial::Second => 1,
            Partial::Third => 2,
            Partial::Run(count) => count,
            Partial::Payload { row, count, .. } => u64::from(row.opcode_nibbles())
                + u64::from(count),
            Partial::Size { row, .. } => u64::from(row.opcode_nibbles())
                + u64::from(row.payload_nibbles()),
            Partial::Word { row, count, .. } => u64::from(row.opcode_nibbles())
                + u64::from(row.payload_nibbles())
                + 1
                + u64::from(count),
        }
    }
}
