//! An unfinished packet, and one more byte of it.

ghost use Rattle.std.specs.Prelude.{◌≡◌, ◌+◌, ◌*◌, ◌/◌, ◌%◌, ◌^◌, ◌<◌, ◌≤◌, ◌==◌, true};
ghost use Rattle.itm_grammar.specs.Header.{is_proper_class};
ghost use Rattle.itm_grammar.specs.declared.packet.ItmPacket.TheVariants.{GlobalFirst};
ghost use Rattle.itm_grammar.specs.declared.partial.Partial.TheVariants.{Zeros};
ghost use Rattle.itm_grammar.specs.Rule.{rule, begin, payload_with, last, another_follows, source};
ghost use Rattle.itm_grammar.specs.Rule.{second_stamp, digit, base_of, is_sound, is_sound_payload};
ghost use Rattle.itm_grammar.specs.Rule.{IsSoundNext, StopsProperly, FitsLast, count_of, held_after};
ghost use Rattle.trace_values.specs.declared.limits.TheConstants.{COUNT_ROOM};

use crate::header::{Class, classify};
use crate::packet::{ItmPacket, Lateness, Size};
use trace_values::{Next, Reason};

/// What is kept of an unfinished packet.
#[derive(Clone, Copy, Drop)]
pub enum Partial {
    /// Nothing: the next byte is a header.
    Header,
    /// This many bytes 00, at least one.
    Zeros(u64),
    /// A header of this class, and this many payload bytes, which stand for this number.
    Payload { class: Class, count: u8, value: u64 },
}

/// The number that payload bytes stand for with one more, the least byte first.
#[inline(always)]
fn number_with(value: u64, count: u8, byte: u8) -> u64
    requires few { count < 4 }
    requires fits { value < 256 ^ count }
    ensures { result ≡ value + byte * 256 ^ count }
{
    let byte = u64::from(byte);
    match count {
        0 => byte,
        1 => value + 256 * byte,
        2 => value + 65536 * byte,
        _ => value + 16777216 * byte,
    }
}

/// The number that payload bytes stand for with one more of which these are the bits, seven a byte, the
/// lowest first. The last byte of an extension packet has eight.
#[inline(always)]
fn groups_with(value: u64, count: u8, bits: u8) -> u64
    requires few { count < 6 }
    requires fits { value < 128 ^ count }
    ensures { result ≡ value + bits * 128 ^ count }
{
    let bits = u64::from(bits);
    match count {
        0 => bits,
        1 => value + 0x80 * bits,
        2 => value + 0x4000 * bits,
        3 => value + 0x20_0000 * bits,
        4 => value + 0x1000_0000 * bits,
        _ => value + 0x8_0000_0000 * bits,
    }
}

/// What a header of this class begins.
#[inline(always)]
fn begin(class: Class) -> Next<Partial, ItmPacket>
    requires { is_proper_class class ≡ true }
    ensures next { result ≡ begin class }
    ensures sound { IsSoundNext result }
{
    match class {
        Class::Zero => Next::Go(Partial::Zeros(1)),
        Class::Overflow => Next::End(ItmPacket::Overflow),
        Class::LocalShort(delta) => Next::End(ItmPacket::Local {
            lateness: Lateness::Exact,
            delta: u32::from(delta),
        }),
        Class::Extension {
            more: false,
            dwt,
            low,
        } => Next::End(ItmPacket::Extension {
            dwt,
            value: u32::from(low),
        }),
        Class::Reserved => Next::Fail(Reason::ReservedHeader),
        Class::Source { .. }
        | Class::LocalLong(_)
        | Class::GlobalFirst
        | Class::GlobalSecond
        | Class::Extension { .. } => Next::Go(Partial::Payload {
            class,
            count: 0,
            value: 0,
        }),
    }
}

#[inline(always)]
fn zeros_with(count: u64, byte: u8) -> Next<Partial, ItmPacket>
    requires { count ≤ COUNT_ROOM }
    ensures next { result ≡ rule (Zeros count) byte }
    ensures sound { IsSoundNext result }
{
    if byte == 0 {
        Next::Go(Partial::Zeros(count + 1))
    } else if byte == 128 && count >= 5 {
        Next::End(ItmPacket::Sync)
    } else {
        Next::Fail(Reason::BadItmSync)
    }
}

/// The number of the payload with one more byte.
#[inline(always)]
fn value_with(class: Class, count: u8, value: u64, byte: u8) -> u64
    requires sound { is_sound_payload class count value ≡ true }
    ensures { result ≡ value + digit class count byte * base_of class ^ count }
{
    match class {
        Class::Source { .. } => number_with(value, count, byte),
        Class::Extension { .. } if count == 3 => groups_with(value, count, byte),
        _ => groups_with(value, count, byte % 128),
    }
}

/// Whether another payload byte follows this one, by the size or by bit 7.
#[inline(always)]
fn another_follows(class: Class, count: u8, byte: u8) -> bool
    requires { count < 6 }
    ensures { result ≡ another_follows class count byte }
{
    match class {
        Class::Source { size, .. } => count + 1 < size.byte_count(),
        Class::GlobalSecond => byte >= 128 && count < 5,
        Class::LocalLong(_) | Class::GlobalFirst | Class::Extension { more: true, .. } => {
            byte >= 128 && count < 3
        }
        _ => false,
    }
}

#[inline(always)]
fn source(hardware: bool, number: u8, size: Size, value: u32) -> ItmPacket
    ensures { result ≡ source hardware number size value }
{
    if hardware {
        ItmPacket::Hardware {
            disc: number,
            size,
            value,
        }
    } else {
        ItmPacket::Software {
            port: number,
            size,
            value,
        }
    }
}

/// A first global timestamp of this many payload bytes: 26 bits of the time, clock change and wrap.
#[inline(always)]
fn first_stamp(count: u8, value: u64) -> ItmPacket
    ensures { result ≡
        GlobalFirst count (value % 2 ^ 26) ((value / 2 ^ 26) % 2 == 1) ((value / 2 ^ 27) % 2 == 1) }
{
    ItmPacket::GlobalFirst {
        len: count,
        value: (value % 0x400_0000) as u32,
        change: (value / 0x400_0000) % 2 == 1,
        wrap: (value / 0x800_0000) % 2 == 1,
    }
}

/// A second global timestamp of this many payload bytes; the bits above those of the time are ignored.
#[inline(always)]
fn second_stamp(count: u8, value: u64) -> Next<Partial, ItmPacket>
    ensures next { result ≡ second_stamp count value }
    ensures sound { IsSoundNext result }
    ensures ends { held_after result ≡ 0 }
{
    match count {
        4 => Next::End(ItmPacket::GlobalSecond {
            wide: false,
            value: value % 0x40_0000,
        }),
        6 => Next::End(ItmPacket::GlobalSecond {
            wide: true,
            value: value % 0x40_0000_0000,
        }),
        _ => Next::Fail(Reason::ShortStamp),
    }
}

/// The last payload byte, with which they are this many, and stand for this number.
#[inline(always)]
fn last(class: Class, count: u8, value: u64, byte: u8) -> Next<Partial, ItmPacket>
    requires { FitsLast class value }
    ensures next { result ≡ last class count value byte }
    ensures sound { IsSoundNext result }
    ensures ends { held_after result ≡ 0 }
{
    match class {
        Class::Source {
            hardware,
            number,
            size,
        } => Next::End(source(hardware, number, size, value as u32)),
        Class::Extension { dwt, low, .. } => Next::End(ItmPacket::Extension {
            dwt,
            value: (u64::from(low) + 8 * value) as u32,
        }),
        Class::LocalLong(_) | Class::GlobalFirst | Class::GlobalSecond if byte >= 128 => {
            Next::Fail(Reason::LongStamp)
        }
        Class::LocalLong(lateness) => Next::End(ItmPacket::Local {
            lateness,
            delta: value as u32,
        }),
        Class::GlobalFirst => Next::End(first_stamp(count, value)),
        Class::GlobalSecond => second_stamp(count, value),
        Class::Zero | Class::Overflow | Class::LocalShort(_) | Class::Reserved => {
            Next::Fail(Reason::ReservedHeader)
        }
    }
}

#[inline(always)]
fn payload_with(class: Class, count: u8, value: u64, byte: u8) -> Next<Partial, ItmPacket>
    requires proper { is_proper_class class ≡ true }
    requires sound { is_sound_payload class count value ≡ true }
    ensures next { result ≡ payload_with class count (value + digit class count byte * base_of class ^ count) byte }
    ensures sound { IsSoundNext result }
    ensures held { held_after result ≤ count + 2 }
{
    let value = value_with(class, count, value, byte);
    if another_follows(class, count, byte) {
        Next::Go(Partial::Payload {
            class,
            count: count + 1,
            value,
        })
    } else {
        last(class, count + 1, value, byte)
    }
}

impl Partial {
    /// The unfinished packet with one more byte.
    #[inline(always)]
    pub fn with_byte(self, byte: u8) -> Next<Partial, ItmPacket>
        requires sound { is_sound self ≡ true }
        requires room { count_of self ≤ COUNT_ROOM }
        ensures next { result ≡ rule self byte }
        ensures sound { IsSoundNext result }
        ensures proper { StopsProperly result }
        ensures held { held_after result ≤ count_of self + 1 }
    {
        match self {
            Partial::Header => begin(classify(byte)),
            Partial::Zeros(count) => zeros_with(count, byte),
            Partial::Payload {
                class,
                count,
                value,
            } => payload_with(class, count, value, byte),
        }
    }

    /// How many bytes of the unfinished packet there are.
    pub fn len(self) -> u64
        ensures { result ≡ count_of self }
    {
        match self {
            Partial::Header => 0,
            Partial::Zeros(count) => count,
            Partial::Payload { count, .. } => u64::from(count) + 1,
        }
    }
}
