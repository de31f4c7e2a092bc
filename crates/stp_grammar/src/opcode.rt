//! The table of opcodes (MIPI System Trace Protocol, version 2; which of them are read, with which payloads, is this
//! project's profile).

ghost use Rattle.std.specs.Prelude.{◌≡◌, ◌<◌, ◌≤◌, ◌+◌, [], ◌∷◌, length, true};
ghost use Rattle.stp_grammar.specs.declared.packet.Row.TheVariants.{Datum};
ghost use Rattle.std.specs.Prelude.{None};
ghost use Rattle.std.specs.Option.{ForSome};
ghost use Rattle.stp_grammar.specs.Opcodes.{line_of, row_at, head_of, opening_of, given, listed};

use crate::packet::{Row, Width};

macro_rules! datum {
    ($width:ident, $marked:literal, $stamped:literal) => {
        Row::Datum {
            width: Width::$width,
            marked: $marked,
            stamped: $stamped,
        }
    };
}

/// The table, with the standard's names beside it: what `of!` takes from each line, in their order. A line is a row,
/// the nibbles of its opcode, how many its payload has, and whether a timestamp follows. After the lines these are.
macro_rules! each_line {
    ($of:ident $(, $after:literal)*) => {
        &[
            $of!(Row::Null, [0x0], 0, false), // NULL
            $of!(Row::Master8, [0x1], 2, false), // M8
            $of!(Row::MasterError, [0x2], 2, false), // MERR
            $of!(Row::Channel8, [0x3], 2, false), // C8
            $of!(datum!(Eight, false, false), [0x4], 2, false), // D8
            $of!(datum!(Sixteen, false, false), [0x5], 4, false), // D16
            $of!(datum!(ThirtyTwo, false, false), [0x6], 8, false), // D32
            $of!(datum!(SixtyFour, false, false), [0x7], 16, false), // D64
            $of!(datum!(Eight, true, true), [0x8], 2, true), // D8MTS
            $of!(datum!(Sixteen, true, true), [0x9], 4, true), // D16MTS
            $of!(datum!(ThirtyTwo, true, true), [0xA], 8, true), // D32MTS
            $of!(datum!(SixtyFour, true, true), [0xB], 16, true), // D64MTS
            $of!(datum!(Four, false, false), [0xC], 1, false), // D4
            $of!(datum!(Four, true, true), [0xD], 1, true), // D4MTS
            $of!(Row::Flag { stamped: true }, [0xE], 0, true), // FLAG_TS
            $of!(Row::Master16, [0xF, 0x1], 4, false), // M16
            $of!(Row::GlobalError, [0xF, 0x2], 2, false), // GERR
            $of!(Row::Channel16, [0xF, 0x3], 4, false), // C16
            $of!(datum!(Eight, false, true), [0xF, 0x4], 2, true), // D8TS
            $of!(datum!(Sixteen, false, true), [0xF, 0x5], 4, true), // D16TS
            $of!(datum!(ThirtyTwo, false, true), [0xF, 0x6], 8, true), // D32TS
            $of!(datum!(SixtyFour, false, true), [0xF, 0x7], 16, true), // D64TS
            $of!(datum!(Eight, true, false), [0xF, 0x8], 2, false), // D8M
            $of!(datum!(Sixteen, true, false), [0xF, 0x9], 4, false), // D16M
            $of!(datum!(ThirtyTwo, true, false), [0xF, 0xA], 8, false), // D32M
            $of!(datum!(SixtyFour, true, false), [0xF, 0xB], 16, false), // D64M
            $of!(datum!(Four, false, true), [0xF, 0xC], 1, true), // D4TS
            $of!(datum!(Four, true, false), [0xF, 0xD], 1, false), // D4M
            $of!(Row::Flag { stamped: false }, [0xF, 0xE], 0, false), // FLAG
            $of!(Row::Version, [0xF, 0x0, 0x0], 1, false), // VERSION
            $of!(Row::NullStamp, [0xF, 0x0, 0x1], 0, true), // NULL_TS
            $of!(Row::Trigger { stamped: false }, [0xF, 0x0, 0x6], 2, false), // TRIG
            $of!(Row::Trigger { stamped: true }, [0xF, 0x0, 0x7], 2, true), // TRIG_TS
            $of!(Row::Frequency { stamped: false }, [0xF, 0x0, 0x8], 8, false), // FREQ
            $of!(Row::Frequency { stamped: true }, [0xF, 0x0, 0x9], 8, true), // FREQ_TS
            $($after,)*
        ]
    };
}

macro_rules! row {
    ($row:expr, $opcode:tt, $payload:literal, $stamped:literal) => {
        $row
    };
}

macro_rules! opcode {
    ($row:expr, [$first:literal], $payload:literal, $stamped:literal) => {
        [$first, 0, 0]
    };
    ($row:expr, [$first:literal, $second:literal], $payload:literal, $stamped:literal) => {
        [$first, $second, 0]
    };
    ($row:expr, $opcode:expr, $payload:literal, $stamped:literal) => {
        $opcode
    };
}

macro_rules! nibbles {
    ($row:expr, [$first:literal], $payload:literal, $stamped:literal) => {
        1
    };
    ($row:expr, [$first:literal, $second:literal], $payload:literal, $stamped:literal) => {
        2
    };
    ($row:expr, $opcode:expr, $payload:literal, $stamped:literal) => {
        3
    };
}

macro_rules! payload {
    ($row:expr, $opcode:tt, $payload:literal, $stamped:literal) => {
        $payload
    };
}

macro_rules! stamped {
    ($row:expr, $opcode:tt, $payload:literal, $stamped:literal) => {
        $stamped
    };
}

/// The table's columns: the rows, by their numbers.
const ROWS: &[Row] = each_line!(row);

/// The nibbles of the opcodes, with zeros after them, and how many they are.
const OPCODES: &[[u8; 3]] = each_line!(opcode);

const NIBBLES: &[u8] = each_line!(nibbles);

/// How many nibbles the payloads have, and whether a timestamp follows: none does where an ASYNC is in a row's place.
const PAYLOADS: &[u8] = each_line!(payload);

const STAMPS: &[bool] = each_line!(stamped, false);

/// The row of this number, 0 to 34.
#[inline(always)]
pub fn row_at(number: u8) -> Row
    requires { number < 35 }
    ensures { result ≡ row_at number }
{
    let rows = ROWS;
    rows[number as usize]
}

/// How many nibbles the payload of the row of this number has.
#[inline(always)]
pub fn payload_at(number: u8) -> u8
    requires { number < 35 }
    ensures count { result ≡ (line_of (row_at number)).payload }
    ensures few { result ≤ 16 }
{
    let payloads = PAYLOADS;
    payloads[number as usize]
}

/// Whether a timestamp follows the payload of the row of this number. None is after an ASYNC, whose number is 35.
#[inline(always)]
pub fn stamped_at(number: u8) -> bool
    requires { number < 36 }
    ensures { result ≡ (line_of (row_at number)).stamped }
{
    let stamps = STAMPS;
    stamps[number as usize]
}

/// How many nibbles the opcode of the row of this number has.
#[inline(always)]
fn nibbles_at(number: u8) -> u8
    requires { number < 35 }
    ensures count { result ≡ length (line_of (row_at number)).opcode }
    ensures few { result ≤ 3 }
{
    let nibbles = NIBBLES;
    nibbles[number as usize]
}

/// What the first nibbles of a packet begin.
#[derive(Clone, Copy, Drop)]
pub enum Head {
    /// The opcode of the row of this number.
    Whole(u8),
    /// They are a front of an opcode, or of ASYNC.
    More,
    /// No packet begins so.
    Refused,
}

/// What F, 0 and this nibble begin.
#[tactic(auto, using(crate::proofs::Openings::third_head, crate::proofs::Openings::last_head, crate::proofs::Openings::third_refused,))]
#[inline]
fn third_head(nibble: u8) -> Head
    requires { nibble < 16 }
    ensures { result ≡ head_of (opening_of (15 ∷ (0 ∷ (nibble ∷ [])))) }
{
    match nibble {
        0..=1 => Head::Whole(29 + nibble),
        6..=9 => Head::Whole(25 + nibble),
        _ => Head::Refused,
    }
}

/// What F and this nibble begin, with the next where it is given.
#[tactic(auto, using(crate::proofs::Openings::second_head, crate::proofs::Openings::heads_more, crate::proofs::Openings::run_refused,))]
#[inline]
fn second_head(nibble: u8, next: Option<u8>) -> Head
    requires nibble { nibble < 16 }
    requires next { ForSome next (λ c. c < 16) }
    ensures { result ≡ head_of (opening_of (15 ∷ (nibble ∷ listed next))) }
{
    if nibble == 0 {
        match next {
            None => Head::More,
            Some(c) => third_head(c),
        }
    } else if nibble < 15 {
        Head::Whole(14 + nibble)
    } else {
        match next {
            Some(c) if c != 15 => Head::Refused,
            _ => Head::More,
        }
    }
}

/// What one to three nibbles begin, by the table of opcodes: the opcode of a row, whatever follows it; a front of an
/// opcode or of ASYNC (F, F 0, F F and F F F); or neither.
#[tactic(auto, using(crate::proofs::Openings::first_head, crate::proofs::Openings::heads_more))]
#[inline]
pub fn opcode_of(first: u8, second: Option<u8>, third: Option<u8>) -> Head
    requires first { first < 16 }
    requires second { ForSome second (λ b. b < 16) }
    requires third { ForSome third (λ c. c < 16) }
    requires order { second ≡ None → third ≡ None }
    ensures { result ≡ head_of (opening_of (given first second third)) }
{
    if first < 15 {
        Head::Whole(first)
    } else {
        match second {
            None => Head::More,
            Some(b) => second_head(b, third),
        }
    }
}

/// The number of the row of a datum.
fn datum_number(width: Width, marked: bool, stamped: bool) -> u8
    ensures number { result ≡ (line_of (Datum width marked stamped)).number }
    ensures few { result < 35 }
{
    match (width, marked, stamped) {
        (Width::Four, false, false) => 12,
        (Width::Four, false, true) => 26,
        (Width::Four, true, false) => 27,
        (Width::Four, true, true) => 13,
        (Width::Eight, false, false) => 4,
        (Width::Eight, false, true) => 18,
        (Width::Eight, true, false) => 22,
        (Width::Eight, true, true) => 8,
        (Width::Sixteen, false, false) => 5,
        (Width::Sixteen, false, true) => 19,
        (Width::Sixteen, true, false) => 23,
        (Width::Sixteen, true, true) => 9,
        (Width::ThirtyTwo, false, false) => 6,
        (Width::ThirtyTwo, false, true) => 20,
        (Width::ThirtyTwo, true, false) => 24,
        (Width::ThirtyTwo, true, true) => 10,
        (Width::SixtyFour, false, false) => 7,
        (Width::SixtyFour, false, true) => 21,
        (Width::SixtyFour, true, false) => 25,
        (Width::SixtyFour, true, true) => 11,
    }
}

impl Row {
    /// The number of the row.
    #[inline]
    fn number(self) -> u8
        ensures number { result ≡ (line_of self).number }
        ensures few { result < 35 }
    {
        match self {
            Row::Null => 0,
            Row::Master8 => 1,
            Row::MasterError => 2,
            Row::Channel8 => 3,
            Row::Datum {
                width,
                marked,
                stamped,
            } => datum_number(width, marked, stamped),
            Row::Flag { stamped } => if stamped { 14 } else { 28 },
            Row::Master16 => 15,
            Row::GlobalError => 16,
            Row::Channel16 => 17,
            Row::Version => 29,
            Row::NullStamp => 30,
            Row::Trigger { stamped } => 31 + stamped as u8,
            Row::Frequency { stamped } => 33 + stamped as u8,
        }
    }

    /// The nibbles of the opcode.
    #[inline]
    pub fn opcode(self) -> &'static [u8]
        ensures { result.now ≡ (line_of self).opcode }
    {
        let opcodes = OPCODES;
        let index = self.number();
        &opcodes[index as usize][..nibbles_at(index) as usize]
    }

    /// How many nibbles the opcode has.
    #[inline]
    pub fn opcode_nibbles(self) -> u8
        ensures count { result ≡ length (line_of self).opcode }
        ensures few { result ≤ 3 }
    {
        nibbles_at(self.number())
    }

    /// How many nibbles the payload has.
    #[inline]
    pub fn payload_nibbles(self) -> u8
        ensures count { result ≡ (line_of self).payload }
        ensures few { result ≤ 16 }
    {
        payload_at(self.number())
    }

    /// A timestamp follows the payload.
    #[inline]
    pub fn is_stamped(self) -> bool
        ensures { result ≡ (line_of self).stamped }
    {
        stamped_at(self.number())
    }
}
