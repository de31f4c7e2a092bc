//! How many bytes a packet has, by its header and the first of its bytes that says that no other follows (ARMv7-M
//! Architecture Reference Manual, Arm DDI 0403E, appendix D4 'Debug ITM and DWT Packet Protocol', section D4.2 'Packet
//! descriptions').

ghost use Rattle.std.specs.Prelude.{◌≡◌, ◌+◌, ◌/◌, ◌^◌, ◌<◌, drop, take};
ghost use Rattle.itm_codec.specs.Lengths.{first_clear, groups_behind, told_length};
ghost use Rattle.itm_codec.specs.Names.{number};

use crate::whole::WINDOW;

/// The kind of a packet with each header, a row for each high nibble: 1, 2 and 3 are source packets, by the code of
/// their size; 4 a header alone; 5 long local and first global timestamps; 6 long extension packets; 7 second global
/// timestamps. What is 0 is not told: synchronisations, and headers that are reserved.
const KINDS: &[u8] = &[
    0, 1, 2, 3, 0, 1, 2, 3, 4, 1, 2, 3, 4, 1, 2, 3, // 00
    4, 1, 2, 3, 0, 1, 2, 3, 4, 1, 2, 3, 4, 1, 2, 3, // 10
    4, 1, 2, 3, 0, 1, 2, 3, 4, 1, 2, 3, 4, 1, 2, 3, // 20
    4, 1, 2, 3, 0, 1, 2, 3, 4, 1, 2, 3, 4, 1, 2, 3, // 30
    4, 1, 2, 3, 0, 1, 2, 3, 4, 1, 2, 3, 4, 1, 2, 3, // 40
    4, 1, 2, 3, 0, 1, 2, 3, 4, 1, 2, 3, 4, 1, 2, 3, // 50
    4, 1, 2, 3, 0, 1, 2, 3, 4, 1, 2, 3, 4, 1, 2, 3, // 60
    4, 1, 2, 3, 0, 1, 2, 3, 4, 1, 2, 3, 4, 1, 2, 3, // 70
    0, 1, 2, 3, 0, 1, 2, 3, 6, 1, 2, 3, 6, 1, 2, 3, // 80
    0, 1, 2, 3, 5, 1, 2, 3, 6, 1, 2, 3, 6, 1, 2, 3, // 90
    0, 1, 2, 3, 0, 1, 2, 3, 6, 1, 2, 3, 6, 1, 2, 3, // A0
    0, 1, 2, 3, 7, 1, 2, 3, 6, 1, 2, 3, 6, 1, 2, 3, // B0
    5, 1, 2, 3, 0, 1, 2, 3, 6, 1, 2, 3, 6, 1, 2, 3, // C0
    5, 1, 2, 3, 0, 1, 2, 3, 6, 1, 2, 3, 6, 1, 2, 3, // D0
    5, 1, 2, 3, 0, 1, 2, 3, 6, 1, 2, 3, 6, 1, 2, 3, // E0
    5, 1, 2, 3, 0, 1, 2, 3, 6, 1, 2, 3, 6, 1, 2, 3, // F0
];

/// How many bytes a packet of each kind has, a row for each kind and a column for each place of the first byte after
/// the header with bit 7 clear, from 0 on: 7 where none of seven has. What is 0 is not told.
const LENGTHS: &[u8] = &[
    0, 0, 0, 0, 0, 0, 0, 0, // not told
    2, 2, 2, 2, 2, 2, 2, 2, // source packets of one byte
    3, 3, 3, 3, 3, 3, 3, 3, // of two
    5, 5, 5, 5, 5, 5, 5, 5, // of four
    1, 1, 1, 1, 1, 1, 1, 1, // a header alone
    2, 3, 4, 5, 0, 0, 0, 0, // long local and first global timestamps
    2, 3, 4, 5, 5, 5, 5, 5, // long extension packets
    0, 0, 0, 5, 0, 7, 0, 0, // second global timestamps
];

/// How many bytes a source packet has whose size has this code.
#[inline(always)]
pub fn source_length(code: u8) -> usize
    requires { (0 < code) × (code < 4) }
    ensures { result ≡ 1 + (code + code / 3) }
{
    let lengths = LENGTHS;
    lengths[8 * code as usize] as usize
}

/// All bits of seven bytes but bit 7 of each.
const FILLED: u64 = 0x007F_7F7F_7F7F_7F7F;

/// The seven bytes after the header, as a number.
#[inline(always)]
fn payload_in(window: &[u8; WINDOW]) -> u64
    ensures is { result ≡ number (drop 1 window.now) }
    ensures fits { result < 256 ^ 7 }
{
    u64::from_le_bytes(*window) >> 8u32
}

/// The place of the first byte after the header whose bit 7 is clear, from 0 on: 7 where none of them is.
#[inline(always)]
pub fn first_clear(window: &[u8; WINDOW]) -> usize
    ensures is { result ≡ first_clear (drop 1 window.now) }
    ensures within { result < 8 }
{
    // A one that is added goes on through all bits up to the first that is clear.
    ((payload_in(window) | FILLED) + 1).trailing_zeros() as usize / 8
}

/// The bytes after the header up to the first whose bit 7 is clear, four at most, as a number.
#[inline(always)]
pub fn groups_bytes(window: &[u8; WINDOW]) -> u32
    ensures { result ≡ number (take 4 (groups_behind window.now)) }
{
    let payload = payload_in(window);
    let filled = payload | FILLED;
    // The bits that the one changes are those up to the first that was clear.
    ((payload & (filled ^ (filled + 1))) % 0x1_0000_0000) as u32
}

/// How many of these bytes the packet has that they begin with, where the tables tell that, and else 0.
#[inline(always)]
pub fn length_in(window: &[u8; WINDOW]) -> usize
    ensures { result ≡ told_length window.now }
{
    let kinds = KINDS;
    let lengths = LENGTHS;
    lengths[8 * kinds[window[0] as usize] as usize + first_clear(window)] as usize
}
