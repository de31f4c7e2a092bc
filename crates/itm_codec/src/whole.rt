//! Packets whose bytes are all there, read as one word (ARMv7-M Architecture Reference Manual, Arm DDI 0403E, appendix
//! D4 'Debug ITM and DWT Packet Protocol', section D4.2 'Packet descriptions').
//!
//! They are read so for speed alone: the decoder reads byte by byte what is not found here. How many bytes a packet has
//! is told by tables, with no branch on its kind. So a call that only counts packets never asks what they are, and
//! kinds that change without a pattern do not hold it up.

ghost use Rattle.std.specs.Prelude.{◌≡◌, [], ◌+◌, ◌*◌, ◌/◌, ◌%◌, ◌^◌, ◌<◌, ◌≤◌, ◌∷◌, ℕ, List, length, take, drop};
ghost use Rattle.std.specs.Prelude.{slice_index};
ghost use Rattle.itm_codec.specs.Names.{Spells, groups, late_bits, byte_count};
ghost use Rattle.itm_codec.specs.Names.{size_bits, number, IsProper, Sync};
ghost use Rattle.itm_codec.specs.Lengths.{IsTold, groups_behind};
ghost use Rattle.itm_codec.specs.Windows.{IsFound, four_bytes};
ghost use Rattle.itm_codec.specs.declared.whole.InWindow.TheVariants.{Packet};

use crate::lengths::{groups_bytes, length_in, source_length};
use itm_grammar::packet::{ItmPacket, Lateness, Size};

/// How many bytes are read as one word.
pub const WINDOW: usize = 8;

/// What eight bytes begin with.
#[derive(Clone, Copy, Drop)]
pub enum InWindow {
    /// So many of them are this packet.
    Packet { bytes: usize, packet: ItmPacket },
    /// It is not told: no packet, a longer one, or one that is rare.
    Other,
}

/// The packet that these bytes begin with, where they have all of it.
///
/// The answer is the same whether they are of a piece or not. In a piece mostly source packets follow one another:
/// there it is faster to ask for one first, and in frames, where packets of all kinds do, to ask for none.
#[inline(always)]
pub fn packet_in(window: &[u8; WINDOW], is_piece: bool) -> InWindow
    ensures { IsFound window.now result }
{
    let header = window[0];
    if is_piece && header % 4 > 0 {
        return InWindow::Packet {
            bytes: source_length(header % 4),
            packet: source_in(header, four_in(window)),
        };
    }
    let bytes = length_in(window);
    if bytes > 0 {
        InWindow::Packet {
            bytes,
            packet: packet_of(window, bytes),
        }
    } else {
        sync_in(window)
    }
}

/// The four bytes after the header.
#[inline(always)]
fn four_in(window: &[u8; WINDOW]) -> u32
    ensures { four_bytes result ≡ take 4 (drop 1 window.now) }
{
    ((u64::from_le_bytes(*window) >> 8u32) % 0x1_0000_0000) as u32
}

/// The packet of so many bytes that these begin with, as the tables tell.
#[inline(always)]
fn packet_of(window: &[u8; WINDOW], bytes: usize) -> ItmPacket
    requires told { IsTold window.now bytes }
    ensures { IsFound window.now (Packet bytes result) }
{
    let header = window[0];
    if header % 4 == 0 {
        other_of(header, window, bytes)
    } else {
        source_in(header, four_in(window))
    }
}

/// The software or hardware packet of this header, which is that of one, and of the payload that begins with these four
/// bytes.
#[inline(always)]
fn source_in(header: u8, payload: u32) -> ItmPacket
    requires { 0 < header % 4 }
    ensures { IsFound (header ∷ four_bytes payload) (Packet (1 + (header % 4 + header % 4 / 3)) result) }
{
    let code = header % 4;
    source_of(header, size_of(code), value_in(code, payload))
}

/// The sizes by their codes, and all bits of a value of each size. What these tables have for 0 is of no account: no
/// size has it.
const SIZES: &[Size] = &[Size::One, Size::One, Size::Two, Size::Four];

const VALUES: &[u32] = &[0, 0xFF, 0xFFFF, 0xFFFF_FFFF];

/// The size with this code. It is read from a table, as what follows: a choice of the size would be more instructions.
#[inline(always)]
fn size_of(code: u8) -> Size
    requires { (0 < code) × (code < 4) }
    ensures { size_bits result ≡ code }
{
    let sizes = SIZES;
    sizes[code as usize]
}

/// The value of the size with this code, where the payload begins with these four bytes.
#[inline(always)]
fn value_in(code: u8, payload: u32) -> u32
    requires { (0 < code) × (code < 4) }
    ensures { result ≡ payload % 256 ^ (code + code / 3) }
{
    let values = VALUES;
    payload & values[code as usize]
}

/// The software or hardware packet with this header and this value, which fits its size.
#[inline(always)]
fn source_of(header: u8, size: Size, value: u32) -> ItmPacket
    requires size { header % 4 ≡ size_bits size }
    requires fits { value < 256 ^ byte_count size }
    ensures spells { (payload : List ℕ) → length payload ≡ byte_count size → number payload ≡ value →
        Spells result (header ∷ payload) }
    ensures proper { IsProper result }
{
    let number = header / 8;
    if (header / 4) % 2 == 0 {
        ItmPacket::Software {
            port: number,
            size,
            value,
        }
    } else {
        ItmPacket::Hardware {
            disc: number,
            size,
            value,
        }
    }
}

/// The packet of so many bytes that these begin with, as the tables tell. The first of them is this header, which is
/// not that of a source packet.
#[inline(always)]
fn other_of(header: u8, window: &[u8; WINDOW], bytes: usize) -> ItmPacket
    requires header { header ≡ slice_index window.now 0 }
    requires kind { header % 4 ≡ 0 }
    requires told { IsTold window.now bytes }
    ensures { IsFound window.now (Packet bytes result) }
{
    match header % 16 {
        0 => local_of(header, window, bytes),
        4 => global_of(header, window, bytes),
        _ => extension_of(header, window, bytes),
    }
}

/// The local timestamp or overflow of so many bytes that these begin with, as the tables tell.
#[inline(always)]
fn local_of(header: u8, window: &[u8; WINDOW], bytes: usize) -> ItmPacket
    requires header { header ≡ slice_index window.now 0 }
    requires kind { header % 16 ≡ 0 }
    requires told { IsTold window.now bytes }
    ensures { IsFound window.now (Packet bytes result) }
{
    if header < 0x70 {
        ItmPacket::Local {
            lateness: Lateness::Exact,
            delta: u32::from(header / 16),
        }
    } else if header == 0x70 {
        ItmPacket::Overflow
    } else {
        long_local(header, window, bytes)
    }
}

/// The global timestamp of so many bytes that these begin with, as the tables tell.
#[inline(always)]
fn global_of(header: u8, window: &[u8; WINDOW], bytes: usize) -> ItmPacket
    requires header { header ≡ slice_index window.now 0 }
    requires kind { header % 16 ≡ 4 }
    requires told { IsTold window.now bytes }
    ensures { IsFound window.now (Packet bytes result) }
{
    if header == 0x94 {
        first_global(window, bytes)
    } else {
        second_global(window, bytes)
    }
}

/// The extension packet of so many bytes that these begin with, as the tables tell.
#[inline(always)]
fn extension_of(header: u8, window: &[u8; WINDOW], bytes: usize) -> ItmPacket
    requires header { header ≡ slice_index window.now 0 }
    requires kind { (header % 4 ≡ 0) × ((header / 8) % 2 ≡ 1) }
    requires told { IsTold window.now bytes }
    ensures { IsFound window.now (Packet bytes result) }
{
    if header < 0x80 {
        ItmPacket::Extension {
            dwt: (header / 4) % 2 == 1,
            value: u32::from(header / 16),
        }
    } else {
        long_extension(header, window, bytes)
    }
}

/// The long local timestamp of so many bytes that these begin with, as the tables tell.
#[inline(always)]
fn long_local(header: u8, window: &[u8; WINDOW], _bytes: usize) -> ItmPacket
    requires header { header ≡ slice_index window.now 0 }
    requires kind { (112 < header) × (header % 16 ≡ 0) }
    requires told { IsTold window.now _bytes }
    ensures { IsFound window.now (Packet _bytes result) }
{
    ItmPacket::Local {
        lateness: lateness_of(header),
        delta: groups_in(window),
    }
}

/// How late the long local timestamp of this header is.
#[inline]
fn lateness_of(header: u8) -> Lateness
    requires { (192 ≤ header) × (header % 16 ≡ 0) }
    ensures { header ≡ 192 + 16 * late_bits result }
{
    match header / 16 {
        12 => Lateness::Exact,
        13 => Lateness::StampLate,
        14 => Lateness::PacketLate,
        _ => Lateness::BothLate,
    }
}

/// The first global timestamp of so many bytes that these begin with, as the tables tell. A fourth byte after the
/// header has the time's last five bits, then clock change, then wrap.
#[inline(always)]
fn first_global(window: &[u8; WINDOW], bytes: usize) -> ItmPacket
    requires header { slice_index window.now 0 ≡ 148 }
    requires told { IsTold window.now bytes }
    ensures { IsFound window.now (Packet bytes result) }
{
    let value = groups_in(window);
    ItmPacket::GlobalFirst {
        len: (bytes - 1) as u8,
        value: value % 0x400_0000,
        change: (value / 0x400_0000) % 2 == 1,
        wrap: (value / 0x800_0000) % 2 == 1,
    }
}

/// The second global timestamp of so many bytes that these begin with, as the tables tell: its payload is four bytes
/// with 22 bits of the time, or six with 38.
#[inline(always)]
fn second_global(window: &[u8; WINDOW], bytes: usize) -> ItmPacket
    requires header { slice_index window.now 0 ≡ 180 }
    requires told { IsTold window.now bytes }
    ensures { IsFound window.now (Packet bytes result) }
{
    let low = u64::from(without_bits(four_in(window)));
    if bytes == 5 {
        ItmPacket::GlobalSecond {
            wide: false,
            value: low % 0x40_0000,
        }
    } else {
        let high = u64::from(window[5] % 128) + 128 * u64::from(window[6] % 8);
        ItmPacket::GlobalSecond {
            wide: true,
            value: low + 0x1000_0000 * high,
        }
    }
}

/// The long extension packet of so many bytes that these begin with, as the tables tell. A fourth byte after the
/// header has eight bits.
#[inline(always)]
fn long_extension(header: u8, window: &[u8; WINDOW], _bytes: usize) -> ItmPacket
    requires header { header ≡ slice_index window.now 0 }
    requires kind { (128 ≤ header) × (header % 4 ≡ 0) × ((header / 8) % 2 ≡ 1) }
    requires told { IsTold window.now _bytes }
    ensures { IsFound window.now (Packet _bytes result) }
{
    let kept = groups_bytes(window);
    let high = without_bits(kept) + 0x1000_0000 * (kept / 0x8000_0000);
    ItmPacket::Extension {
        dwt: (header / 4) % 2 == 1,
        value: u32::from((header / 16) % 8) + 8 * high,
    }
}

/// The number that bits 6 to 0 of the bytes after the header stand for, up to the first whose bit 7 is clear, four at
/// most, the lowest group first.
#[inline(always)]
fn groups_in(window: &[u8; WINDOW]) -> u32
    ensures value { result ≡ groups (take 4 (groups_behind window.now)) }
    ensures fits { result < 2 ^ 28 }
{
    without_bits(groups_bytes(window))
}

/// The number that bits 6 to 0 of these four bytes stand for, the lowest group first.
#[inline(always)]
fn without_bits(kept: u32) -> u32
    ensures { result ≡ groups (four_bytes kept) }
{
    (kept & 0x7F) + (kept / 2 & 0x3F80) + (kept / 4 & 0x1F_C000) + (kept / 8 & 0xFE0_0000)
}

/// The synchronisation that these bytes begin with, of six bytes, seven or eight.
#[inline(always)]
fn sync_in(window: &[u8; WINDOW]) -> InWindow
    ensures { IsFound window.now result }
{
    let word = u64::from_le_bytes(*window);
    if word % 0x1_0000_0000_0000 == 0x8000_0000_0000 {
        sync_of(6)
    } else if word % 0x100_0000_0000_0000 == 0x80_0000_0000_0000 {
        sync_of(7)
    } else if word == 0x8000_0000_0000_0000 {
        sync_of(8)
    } else {
        InWindow::Other
    }
}

/// A synchronisation of so many bytes.
#[inline(always)]
fn sync_of(bytes: usize) -> InWindow
    ensures { result ≡ Packet bytes Sync }
{
    InWindow::Packet {
        bytes,
        packet: ItmPacket::Sync,
    }
}
