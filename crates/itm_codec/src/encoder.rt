//! The encoder of ITM packets.

ghost use Rattle.std.specs.Prelude.{◌≡◌, ℕ, ◌+◌, ◌*◌, ◌/◌, ◌%◌, ◌^◌, ◌<◌, ◌≤◌, ◌∷◌, ◌++◌, [], List, length};
ghost use Rattle.itm_codec.specs.Names.{walk, Whole, Header, IsProper, rule, bytes_of, groups_of, short, shortest_len};
ghost use Rattle.itm_codec.specs.Names.{Spells, bit_of, late_bits, size_bits, byte_count};

use arrayvec::ArrayVec;
use itm_grammar::packet::{ItmPacket, Lateness, Size};
use itm_grammar::shortest::shortest_len;

/// Writes this many bytes of a number, the least first.
fn put_bytes(out: &mut ArrayVec<u8, 8>, count: usize, value: u32)
    requires room { length out.old.items + count ≤ 8 }
    ensures bytes { out.new.items ≡ out.old.items ++ bytes_of count value }
{
    let mut rest = value;
    let mut left = count;
    'bytes: while left > 0 {
        out.push((rest % 256) as u8);
        rest /= 256;
        left -= 1;
    }
}

/// Writes this many bytes with seven bits each of a number, the lowest first. Bit 7 says that another follows.
fn put_groups(out: &mut ArrayVec<u8, 8>, count: usize, value: u64)
    requires some { 0 < count }
    requires room { length out.old.items + count ≤ 8 }
    ensures bytes { out.new.items ≡ out.old.items ++ groups_of count value }
{
    let mut rest = value;
    let mut left = count;
    'groups: while left > 1 {
        out.push(128 + (rest % 128) as u8);
        rest /= 128;
        left -= 1;
    }
    out.push((rest % 128) as u8);
}

fn size_bits(size: Size) -> u8
    ensures bits { result ≡ size_bits size }
    ensures few { result < 4 }
{
    match size {
        Size::One => 1,
        Size::Two => 2,
        Size::Four => 3,
    }
}

fn late_bits(lateness: Lateness) -> u8
    ensures bits { result ≡ late_bits lateness }
    ensures few { result < 4 }
{
    match lateness {
        Lateness::Exact => 0,
        Lateness::StampLate => 1,
        Lateness::PacketLate => 2,
        Lateness::BothLate => 3,
    }
}

fn bit(set: bool) -> u8
    ensures bit { result ≡ bit_of set }
    ensures few { result < 2 }
{
    if set { 1 } else { 0 }
}

fn put_sync(out: &mut ArrayVec<u8, 8>)
    requires { out.old.items ≡ [] }
    ensures { out.new.items ≡ short ItmPacket.Sync }
{
    // There is room for them.
    let _ = out.try_extend_from_slice(&[0, 0, 0, 0, 0, 0x80]);
}

/// A software or a hardware packet.
fn put_source(out: &mut ArrayVec<u8, 8>, hardware: bool, number: u8, size: Size, value: u32)
    requires empty { out.old.items ≡ [] }
    requires number { number < 32 }
    ensures { out.new.items ≡ (8 * number + 4 * bit_of hardware + size_bits size) ∷ bytes_of (byte_count size) value }
{
    out.push(8 * number + 4 * bit(hardware) + size_bits(size));
    put_bytes(out, usize::from(size.byte_count()), value);
}

/// A local timestamp with this many payload bytes. It is short where it has none.
fn put_local(out: &mut ArrayVec<u8, 8>, lateness: Lateness, delta: u32, payload: usize)
    requires empty { out.old.items ≡ [] }
    requires payload { 1 + payload ≡ shortest_len (ItmPacket.Local lateness delta) }
    ensures { out.new.items ≡ short (ItmPacket.Local lateness delta) }
{
    if payload == 0 {
        out.push((16 * delta) as u8);
    } else {
        out.push(0xC0 + 16 * late_bits(lateness));
        put_groups(out, payload, u64::from(delta));
    }
}

/// A first global timestamp: 26 bits of the time, then clock change and wrap.
fn put_first(out: &mut ArrayVec<u8, 8>, len: u8, value: u32, change: bool, wrap: bool)
    requires empty { out.old.items ≡ [] }
    requires proper { IsProper (ItmPacket.GlobalFirst len value change wrap) }
    ensures { out.new.items ≡ short (ItmPacket.GlobalFirst len value change wrap) }
{
    let groups = u64::from(value)
        + 0x400_0000 * u64::from(bit(change))
        + 0x800_0000 * u64::from(bit(wrap));
    out.push(0x94);
    put_groups(out, usize::from(len), groups);
}

fn put_second(out: &mut ArrayVec<u8, 8>, wide: bool, value: u64)
    requires { out.old.items ≡ [] }
    ensures { out.new.items ≡ short (ItmPacket.GlobalSecond wide value) }
{
    out.push(0xB4);
    put_groups(out, if wide { 6 } else { 4 }, value);
}

/// Writes the four bytes of an extension's high bits. The fourth has eight bits.
fn put_four(out: &mut ArrayVec<u8, 8>, high: u32)
    requires room { length out.old.items ≤ 4 }
    requires fits { high < 2 ^ 29 }
    ensures { out.new.items ≡ out.old.items ++ (128 + high % 128)
        ∷ ((128 + high / 128 % 128) ∷ ((128 + high / 128 / 128 % 128) ∷ ((high / 128 / 128 / 128) ∷ []))) }
{
    out.push(128 + (high % 128) as u8);
    out.push(128 + (high / 128 % 128) as u8);
    out.push(128 + (high / 128 / 128 % 128) as u8);
    out.push((high / 128 / 128 / 128) as u8);
}

/// An extension packet with this many payload bytes.
fn put_extension(out: &mut ArrayVec<u8, 8>, dwt: bool, value: u32, payload: usize)
    requires empty { out.old.items ≡ [] }
    requires payload { 1 + payload ≡ shortest_len (ItmPacket.Extension dwt value) }
    ensures { out.new.items ≡ short (ItmPacket.Extension dwt value) }
{
    let low = (value % 8) as u8;
    out.push(128 * bit(payload > 0) + 16 * low + 4 * bit(dwt) + 8);
    if payload > 3 {
        put_four(out, value / 8);
    } else if payload > 0 {
        put_groups(out, payload, u64::from(value / 8));
    }
}

/// Writes a packet with this many payload bytes.
fn put(out: &mut ArrayVec<u8, 8>, packet: &ItmPacket, payload: usize)
    requires proper { IsProper packet.now }
    requires empty { out.old.items ≡ [] }
    requires payload { 1 + payload ≡ shortest_len packet.now }
    ensures { out.new.items ≡ short packet.now }
{
    match *packet {
        ItmPacket::Sync => put_sync(out),
        ItmPacket::Overflow => out.push(0x70),
        ItmPacket::Software { port, size, value } => put_source(out, false, port, size, value),
        ItmPacket::Hardware { disc, size, value } => put_source(out, true, disc, size, value),
        ItmPacket::Local { lateness, delta } => put_local(out, lateness, delta, payload),
        ItmPacket::GlobalFirst {
            len,
            value,
            change,
            wrap,
        } => put_first(out, len, value, change, wrap),
        ItmPacket::GlobalSecond { wide, value } => put_second(out, wide, value),
        ItmPacket::Extension { dwt, value } => put_extension(out, dwt, value, payload),
    }
}

/// Writes the shortest bytes of a packet, 1 to 7, into `out`, which is empty (ARMv7-M Architecture
/// Reference Manual, Arm DDI 0403E, appendix D4 'Debug ITM and DWT Packet Protocol'). Bits that a reader ignores are
/// clear.
///
/// The packet must be proper, as `itm_grammar::proper::is_proper` tells: others have no bytes.
pub fn encode(packet: &ItmPacket, out: &mut ArrayVec<u8, 8>)
    requires proper { IsProper packet.now }
    requires empty { out.old.items ≡ [] }
    ensures bytes { out.new.items ≡ short packet.now }
    ensures len { length out.new.items ≡ shortest_len packet.now }
    ensures spells { Spells packet.now out.new.items }
    ensures least { (r : List ℕ) → Spells packet.now r → length out.new.items ≤ length r }
    ensures reads_back { walk rule Header out.new.items ≡ Whole packet.now }
{
    put(out, packet, shortest_len(packet) - 1);
}
