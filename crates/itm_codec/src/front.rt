//! Bytes within a packet that goes on after them (ARMv7-M Architecture Reference Manual, Arm DDI 0403E, appendix D4
//! 'Debug ITM and DWT Packet Protocol', section D4.2 'Packet descriptions').

ghost use Rattle.std.specs.Prelude.{◌≡◌, ◌≤◌, ◌-◌, ◌^◌, slice_index, true};
ghost use Rattle.itm_codec.specs.Windows.{IsFrontOf};

use crate::lengths::first_clear;
use crate::whole::WINDOW;

/// The first `count` of these bytes are within a packet: a second global timestamp, each of whose payload bytes says
/// that another follows, or bytes 00 of a synchronisation. Of longer ones, and of other packets, it does not tell.
#[inline(always)]
pub fn is_front(window: &[u8; WINDOW], count: usize) -> bool
    ensures { result ≡ true → (count ≤ 7) × IsFrontOf window.now count }
{
    if window[0] == 0xB4 {
        count <= 6 && count <= 1 + first_clear(window)
    } else {
        count <= 7 && is_zero_front(window, count)
    }
}

/// The first `count` of these bytes are 00.
#[inline(always)]
fn is_zero_front(window: &[u8; WINDOW], count: usize) -> bool
    requires { count ≤ 7 }
    ensures { result ≡ true → IsFrontOf window.now count }
{
    u64::from_le_bytes(*window) & first_bits(count) == 0
}

/// All bits of the first `count` bytes of a word.
#[inline(always)]
pub fn first_bits(count: usize) -> u64
    requires { count ≤ 7 }
    ensures { result ≡ 256 ^ count - 1 }
{
    (1u64 << (8 * count as u32)) - 1
}
