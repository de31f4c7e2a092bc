//! What bytes are to a packet that begins or has begun with at most one nibble: of a row, or an ASYNC, which is at
//! least 21 nibbles F and a nibble 0 (MIPI System Trace Protocol, version 2).

ghost use Rattle.std.specs.Prelude.{◌≡◌, ℕ, ◌*◌, ◌<◌, ◌≤◌, length, get_or, IfSome};
ghost use Rattle.stp_codec.specs.Names.{Msn};
ghost use Rattle.stp_codec.specs.Wholes.{nibbles_in, left_by};
ghost use Rattle.stp_codec.specs.Parts.{run_of, RunsTo, IsPart};
ghost use Rattle.stp_codec.specs.declared.flat.TheConstants.{WINDOW};

use crate::flat::{PacketParts, WINDOW, parts_from_first};
use crate::numbers::nibble_of;
use stp_grammar::said::ASYNC;

/// How many nibbles F are at the front of these bytes, of `WINDOW` of them.
#[inline(always)]
fn run_in(bytes: &[u8]) -> usize
    requires { WINDOW ≤ length bytes.now }
    ensures few { result ≤ 2 * WINDOW }
    ensures run { (i : ℕ) → i < result → get_or (nibbles_in bytes.now) i 0 ≡ 15 }
{
    for index in 0..WINDOW {
        let byte = bytes[index];
        if byte != 0xFF {
            return 2 * index + usize::from(byte % 16 == 15);
        }
    }
    2 * WINDOW
}

/// How many nibbles of these bytes an ASYNC has of which `before` nibbles are before them; one more than the nibbles F
/// at their front, where those are `there` or more; and else 0.
#[inline]
fn async_after(before: usize, bytes: &[u8], there: usize) -> usize
    requires before { before ≤ 1 }
    requires bytes { WINDOW ≤ length bytes.now }
    ensures { RunsTo (run_of before) bytes.now there result }
{
    let run = run_in(bytes);
    if run >= there {
        run + 1
    } else if run < 2 * WINDOW && before + run >= 21 && nibble_of(bytes, run) == 0 {
        run + 1
    } else {
        0
    }
}

/// How many nibbles of these bytes an ASYNC has before which this nibble is, none where that is 0; more than `there`,
/// where the first of so many are within it, or are F and 0, within an opcode; and 0 where neither is known. It is no
/// part of the loop over packets.
#[inline(never)]
fn async_in(first: u8, bytes: &[u8], there: usize) -> usize
    requires bytes { WINDOW ≤ length bytes.now }
    ensures { RunsTo (left_by Msn first) bytes.now there result }
{
    match first {
        0 if there == 2 && bytes[0] == 0x0F => 3,
        0 => async_after(0, bytes, there),
        15 => async_after(1, bytes, there),
        _ => 0,
    }
}

/// The packet that the bytes finish, of which this nibble is before them; none is where that is 0. Most significant
/// nibbles come first. Where it has more nibbles than `there`, only so many of the bytes' nibbles are known, and are
/// within it. None where nothing is known of it.
#[inline(always)]
pub fn parts_in(first: u8, bytes: &[u8], there: usize) -> Option<PacketParts>
    requires first { first < 16 }
    requires bytes { WINDOW ≤ length bytes.now }
    ensures { IfSome result (IsPart first bytes.now there) }
{
    if let Some(parts) = parts_from_first(first, bytes) {
        return Some(parts);
    }
    match async_in(first, bytes, there) {
        0 => None,
        nibbles => Some(PacketParts {
            nibbles,
            number: ASYNC,
            payload: 0,
            size: 0,
            word: 0,
        }),
    }
}
