//! The bytes of a frame.

ghost use Rattle.std.specs.Prelude.{◌≡◌, ◌≤◌, ◌+◌, ◌*◌, ◌++◌, [], length};
ghost use Rattle.frame_grammar.specs.Port.{half_spelling};
ghost use Rattle.frame_writer.specs.Written.{aux_byte, is_due, spread, sync};

use crate::pair::Pair;
use arrayvec::ArrayVec;

/// A full synchronisation comes before the frame of this number.
pub(crate) fn is_sync_due(every: u32, frame: u64) -> bool
    ensures { result ≡ is_due every frame }
{
    every != 0 && frame % every as u64 == 0
}

/// Byte 15 of the frame of these pairs, and with this auxiliary bit of byte 14.
pub(crate) fn aux_of(pairs: &[Pair], last: bool) -> u8
    requires { length pairs.now ≤ 7 }
    ensures { result ≡ aux_byte pairs.now last }
{
    let mut aux = last as u8;
    let mut k = pairs.len();
    while k > 0 {
        k -= 1;
        aux = 2 * aux + pairs[k].aux as u8;
    }
    aux
}

/// Appends the full synchronisation that comes before the frame of this number, if there is one.
pub(crate) fn append_sync(every: u32, frame: u64, out: &mut ArrayVec<u8, 264>)
    requires room { out.old.items ≡ [] }
    ensures items { out.new.items ≡ sync every frame }
    ensures len { length out.new.items ≤ 4 }
{
    if is_sync_due(every, frame) {
        out.push(0xFF);
        out.push(0xFF);
        out.push(0xFF);
        out.push(0x7F);
    }
}

/// Appends half synchronisations.
fn append_halves(halves: u8, out: &mut ArrayVec<u8, 264>)
    requires halves { halves ≤ 8 }
    requires room { length out.old.items ≤ 240 }
    ensures items { out.new.items ≡ out.old.items ++ half_spelling halves }
    ensures room { length out.new.items ≤ length out.old.items + 16 }
{
    for _half in 0..halves {
        out.push(0xFF);
        out.push(0x7F);
    }
}

/// Appends these pairs, each with the half synchronisations after it.
pub(crate) fn append_pairs(pairs: &[Pair], halves: u8, out: &mut ArrayVec<u8, 264>)
    requires halves { halves ≤ 8 }
    requires pairs { length pairs.now ≤ 7 }
    requires room { length out.old.items ≤ 100 }
    ensures items { out.new.items ≡ out.old.items ++ spread halves pairs.now }
    ensures room { length out.new.items ≤ length out.old.items + 18 * 7 }
{
    for pair in pairs {
        out.push(pair.even);
        out.push(pair.odd);
        append_halves(halves, out);
    }
}
