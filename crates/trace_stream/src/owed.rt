//! The putting of bytes that are owed.

ghost use Rattle.std.specs.Prelude.{◌≡◌, ◌≤◌, ◌+◌, ◌++◌, nat_lt, length, min, take};
ghost use Rattle.trace_stream.specs.Debt.{owing, Pours};
ghost use Rattle.trace_stream.specs.declared.outlet.TheConstants.{OUTLET_ROOM};
ghost use Rattle.trace_stream.specs.declared.action.TheConstants.{ACTION_ROOM};
ghost use Rattle.trace_stream.specs.Owed.{last_of};

use crate::action::ACTION_ROOM;
use crate::outlet::Outlet;

/// Puts the first of these bytes, as many as a call may put, and answers how many.
#[inline]
pub(crate) fn put_front(bytes: &[u8], outlet: &mut Outlet) -> usize
    requires room { length outlet.old + ACTION_ROOM ≤ OUTLET_ROOM }
    ensures put { outlet.new ≡ outlet.old ++ take result bytes.now }
    ensures count { result ≡ min (length bytes.now) ACTION_ROOM }
{
    let count = bytes.len().min(ACTION_ROOM);
    outlet.append(&bytes[..count]);
    count
}

/// Of the last bytes of two parts, one after the other, puts the first, as many as a call may put, and answers how many
/// are left. Both parts may have bytes that are owed: a call puts bytes of one. Apart, since what calls it after each
/// line seldom needs it.
#[inline(never)]
pub fn put_owed(first: &[u8], second: &[u8], owed: usize, outlet: &mut Outlet) -> usize
    requires few { owed ≤ length first.now + length second.now }
    requires room { length outlet.old + ACTION_ROOM ≤ OUTLET_ROOM }
    ensures few { result ≤ owed }
    ensures poured { let all = first.now ++ second.now in
        let now = owing (last_of result all) result in
        Pours (owing (last_of owed all) owed) now outlet.old outlet.new (nat_lt 0 owed) }
{
    if owed > second.len() {
        let rest = &first[first.len() - (owed - second.len())..];
        owed - put_front(rest, outlet)
    } else {
        let rest = &second[second.len() - owed..];
        owed - put_front(rest, outlet)
    }
}
