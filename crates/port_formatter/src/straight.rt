//! Frames that bytes come to straight.

ghost use Rattle.std.specs.Prelude.{◌≡◌, ◌≤◌, ◌+◌, ◌++◌, length, take, drop, min};
ghost use Rattle.trace_stream.specs.Debt.{owing, Pours};

use arrayvec::ArrayVec;
use frame_writer::SureWriter;
use trace_stream::{ACTION_ROOM, OUTLET_ROOM, Outlet};

/// How many bytes are kept at most: more than a line of a script makes sure.
pub const KEPT_ROOM: usize = 4608;

/// Frames that bytes come to straight, and what became sure of them and was not given yet.
#[derive(Drop)]
pub struct StraightFrames {
    pub(crate) frames: SureWriter,
    pub(crate) kept: ArrayVec<u8, KEPT_ROOM>,
}

/// Drops the first of these bytes. Apart, so that what gives all of them needs no room for a rest.
#[inline(never)]
fn drop_front<const N: usize>(bytes: &mut ArrayVec<u8, N>, count: usize)
    requires { count ≤ length bytes.old.items }
    ensures { bytes.new.items ≡ drop count bytes.old.items }
{
    let mut rest = ArrayVec::new();
    let _ = rest.try_extend_from_slice(&bytes.as_slice()[count..]);
    *bytes = rest;
}

/// Puts the first of these bytes, as many as a call may put, and answers how many.
#[inline]
fn put_front(bytes: &[u8], outlet: &mut Outlet) -> usize
    requires room { length outlet.old + ACTION_ROOM ≤ OUTLET_ROOM }
    ensures put { outlet.new ≡ outlet.old ++ take result bytes.now }
    ensures count { result ≡ min (length bytes.now) ACTION_ROOM }
{
    let count = bytes.len().min(ACTION_ROOM);
    outlet.append(&bytes[..count]);
    count
}

/// Moves the first of these bytes to the outlet, as many as a call may put, and answers whether there were any.
#[inline]
pub(crate) fn give_front<const N: usize>(bytes: &mut ArrayVec<u8, N>, outlet: &mut Outlet) -> bool
    requires room { length outlet.old + ACTION_ROOM ≤ OUTLET_ROOM }
    ensures poured { Pours (owing bytes.old.items (length bytes.old.items))
        (owing bytes.new.items (length bytes.new.items)) outlet.old outlet.new result }
    ensures fewer { length bytes.new.items ≤ length bytes.old.items }
{
    if bytes.is_empty() {
        return false;
    }
    let count = put_front(bytes.as_slice(), outlet);
    if count == bytes.len() {
        bytes.clear();
    } else {
        drop_front(bytes, count);
    }
    true
}
