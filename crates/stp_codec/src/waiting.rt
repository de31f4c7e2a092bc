//! Bytes that were taken of an unfinished packet and are read only later.

ghost use Rattle.std.specs.Prelude.{◌≡◌, ◌+◌, ◌*◌, ◌≤◌, true, length};
ghost use Rattle.stp_codec.specs.Names.{COUNT_ROOM, is_sound, count_of};
ghost use Rattle.stp_codec.specs.Wholes.{nibbles_in, reached, Fronts};

use crate::cut::{Cut, cut_packet};
use stp_grammar::packet::Order;
use stp_grammar::partial::Partial;

/// The unfinished packet with these bytes, which do not end it.
#[inline(never)]
pub fn with_bytes(order: Order, unfinished: Partial, bytes: &[u8]) -> Partial
    requires sound { is_sound unfinished ≡ true }
    requires room { count_of unfinished + 2 * length bytes.now ≤ COUNT_ROOM }
    requires fronts { Fronts order unfinished (nibbles_in bytes.now) }
    ensures state { result ≡ reached order unfinished (nibbles_in bytes.now) }
    ensures sound { is_sound result ≡ true }
{
    match cut_packet(order, unfinished, bytes) {
        Some(Cut::Inside(partial)) => partial,
        _ => unfinished,
    }
}
