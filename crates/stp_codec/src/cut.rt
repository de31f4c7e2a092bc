//! What bytes make of an unfinished packet, read nibble by nibble.

ghost use Rattle.std.specs.Prelude.{◌≡◌, ◌+◌, ◌*◌, ◌≤◌, length, true, IfSome, Some};
ghost use Rattle.stp_codec.specs.Names.{COUNT_ROOM, is_sound, count_of};
ghost use Rattle.stp_codec.specs.Cuts.{CutsInto, IsProperCut};
ghost use Rattle.stp_codec.specs.Wholes.{Fronts, nibbles_in, reached};
ghost use Rattle.stp_codec.specs.declared.cut.Cut.TheVariants.{Inside};

use crate::numbers::nibble_of;
use stp_grammar::packet::{Order, StpPacket};
use stp_grammar::partial::Partial;
use trace_values::Next;

/// What bytes make of an unfinished packet.
#[derive(Clone, Copy, Drop)]
pub enum Cut {
    /// All of them are within it, and this is unfinished after them.
    Inside(Partial),
    /// It ends after this many of their nibbles.
    Ended { nibbles: usize, packet: StpPacket },
}

/// What these bytes make of an unfinished packet. None where a nibble is a fault.
#[inline]
pub fn cut_packet(order: Order, unfinished: Partial, bytes: &[u8]) -> Option<Cut>
    requires sound { is_sound unfinished ≡ true }
    requires room { count_of unfinished + 2 * length bytes.now ≤ COUNT_ROOM }
    ensures cuts { IfSome result (CutsInto order unfinished bytes.now) }
    ensures proper { IfSome result IsProperCut }
    ensures fronts { Fronts order unfinished (nibbles_in bytes.now) →
        result ≡ Some (Inside (reached order unfinished (nibbles_in bytes.now))) }
{
    let mut partial = unfinished;
    for index in 0..2 * bytes.len() {
        match partial.with_nibble(order, nibble_of(bytes, index)) {
            Next::Go(more) => partial = more,
            Next::End(packet) => {
                return Some(Cut::Ended {
                    nibbles: index + 1,
                    packet,
                });
            }
            Next::Fail(_) => return None,
        }
    }
    Some(Cut::Inside(partial))
}
