//! What bytes make of an unfinished packet, read one by one.

ghost use Rattle.std.specs.Prelude.{◌≡◌, ◌+◌, ◌<◌, ◌≤◌, length, take, IfSome, None, true};
ghost use Rattle.itm_codec.specs.Names.{walk, Within, Whole, Partial, Header, rule, is_sound, count_of, IsProper};
ghost use Rattle.itm_codec.specs.Names.{COUNT_ROOM};

use itm_grammar::packet::ItmPacket;
use itm_grammar::partial::Partial;
use trace_values::Next;

/// What bytes make of an unfinished packet.
#[derive(Clone, Copy, Drop)]
pub(crate) struct Cut {
    /// How many bytes from their front: those within the packet, and the one that ends it.
    pub bytes: usize,
    /// What is unfinished after them.
    pub partial: Partial,
    /// The packet that the last of them ends, if it ends one.
    pub packet: Option<ItmPacket>,
}

/// What bytes make of an unfinished packet: they are taken up to the one that ends it, or up to one that is a fault.
#[inline]
pub(crate) fn cut_packet(unfinished: Partial, bytes: &[u8]) -> Cut
    requires sound { is_sound unfinished ≡ true }
    requires room { count_of unfinished + length bytes.now ≤ COUNT_ROOM }
    ensures bytes { result.bytes ≤ length bytes.now }
    ensures part { result.packet ≡ None → walk rule unfinished (take result.bytes bytes.now) ≡ Within result.partial }
    ensures whole { IfSome result.packet (λ packet.
        (walk rule unfinished (take result.bytes bytes.now) ≡ Whole packet) × (result.partial ≡ Header)) }
    ensures proper { IfSome result.packet IsProper }
    ensures sound { is_sound result.partial ≡ true }
    ensures few { count_of result.partial ≤ count_of unfinished + result.bytes }
    ensures all { (partial : Partial) → walk rule unfinished bytes.now ≡ Within partial → result.partial ≡ partial }
{
    let mut partial = unfinished;
    for (index, byte) in bytes.iter().enumerate() {
        match partial.with_byte(*byte) {
            Next::Go(more) => partial = more,
            Next::End(packet) => {
                return Cut {
                    bytes: index + 1,
                    partial: Partial::Header,
                    packet: Some(packet),
                };
            }
            Next::Fail(_) => {
                return Cut {
                    bytes: index,
                    partial,
                    packet: None,
                };
            }
        }
    }
    Cut {
        bytes: bytes.len(),
        partial,
        packet: None,
    }
}
