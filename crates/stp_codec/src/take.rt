//! Packets and parts of them, taken at once.

ghost use Rattle.std.specs.Prelude.{◌≡◌, ◌<◌, ◌≤◌, true, length, take, [], ◌∷◌, ◌++◌, ℕ, ◌+◌, ◌-◌, ◌*◌, ◌/◌, List};
ghost use Rattle.std.specs.Prelude.{IfSome, None};
ghost use Rattle.stp_codec.specs.Names.{COUNT_ROOM, Placed, units_of, said_item, IsProperSaid, count_of};
ghost use Rattle.stp_codec.specs.Names.{Passes, item_at};
ghost use Rattle.stp_codec.specs.Reading.{items_in};
ghost use Rattle.stp_codec.specs.Decoder.{Stands, order_of, is_hunter, is_live};
ghost use Rattle.stp_codec.specs.Decoder.{IsSettled, Idles, Stays, TakesPart, held_of, skipped_by, Finishes};
ghost use Rattle.stp_codec.specs.Decoder.{FinishesParts};

use crate::cut::{Cut, cut_packet};
use crate::decoder::{MANY, SaidTaken, StpDecoder};
use crate::flat::PacketParts;
use stp_grammar::item::StpItem;
use stp_grammar::packet::StpPacket;
use trace_values::TakenAtOnce;

/// The nibble that is left of a byte in whose half a packet ended: the high one, where it ended in the low one, and
/// else 0.
#[inline(always)]
fn left_in(half: u8, byte: u8) -> u8
    requires { half ≤ 1 }
    ensures value { result ≡ byte / 16 * (1 - half) }
    ensures nibble { result < 16 }
{
    byte / 16 * (1 - half)
}

impl StpDecoder {
    /// Takes the packet that these bytes finish with so many of their nibbles, wherever they are, and what is left of
    /// the byte in which it ends. It is live.
    #[inline(always)]
    pub(crate) fn finish_packet(
        &mut self,
        bytes: &[u8],
        nibbles: usize,
        packet: StpPacket,
    ) -> TakenAtOnce<StpItem>
        requires live { is_live self.old ≡ true }
        requires next { Finishes self.old bytes.now nibbles packet }
        ensures stays { Stays self.old self.new }
        ensures taken { TakesPart self.old self.new bytes.now (length bytes.now) result }
    {
        let last = (nibbles - 1) / 2;
        let half = ((nibbles - 1) % 2) as u8;
        let item = self.attribution.take(packet);
        self.begin(left_in(half, bytes[last]));
        TakenAtOnce {
            bytes: last + 1,
            half,
            item,
        }
    }

    /// Takes bytes at once, wherever they are: those within the unfinished packet up to the one in which it ends, with
    /// all of that byte, or all of them. It is live, has room for all their nibbles, and is settled.
    ///
    /// None where the reading has not begun, where a nibble is a fault, and of no bytes.
    #[inline(always)]
    fn take_settled(&mut self, bytes: &[u8]) -> Option<TakenAtOnce<StpItem>>
        requires live { is_live self.old ≡ true }
        requires room { held_of self.old + skipped_by self.old + 2 * length bytes.now ≤ COUNT_ROOM }
        requires settled { IsSettled self.old }
        ensures stays { Stays self.old self.new }
        ensures some { IfSome result (TakesPart self.old self.new bytes.now (length bytes.now)) }
        ensures none { result ≡ None → Idles self.old self.new }
    {
        if bytes.is_empty() || !self.mode.is_locked() {
            return None;
        }
        match cut_packet(self.order, self.partial, bytes)? {
            Cut::Inside(partial) => {
                self.partial = partial;
                self.first = MANY;
                Some(TakenAtOnce {
                    bytes: bytes.len(),
                    half: 1,
                    item: None,
                })
            }
            Cut::Ended { nibbles, packet } => Some(self.finish_packet(bytes, nibbles, packet)),
        }
    }

    /// Takes bytes, wherever they are: those within the unfinished packet up to the one in which it ends, with all of
    /// that byte, or all of them. It is live, and has room for the nibbles. The bytes that wait are read first. Where
    /// `find_part` knows what the bytes are, that is faster.
    ///
    /// None says nothing of the bytes: then it stands as before.
    #[inline(never)]
    pub fn take_part(&mut self, bytes: &[u8]) -> Option<TakenAtOnce<StpItem>>
        requires live { is_live self.old ≡ true }
        requires room { held_of self.old + skipped_by self.old + 2 * length bytes.now ≤ COUNT_ROOM }
        ensures stays { Stays self.old self.new }
        ensures takes { IfSome result (TakesPart self.old self.new bytes.now (length bytes.now)) }
        ensures none { result ≡ None → Idles self.old self.new }
    {
        self.settle();
        self.take_settled(bytes)
    }

    /// Takes the packet of these parts that `find_part` found in these bytes, with all of the byte in which it ends. It
    /// is live. What the packet says is answered, from which its item can be made.
    #[inline(always)]
    pub fn end_part(&mut self, ahead: &[u8], parts: PacketParts) -> SaidTaken
        requires live { is_live self.old ≡ true }
        requires next { FinishesParts self.old ahead.now parts }
        ensures stays { Stays self.old self.new }
        ensures bytes { (0 < result.bytes) × (2 * result.bytes ≤ parts.nibbles + 1) }
        ensures passes { (u front : List Placed) (last : Placed) → Stands self.old u →
            units_of (front ++ last ∷ []) ≡ take result.bytes ahead.now →
            Passes (items_in (order_of self.old) (is_hunter self.old)) (Stands self.new) u front last
            (item_at result.half (said_item result.said)) }
        ensures fits { IsProperSaid result.said }
        ensures few { held_of self.new + skipped_by self.new ≤
            held_of self.old + skipped_by self.old + 2 * result.bytes }
    {
        let last = (parts.nibbles - 1) / 2;
        let half = ((parts.nibbles - 1) % 2) as u8;
        let said = self
            .attribution
            .say(parts.number, parts.payload, parts.size, parts.word);
        self.begin_ready(left_in(half, ahead[last]));
        SaidTaken {
            bytes: last + 1,
            half,
            said,
        }
    }
}
