//! Lists of nibbles that may begin with the high one of a byte: so a hunt begins after a fault in a high nibble.
//!
//! Packets and their nibbles are those of the MIPI System Trace Protocol, version 2. That the low nibble of a byte
//! comes first, and that a hunt begins at a fault's nibble, is this project's profile.

ghost use Rattle.std.specs.Prelude.{◌≡◌, ℕ, ◌+◌, ◌<◌, ◌≤◌, ◌∷◌, List, None, [], false, true};
ghost use Rattle.stp_codec.specs.Names.{Placed, HasRoom, Tells, COUNT_ROOM, Hunting, IsProperItem, low_of, high_of};
ghost use Rattle.stp_codec.specs.Decoder.{IsSettled, Reads, ReadsAt, StandsAt, has_locked, held_of, is_hunter, is_live};
ghost use Rattle.stp_codec.specs.Decoder.{order_of, read_of, skipped_by};
ghost use Rattle.stp_codec.specs.Nibbles.{ReadsByte, TakesNibble, TakesNibbles, nibbles_after};
ghost use Rattle.stp_codec.specs.Reading.{items_at};

use crate::decoder::{MANY, StpDecoder, first_of_none};
use stp_grammar::item::StpItem;
use stp_grammar::packet::Order;
use stp_grammar::partial::Partial;
use trace_values::{Fault, Mode, Next, Pattern, Step};

/// The shortest ASYNC: 21 nibbles F, and then a nibble 0.
pub(crate) const ASYNC: Pattern = Pattern {
    unit: 15,
    most: 21,
    last: 0,
};

impl StpDecoder {
    /// Takes a nibble in a hunt, which is this half of its byte: it may end the pattern.
    #[inline]
    fn hunt_nibble(&mut self, run: u8, skipped: u64, half: u8, nibble: u8) -> Step<StpItem>
        requires mode { self.old.mode ≡ Hunting run skipped }
        requires live { is_live self.old ≡ true }
        requires count { skipped_by self.old ≤ COUNT_ROOM + 1 }
        requires settled { IsSettled self.old }
        ensures { (at : ℕ) → TakesNibble self.old self.new at half nibble result }
    {
        if ASYNC.ends(run, nibble) {
            let before = skipped - ASYNC.most as u64;
            self.mode = Mode::Locked { skipped: before };
            self.partial = Partial::Start;
            self.first = first_of_none(self.order);
            Step::Locked {
                skipped: before,
                half,
                item: StpItem::Async,
            }
        } else {
            self.mode = Mode::Hunting {
                run: ASYNC.run_after(run, nibble),
                skipped: skipped + 1,
            };
            Step::Skipping
        }
    }

    /// Takes a nibble where the reading has begun, which is this half of the byte at this offset.
    #[inline]
    fn read_nibble(&mut self, at: u64, half: u8, nibble: u8) -> Step<StpItem>
        requires live { is_live self.old ≡ true }
        requires room { read_of self.old ≤ COUNT_ROOM + 1 }
        requires nibble { nibble < 16 }
        requires settled { IsSettled self.old }
        requires locked { has_locked self.old ≡ true }
        ensures { TakesNibble self.old self.new at half nibble result }
    {
        match self.partial.with_nibble(self.order, nibble) {
            Next::Go(partial) => {
                self.partial = partial;
                self.first = MANY;
                Step::Quiet
            }
            Next::End(packet) => {
                self.partial = Partial::Start;
                self.first = first_of_none(self.order);
                match self.attribution.take(packet) {
                    Some(item) => Step::Item { half, item },
                    None => Step::Quiet,
                }
            }
            Next::Fail(reason) => {
                self.live = false;
                Step::Fault(Fault { at, half, reason })
            }
        }
    }

    /// Takes the next nibble, which is this half of the byte at this offset. It is settled.
    #[inline]
    pub(crate) fn take_nibble(&mut self, at: u64, half: u8, nibble: u8) -> Step<StpItem>
        requires live { is_live self.old ≡ true }
        requires room { read_of self.old ≤ COUNT_ROOM + 1 }
        requires count { skipped_by self.old ≤ COUNT_ROOM + 1 }
        requires nibble { nibble < 16 }
        requires settled { IsSettled self.old }
        ensures { TakesNibble self.old self.new at half nibble result }
    {
        if let Mode::Hunting { run, skipped } = self.mode {
            self.hunt_nibble(run, skipped, half, nibble)
        } else {
            self.read_nibble(at, half, nibble)
        }
    }

    /// Takes the next byte, as `feed` does. It is settled.
    #[inline]
    pub(crate) fn feed_settled(&mut self, at: u64, byte: u8) -> Step<StpItem>
        requires settled { IsSettled self.old }
        requires live { is_live self.old ≡ true }
        requires room { HasRoom (read_of self.old) (skipped_by self.old) }
        ensures same { (order_of self.new ≡ order_of self.old) × (is_hunter self.new ≡ is_hunter self.old) }
        ensures reads { (u : List Placed) → Reads self.old u → ReadsByte self.old self.new u at byte result }
        ensures takes { (n : List Placed) → ReadsAt self.old n → TakesNibbles self.old self.new n at byte result }
        ensures settled { IsSettled self.new }
        ensures tells { Tells (is_live self.new) (skipped_by self.new) IsProperItem result }
        ensures few { read_of self.new + skipped_by self.new ≤ read_of self.old + skipped_by self.old + 2 }
    {
        let low = self.take_nibble(at, 0, byte % 16);
        match low {
            Step::Quiet | Step::Skipping => self.take_nibble(at, 1, byte / 16),
            Step::Fault(_) => low,
            Step::Item { .. } | Step::Locked { .. } => {
                self.take_nibble(at, 1, byte / 16);
                low
            }
        }
    }

    /// Takes the next byte as `feed` does, after a list of nibbles that may begin with the high one of a byte. After a
    /// fault it stands for the list up to the fault's nibble.
    pub fn feed_nibbles(&mut self, at: u64, byte: u8) -> Step<StpItem>
        requires live { is_live self.old ≡ true }
        requires room { HasRoom (held_of self.old) (skipped_by self.old) }
        ensures same { (order_of self.new ≡ order_of self.old) × (is_hunter self.new ≡ is_hunter self.old) }
        ensures takes { (n : List Placed) → StandsAt self.old n → TakesNibbles self.old self.new n at byte result }
        ensures tells { Tells (is_live self.new) (skipped_by self.new) IsProperItem result }
        ensures few { held_of self.new + skipped_by self.new ≤ held_of self.old + skipped_by self.old + 2 }
    {
        self.settle();
        self.feed_settled(at, byte)
    }

    /// The order of the nibbles of its numbers.
    pub fn order(&self) -> Order
        ensures { result ≡ order_of self.now }
    {
        self.order
    }

    /// A decoder that hunts, and has taken the byte at this offset.
    pub fn hunting_from(order: Order, at: u64, byte: u8) -> StpDecoder
        ensures list { StandsAt result (low_of at byte ∷ (high_of at byte ∷ [])) }
        ensures mode { is_hunter result ≡ true }
        ensures order { order_of result ≡ order }
        ensures live { is_live result ≡ true }
        ensures few { held_of result + skipped_by result ≤ 2 }
    {
        let mut decoder = StpDecoder::hunting(order);
        decoder.feed_nibbles(at, byte);
        decoder
    }

    /// A decoder of nibbles that begin with a packet, which has taken those of the byte at this offset after this half:
    /// the high one at 0, else none. One nibble gives nothing and is no fault.
    pub fn aligned_after(order: Order, at: u64, half: u8, byte: u8) -> StpDecoder
        ensures list { StandsAt result (nibbles_after half at byte) }
        ensures given { (items_at order false (nibbles_after half at byte)).given ≡ [] }
        ensures sound { (items_at order false (nibbles_after half at byte)).fault ≡ None }
        ensures mode { is_hunter result ≡ false }
        ensures order { order_of result ≡ order }
        ensures live { is_live result ≡ true }
        ensures few { held_of result + skipped_by result ≤ 2 }
    {
        let mut reader = StpDecoder::aligned(order);
        if half == 0 {
            reader.settle();
            reader.take_nibble(at, 1, byte / 16);
            return reader;
        }
        reader
    }
}
