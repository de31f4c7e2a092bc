//! The machine of a source over its units: the bytes of an ITM source, the nibbles of an STP source. A list of them may
//! begin in the middle of a byte.

ghost use Rattle.std.specs.Prelude.{◌≡◌, ◌+◌, ◌≤◌, List, None, [], false, true};
ghost use Rattle.source_machine.specs.Names.{PacketFits, Placed, HasRoom, Tells};
ghost use Rattle.source_machine.specs.Machine.{held_of, is_live, skipped_by};
ghost use Rattle.source_machine.specs.Units.{StandsOn, TakesUnits, kind_of, reading_on, reads_on};
ghost use Rattle.source_machine.specs.Units.{units_after, units_at};

use crate::machine::{SourceMachine, itm_step, stp_step};
use itm_codec::ItmDecoder;
use source_events::Packet;
use stp_codec::StpDecoder;
use trace_values::{Machine, Step};

impl SourceMachine {
    /// Takes the next byte as `feed` does, after units that may begin in the middle of a byte. After a fault it stands
    /// for the units up to the fault's.
    pub fn feed_units(&mut self, at: u64, byte: u8) -> Step<Packet>
        requires live { is_live self.old ≡ true }
        requires room { HasRoom (held_of self.old) (skipped_by self.old) }
        ensures kind { kind_of self.new ≡ kind_of self.old }
        ensures reads { reads_on self.new ≡ reads_on self.old }
        ensures mode { reading_on self.new ≡ reading_on self.old }
        ensures takes { (n : List Placed) → StandsOn self.old n → TakesUnits self.old self.new n at byte result }
        ensures tells { Tells (is_live self.new) (skipped_by self.new) PacketFits result }
        ensures few { held_of self.new + skipped_by self.new ≤ held_of self.old + skipped_by self.old + 2 }
    {
        match self {
            SourceMachine::Itm(decoder) => itm_step(decoder.feed(at, byte)),
            SourceMachine::Stp(decoder) => stp_step(decoder.feed_nibbles(at, byte)),
        }
    }

    /// One of the same source that hunts, before its first unit.
    pub fn hunting_again(&self) -> SourceMachine
        ensures kind { kind_of result ≡ kind_of self.now }
        ensures reads { reads_on result ≡ reads_on self.now }
        ensures mode { reading_on result ≡ reads_on result true }
        ensures list { StandsOn result [] }
        ensures live { is_live result ≡ true }
        ensures few { held_of result + skipped_by result ≤ 0 }
    {
        match self {
            SourceMachine::Itm(_) => SourceMachine::Itm(ItmDecoder::hunting()),
            SourceMachine::Stp(decoder) => SourceMachine::Stp(StpDecoder::hunting(decoder.order())),
        }
    }

    /// One of the same source that hunts, and has taken the byte at this offset.
    pub fn hunting_from(&self, at: u64, byte: u8) -> SourceMachine
        ensures kind { kind_of result ≡ kind_of self.now }
        ensures reads { reads_on result ≡ reads_on self.now }
        ensures mode { reading_on result ≡ reads_on result true }
        ensures list { StandsOn result (units_at (kind_of self.now) at byte) }
        ensures live { is_live result ≡ true }
        ensures few { held_of result + skipped_by result ≤ 2 }
    {
        match self {
            SourceMachine::Itm(_) => {
                let mut decoder = ItmDecoder::hunting();
                decoder.feed(at, byte);
                SourceMachine::Itm(decoder)
            }
            SourceMachine::Stp(decoder) => {
                SourceMachine::Stp(StpDecoder::hunting_from(decoder.order(), at, byte))
            }
        }
    }

    /// One of the same source whose units begin with a packet, and which has taken those of the byte at this offset
    /// after this half: of an STP source the high nibble at 0, else none. They give nothing and are no fault.
    pub fn aligned_after(&self, at: u64, half: u8, byte: u8) -> SourceMachine
        ensures kind { kind_of result ≡ kind_of self.now }
        ensures reads { reads_on result ≡ reads_on self.now }
        ensures mode { reading_on result ≡ reads_on result false }
        ensures list { StandsOn result (units_after (kind_of self.now) half at byte) }
        ensures given { (reads_on self.now false (units_after (kind_of self.now) half at byte)).given ≡ [] }
        ensures sound { (reads_on self.now false (units_after (kind_of self.now) half at byte)).fault ≡ None }
        ensures live { is_live result ≡ true }
        ensures few { held_of result + skipped_by result ≤ 2 }
    {
        match self {
            SourceMachine::Itm(_) => SourceMachine::Itm(ItmDecoder::aligned()),
            SourceMachine::Stp(decoder) => {
                let order = decoder.order();
                SourceMachine::Stp(StpDecoder::aligned_after(order, at, half, byte))
            }
        }
    }
}
