//! The machine of a source.

ghost use Rattle.std.specs.Prelude.{◌≡◌};
ghost use Rattle.source_machine.specs.Names.{Itm, Stp};
ghost use Rattle.source_machine.specs.Seen.{step_as};

use itm_codec::ItmDecoder;
use itm_grammar::packet::ItmPacket;
use source_events::{Packet, SourceKind};
use stp_codec::StpDecoder;
use stp_grammar::item::StpItem;
use stp_grammar::packet::Order;
use trace_values::{Machine, PacketsMode, Step};

/// How many bytes are there behind those of a part that is taken at once, whatever they are.
pub const AHEAD: usize = 24;

/// What reads the bytes of a mapped source.
#[derive(Drop)]
pub enum SourceMachine {
    Itm(ItmDecoder),
    Stp(StpDecoder),
}

/// What a decoder of this kind answers, as a machine of sources does.
macro_rules! packet_step {
    ($step:expr, $kind:ident) => {
        match $step {
            Step::Quiet => Step::Quiet,
            Step::Skipping => Step::Skipping,
            Step::Item { half, item } => Step::Item {
                half,
                item: Packet::$kind(item),
            },
            Step::Locked {
                skipped,
                half,
                item,
            } => Step::Locked {
                skipped,
                half,
                item: Packet::$kind(item),
            },
            Step::Fault(fault) => Step::Fault(fault),
        }
    };
}

#[inline(always)]
pub(crate) fn itm_step(step: Step<ItmPacket>) -> Step<Packet>
    ensures { result ≡ step_as Itm step }
{
    packet_step!(step, Itm)
}

#[inline(always)]
pub(crate) fn stp_step(step: Step<StpItem>) -> Step<Packet>
    ensures { result ≡ step_as Stp step }
{
    packet_step!(step, Stp)
}

impl SourceMachine {
    ghost use Rattle.std.specs.Prelude.{[], true};
    ghost use Rattle.source_machine.specs.Names.{packets_hunt};
    ghost use Rattle.source_machine.specs.Machine.{held_of, is_live, reading_by, reading_of, skipped_by, Stands};
    ghost use Rattle.source_machine.specs.Units.{StandsOn, kind_of, reading_on, reads_by, reads_on};

    /// The machine of a source of this kind before its first byte and its first unit.
    pub fn new(kind: SourceKind, packets: PacketsMode, order: Order) -> SourceMachine
        ensures fresh { Stands result [] }
        ensures reading { reading_of result ≡ reading_by kind packets order }
        ensures live { is_live result ≡ true }
        ensures empty { (held_of result ≡ 0) × (skipped_by result ≡ 0) }
        ensures kind { kind_of result ≡ kind }
        ensures reads { reads_on result ≡ reads_by order kind }
        ensures mode { reading_on result ≡ reads_on result (packets_hunt packets) }
        ensures units { StandsOn result [] }
    {
        match (kind, packets) {
            (SourceKind::Itm, PacketsMode::Hunt) => SourceMachine::Itm(ItmDecoder::hunting()),
            (SourceKind::Itm, PacketsMode::Aligned) => SourceMachine::Itm(ItmDecoder::aligned()),
            (SourceKind::Stp, PacketsMode::Hunt) => SourceMachine::Stp(StpDecoder::hunting(order)),
            (SourceKind::Stp, PacketsMode::Aligned) => SourceMachine::Stp(StpDecoder::aligned(
                order,
            )),
        }
    }
}

/// What the decoder of a source shows by this method.
macro_rules! shown_by {
    ($source:expr, $method:ident) => {
        match $source {
            SourceMachine::Itm(decoder) => decoder.$method(),
            SourceMachine::Stp(decoder) => decoder.$method(),
        }
    };
}

impl Machine for SourceMachine {
    ghost use Rattle.source_machine.specs.Names.{PacketFits};
    ghost use Rattle.source_machine.specs.Machine.{reading_of, Stands, is_live, has_locked, held_of, skipped_by};
    ghost use Rattle.source_machine.specs.Machine.{units_by};
    ghost use Rattle.source_machine.specs.MachineLaws as laws;

    type Item = Packet;

    ghost reading = { reading_of };

    ghost stands = { Stands };

    ghost live = { is_live };

    ghost locked = { has_locked };

    ghost held_units = { held_of };

    ghost skipped_units = { skipped_by };

    ghost units_per_byte = { units_by };

    ghost fits = { PacketFits };

    ghost shows = { laws.shows };

    ghost begins = { laws.begins };

    ghost settles = { laws.settles };

    ghost rises = { laws.rises };

    ghost falls = { laws.falls };

    ghost keeps = { laws.keeps };

    fn feed(&mut self, at: u64, byte: u8) -> Step<Packet> {
        match self {
            SourceMachine::Itm(decoder) => itm_step(decoder.feed(at, byte)),
            SourceMachine::Stp(decoder) => stp_step(decoder.feed(at, byte)),
        }
    }

    fn is_live(&self) -> bool {
        shown_by!(self, is_live)
    }

    fn is_locked(&self) -> bool {
        shown_by!(self, is_locked)
    }

    fn held(&self) -> u64 {
        shown_by!(self, held)
    }

    fn skipped(&self) -> u64 {
        shown_by!(self, skipped)
    }
}
