//! Choices of events.

ghost use Rattle.std.specs.Prelude.{◌≡◌, ℕ, Option};
ghost use Rattle.item_tap.specs.Choices.{is_stamp, is_of_kind, holds, holds_in};
ghost use Rattle.item_tap.specs.declared.choice.Choice.TheVariants.{Source, Port, Comparator, Time};

use crate::comparator::comparator_of;
use crate::content::Content;
use crate::rule::Rule;
use itm_grammar::packet::ItmPacket;
use source_events::{Event, Packet};
use trace_values::SourceId;

/// A kind of events.
#[derive(Clone, Copy, Debug, Drop)]
pub enum Kind {
    /// Packets of an instrumentation trace macrocell (ITM), all but its hardware source packets.
    Itm,
    /// Hardware source packets, which an ITM sends for the data watchpoint and trace unit (DWT).
    Dwt,
    /// Items of a system trace.
    Stp,
    /// Bytes of sources that are not mapped.
    Raw,
    /// Bytes of the trigger source, 125.
    Trigger,
}

/// Which events are wanted. A notice of a lock is none of any choice.
#[derive(Clone, Copy, Debug, Drop)]
pub enum Choice {
    /// Those of this kind.
    OfKind(Kind),
    /// Those of this source.
    Source(SourceId),
    /// What software wrote to this stimulus port of an ITM, 0 to 31.
    Port(u8),
    /// The data, the address and the PC that the DWT of an ITM sends where this comparator, 0 to 3, matches.
    Comparator(u8),
    /// The local and global timestamps of an ITM. Those of a system trace are no events of their own.
    Time,
}

/// The default choice only fills the unused places of a list.
impl Default for Choice {
    fn default() -> Choice {
        Choice::Time
    }
}

impl Rule for Choice {
    ghost holds = { holds };
}

/// Whether a packet is a timestamp.
#[inline(always)]
pub fn is_stamp(packet: &ItmPacket) -> bool
    ensures { result ≡ is_stamp packet.now }
{
    matches!(
        packet,
        ItmPacket::Local { .. } | ItmPacket::GlobalFirst { .. } | ItmPacket::GlobalSecond { .. }
    )
}

impl Kind {
    /// Whether this is of the kind.
    #[inline(always)]
    fn is_kind_of(self, content: &Content) -> bool
        ensures { result ≡ is_of_kind self content.now }
    {
        match (self, content) {
            (Kind::Itm, Content::Itm(packet)) => !matches!(packet, ItmPacket::Hardware { .. }),
            (Kind::Dwt, Content::Itm(packet)) => matches!(packet, ItmPacket::Hardware { .. }),
            (Kind::Stp, Content::Stp) => true,
            (Kind::Raw, Content::Raw) => true,
            (Kind::Trigger, Content::Trigger) => true,
            _ => false,
        }
    }
}

/// Whether this comes from the source of this ID, and is no notice of its lock.
#[inline(always)]
fn is_of_source(id: SourceId, source: Option<SourceId>, content: &Content) -> bool
    ensures { result ≡ holds_in (Source id) source content.now }
{
    !matches!(content, Content::Notice) && source == Some(id)
}

/// Whether this was written to the stimulus port of this number.
#[inline(always)]
fn is_of_port(number: u8, content: &Content) -> bool
    ensures { (source : Option ℕ) → result ≡ holds_in (Port number) source content.now }
{
    match content {
        Content::Itm(ItmPacket::Software { port, .. }) => *port == number,
        _ => false,
    }
}

/// Whether the DWT sent this at a match of the comparator of this number.
#[inline(always)]
fn is_of_comparator(number: u8, content: &Content) -> bool
    ensures { (source : Option ℕ) → result ≡ holds_in (Comparator number) source content.now }
{
    match content {
        Content::Itm(ItmPacket::Hardware { disc, size, .. }) => comparator_of(*disc, *size)
            == Some(number),
        _ => false,
    }
}

/// Whether this is a timestamp of an ITM.
#[inline(always)]
fn is_time(content: &Content) -> bool
    ensures { (source : Option ℕ) → result ≡ holds_in Time source content.now }
{
    match content {
        Content::Itm(packet) => is_stamp(packet),
        _ => false,
    }
}

impl Choice {
    /// Whether the choice holds for what a source gives, or the port.
    #[inline(always)]
    pub fn holds_in(&self, source: Option<SourceId>, content: &Content) -> bool
        ensures { result ≡ holds_in self.now source content.now }
    {
        match self {
            Choice::OfKind(kind) => kind.is_kind_of(content),
            Choice::Source(id) => is_of_source(*id, source, content),
            Choice::Port(number) => is_of_port(*number, content),
            Choice::Comparator(number) => is_of_comparator(*number, content),
            Choice::Time => is_time(content),
        }
    }

    /// Whether the choice holds for an event.
    pub fn holds_for(&self, event: &Event<Packet>) -> bool
        ensures { result ≡ holds self.now event.now }
    {
        self.holds_in(event.source, &Content::of(&event.what))
    }
}
