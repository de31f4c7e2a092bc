//! The words with which the texts of items begin.

ghost use Rattle.std.specs.Prelude.{◌≡◌, ◌≤◌, ◌<◌, length};
ghost use Rattle.capture_actions.specs.Names.{IsProper, EventFits, PacketFits};
ghost use Rattle.capture_actions.specs.Words.{dwt_word, itm_word, stp_word, packet_word, word_of, number_of, text_of};

use dwt_packets::{DwtItem, meaning};
use itm_grammar::packet::ItmPacket;
use source_events::{Event, Packet, What};
use stp_grammar::item::StpItem;

/// The first word of an item's text. The order is that of the manual's tables: of an ITM's items, of a system trace's,
/// and of those of other sources.
#[derive(Clone, Copy, Drop)]
pub enum ItemWord {
    Sync,
    Overflow,
    Port,
    Counters,
    Exception,
    Pc,
    Asleep,
    Cmp,
    Hw,
    Local,
    Global1,
    Global2,
    Ext,
    Async,
    Version,
    Data,
    Flag,
    Trig,
    Freq,
    Nullts,
    Merr,
    Gerr,
    Raw,
    Trigger,
}

/// How many words there are.
pub const WORD_COUNT: usize = 24;

/// All of them, in order.
pub const WORDS: [ItemWord; WORD_COUNT] = [
    ItemWord::Sync,
    ItemWord::Overflow,
    ItemWord::Port,
    ItemWord::Counters,
    ItemWord::Exception,
    ItemWord::Pc,
    ItemWord::Asleep,
    ItemWord::Cmp,
    ItemWord::Hw,
    ItemWord::Local,
    ItemWord::Global1,
    ItemWord::Global2,
    ItemWord::Ext,
    ItemWord::Async,
    ItemWord::Version,
    ItemWord::Data,
    ItemWord::Flag,
    ItemWord::Trig,
    ItemWord::Freq,
    ItemWord::Nullts,
    ItemWord::Merr,
    ItemWord::Gerr,
    ItemWord::Raw,
    ItemWord::Trigger,
];

/// The most bytes of a word.
pub(crate) const WORD_ROOM: usize = 9;

impl ItemWord {
    /// Its place in the order.
    #[inline(always)]
    pub fn number(self) -> usize
        ensures number { result ≡ number_of self }
        ensures few { result < WORD_COUNT }
    {
        self as usize
    }

    /// Its text.
    pub fn text(self) -> &'static str
        ensures text { result.now ≡ text_of self }
        ensures bound { length result.now ≤ WORD_ROOM }
    {
        match self {
            ItemWord::Sync => "sync",
            ItemWord::Overflow => "overflow",
            ItemWord::Port => "port",
            ItemWord::Counters => "counters",
            ItemWord::Exception => "exception",
            ItemWord::Pc => "pc",
            ItemWord::Asleep => "asleep",
            ItemWord::Cmp => "cmp",
            ItemWord::Hw => "hw",
            ItemWord::Local => "local",
            ItemWord::Global1 => "global1",
            ItemWord::Global2 => "global2",
            ItemWord::Ext => "ext",
            ItemWord::Async => "async",
            ItemWord::Version => "version",
            ItemWord::Data => "data",
            ItemWord::Flag => "flag",
            ItemWord::Trig => "trig",
            ItemWord::Freq => "freq",
            ItemWord::Nullts => "nullts",
            ItemWord::Merr => "merr",
            ItemWord::Gerr => "gerr",
            ItemWord::Raw => "raw",
            ItemWord::Trigger => "trigger",
        }
    }

    /// The word of what a hardware packet means.
    #[inline]
    fn of_meaning(item: DwtItem) -> ItemWord
        ensures { result ≡ dwt_word item }
    {
        match item {
            DwtItem::Counters(_) => ItemWord::Counters,
            DwtItem::Exception { .. } => ItemWord::Exception,
            DwtItem::Sample { .. } => ItemWord::Pc,
            DwtItem::Asleep => ItemWord::Asleep,
            DwtItem::MatchPc { .. }
            | DwtItem::MatchAddress { .. }
            | DwtItem::Read { .. }
            | DwtItem::Written { .. } => ItemWord::Cmp,
            DwtItem::Other { .. } => ItemWord::Hw,
        }
    }

    /// That of a packet of an ITM source.
    #[inline]
    pub fn of_packet(packet: &ItmPacket) -> ItemWord
        requires proper { IsProper packet.now }
        ensures { result ≡ itm_word packet.now }
    {
        match *packet {
            ItmPacket::Sync => ItemWord::Sync,
            ItmPacket::Overflow => ItemWord::Overflow,
            ItmPacket::Software { .. } => ItemWord::Port,
            ItmPacket::Hardware { disc, size, value } => {
                ItemWord::of_meaning(meaning(disc, size, value))
            }
            ItmPacket::Local { .. } => ItemWord::Local,
            ItmPacket::GlobalFirst { .. } => ItemWord::Global1,
            ItmPacket::GlobalSecond { .. } => ItemWord::Global2,
            ItmPacket::Extension { .. } => ItemWord::Ext,
        }
    }

    /// That of an item of a system trace.
    #[inline]
    pub fn of_item(item: &StpItem) -> ItemWord
        ensures { result ≡ stp_word item.now }
    {
        match item {
            StpItem::Async => ItemWord::Async,
            StpItem::Version(_) => ItemWord::Version,
            StpItem::MasterError { .. } => ItemWord::Merr,
            StpItem::GlobalError { .. } => ItemWord::Gerr,
            StpItem::Datum { .. } => ItemWord::Data,
            StpItem::Flag { .. } => ItemWord::Flag,
            StpItem::Trigger { .. } => ItemWord::Trig,
            StpItem::Frequency { .. } => ItemWord::Freq,
            StpItem::NullStamp { .. } => ItemWord::Nullts,
        }
    }

    /// That of a packet of either kind.
    #[inline]
    fn of_either(packet: &Packet) -> ItemWord
        requires fits { PacketFits packet.now }
        ensures { result ≡ packet_word packet.now }
    {
        match packet {
            Packet::Itm(packet) => ItemWord::of_packet(packet),
            Packet::Stp(item) => ItemWord::of_item(item),
        }
    }

    /// That of what an event tells; none of the notice of a lock, which is no item.
    #[inline]
    pub fn of_event(event: &Event<Packet>) -> Option<ItemWord>
        requires fits { EventFits PacketFits event.now }
        ensures { result ≡ word_of event.now.what }
    {
        match &event.what {
            What::Locked(_) => None,
            What::Packet(packet) => Some(ItemWord::of_either(packet)),
            What::Raw(_) => Some(ItemWord::Raw),
            What::Trigger(_) => Some(ItemWord::Trigger),
        }
    }
}
