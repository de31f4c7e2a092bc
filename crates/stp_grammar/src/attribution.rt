//! What the packets so far say of the next item: its place and its timestamp.

ghost use Rattle.std.specs.Prelude.{◌≡◌, ◌<◌, ◌+◌, ◌*◌, ◌/◌, ◌^◌, option_map, if◌then◌else◌};
ghost use Rattle.stp_grammar.specs.Names.{WordFits};
ghost use Rattle.stp_grammar.specs.declared.packet.StpPacket.TheVariants.{Plain, Stamped};
ghost use Rattle.stp_grammar.specs.Opcodes.{line_of, row_at};
ghost use Rattle.std.specs.Option.{ForSome};
ghost use Rattle.stp_grammar.specs.Proper.{IsProperStamp, IsProperItem};
ghost use Rattle.stp_grammar.specs.Attribution.{item_with};

use crate::item::{Place, Stamp, StpItem};
use crate::opcode::{row_at, stamped_at};
use crate::packet::{Row, StpPacket};
use crate::said::{Said, tells_at};
use trace_clock::{from_gray, word_after};

/// What is kept of the packets so far: the version of the protocol, and the master and the channel in force, as far as
/// they are known, and the last word of the timestamps, 0 where the version keeps none.
#[derive(Clone, Copy, Drop)]
pub struct Attribution {
    version: Option<u8>,
    master: Option<u16>,
    channel: Option<u16>,
    last: u64,
}

/// The item of a packet of this row with this payload.
#[inline(always)]
pub(crate) fn item_with(place: Place, stamp: Stamp, row: Row, payload: u64) -> Option<StpItem>
    requires payload { payload < 16 ^ (line_of row).payload }
    requires stamp { IsProperStamp stamp }
    ensures item { result ≡ item_with place stamp row payload }
    ensures fits { ForSome result (λ item. IsProperItem item) }
{
    match row {
        Row::Null | Row::Master8 | Row::Channel8 | Row::Master16 | Row::Channel16 => None,
        Row::MasterError => Some(StpItem::MasterError {
            place,
            code: payload as u8,
        }),
        Row::Datum { width, marked, .. } => Some(StpItem::Datum {
            place,
            width,
            value: payload,
            marked,
            stamp,
        }),
        Row::Flag { .. } => Some(StpItem::Flag { place, stamp }),
        Row::GlobalError => Some(StpItem::GlobalError {
            code: payload as u8,
        }),
        Row::Version => Some(StpItem::Version(payload as u8)),
        Row::NullStamp => Some(StpItem::NullStamp { stamp }),
        Row::Trigger { .. } => Some(StpItem::Trigger {
            code: payload as u8,
            stamp,
        }),
        Row::Frequency { .. } => Some(StpItem::Frequency {
            hertz: payload as u32,
            stamp,
        }),
    }
}

/// A number with other low 8 bits. An unknown one stays unknown.
#[inline]
fn with_low_byte(number: Option<u16>, low: u8) -> Option<u16>
    ensures { result ≡ option_map (λ n. n / 256 * 256 + low) number }
{
    number.map(|number| number / 256 * 256 + u16::from(low))
}

impl Attribution {
    ghost use Rattle.std.specs.Prelude.{List, [], ◌∷◌, ◌++◌, None};
    ghost use Rattle.stp_grammar.specs.declared.packet.StpPacket.{StpPacket};
    ghost use Rattle.stp_grammar.specs.declared.packet.Row.TheVariants.{Null};
    ghost use Rattle.stp_grammar.specs.Proper.{IsProper};
    ghost use Rattle.stp_grammar.specs.Attribution.{item_of, stamp_by, version_of, place_of, last_word_of};
    ghost use Rattle.stp_grammar.specs.NextState.{Keeps};
    ghost use Rattle.stp_grammar.specs.Attributed.{Stands, kept_version, kept_place, kept_word};
    ghost use Rattle.stp_grammar.specs.Said.{packet_at, said_item, IsProperSaid};
    ghost use Rattle.stp_grammar.specs.declared.item.Stamp.TheVariants.{None as NoStamp};

    /// What is kept before the first packet: version, master and channel are unknown, and the last word is 0.
    pub fn new() -> Attribution
        ensures { Stands result [] }
    {
        Attribution {
            version: None,
            master: None,
            channel: None,
            last: 0,
        }
    }

    /// What is kept after a VERSION, whatever was before it: master, channel and last word are 0.
    #[inline]
    fn after_version(version: u8) -> Attribution
        ensures version { result.version ≡ Some version }
        ensures place { (result.master ≡ Some 0) × (result.channel ≡ Some 0) }
        ensures last { result.last ≡ 0 }
    {
        Attribution {
            version: Some(version),
            master: Some(0),
            channel: Some(0),
            last: 0,
        }
    }

    /// The version that the last VERSION named.
    #[inline]
    pub fn version(&self) -> Option<u8>
        ensures kept { result ≡ kept_version self.now }
        ensures list { (packets : List StpPacket) → Stands self.now packets → result ≡ version_of packets }
    {
        self.version
    }

    /// The master and the channel in force.
    #[inline]
    pub fn place(&self) -> Place
        ensures kept { result ≡ kept_place self.now }
        ensures list { (packets : List StpPacket) → Stands self.now packets → result ≡ place_of packets }
    {
        Place {
            master: self.master,
            channel: self.channel,
        }
    }

    /// The last word of the timestamps.
    #[inline]
    pub fn last_word(&self) -> u64
        ensures kept { result ≡ kept_word self.now }
        ensures list { (packets : List StpPacket) → Stands self.now packets → result ≡ last_word_of packets }
    {
        self.last
    }

    /// Keeps a master that a packet tells, which makes the channel 0.
    #[inline]
    fn set_master(&mut self, master: Option<u16>)
        ensures version { self.new.version ≡ self.old.version }
        ensures master { self.new.master ≡ master }
        ensures channel { self.new.channel ≡ Some 0 }
        ensures last { self.new.last ≡ self.old.last }
    {
        self.master = master;
        self.channel = Some(0);
    }

    /// Keeps what a packet without a timestamp tells. An error, of a master or of none, tells nothing of other items.
    #[inline(always)]
    fn note(&mut self, row: Row, payload: u64)
        requires fits { payload < 16 ^ (line_of row).payload }
        ensures { Keeps self.old self.new (Plain row payload) }
    {
        match row {
            Row::Version => *self = Attribution::after_version(payload as u8),
            Row::Master8 => self.set_master(with_low_byte(self.master, payload as u8)),
            Row::Master16 => self.set_master(Some(payload as u16)),
            Row::Channel8 => self.channel = with_low_byte(self.channel, payload as u8),
            Row::Channel16 => self.channel = Some(payload as u16),
            _ => {}
        }
    }

    /// Keeps a timestamp, and answers it as an item has it.
    #[inline(always)]
    fn stamp(&mut self, row: Row, payload: u64, size: u8, word: u64) -> Stamp
        requires fits { WordFits size word }
        ensures kept { Keeps self.old self.new (Stamped row payload size word) }
        ensures stamp { result ≡ stamp_by self.new.version self.new.last size word }
        ensures fits { IsProperStamp result }
    {
        match self.version {
            Some(3) => {
                self.last = word_after(self.last, size, word);
                Stamp::Natural(self.last)
            }
            Some(4) => {
                self.last = word_after(self.last, size, word);
                Stamp::Gray(from_gray(self.last))
            }
            _ => Stamp::Raw { size, word },
        }
    }

    /// Takes the next packet, and answers its item, which masters, channels and NULL do not have.
    #[inline(always)]
    pub fn take(&mut self, packet: StpPacket) -> Option<StpItem>
        requires proper { IsProper packet }
        ensures list { (packets : List StpPacket) → Stands self.old packets → Stands self.new (packets ++ packet ∷ []) }
        ensures item { (packets : List StpPacket) → Stands self.old packets →
            result ≡ item_of (packets ++ packet ∷ []) packet }
        ensures silent { packet ≡ Plain Null 0 → result ≡ None }
        ensures fits { ForSome result (λ item. IsProperItem item) }
    {
        match packet {
            StpPacket::Async => Some(StpItem::Async),
            StpPacket::Plain { row, payload } => {
                self.note(row, payload);
                item_with(self.place(), Stamp::None, row, payload)
            }
            StpPacket::Stamped {
                row,
                payload,
                size,
                word,
            } => {
                let stamp = self.stamp(row, payload, size, word);
                item_with(self.place(), stamp, row, payload)
            }
        }
    }

    /// Keeps what a packet of the row of this number tells, which has no timestamp. ASYNC tells nothing, as NULL.
    #[inline(always)]
    fn note_at(&mut self, number: u8, payload: u64)
        requires number { number < 36 }
        requires fits { payload < 16 ^ (line_of (row_at number)).payload }
        ensures { Keeps self.old self.new (Plain (row_at number) payload) }
    {
        if tells_at(number) {
            self.note(row_at(number), payload);
        }
    }

    /// Keeps what a packet of the row of this number tells, and answers its timestamp as an item has it.
    #[inline(always)]
    fn stamp_at(&mut self, number: u8, payload: u64, size: u8, word: u64) -> Stamp
        requires number { number < 36 }
        requires proper { IsProper (packet_at number payload size word) }
        requires none { number ≡ 35 → payload ≡ 0 }
        ensures list { (packets : List StpPacket) → Stands self.old packets →
            Stands self.new (packets ++ packet_at number payload size word ∷ []) }
        ensures stamp { result ≡ (if (line_of (row_at number)).stamped
            then stamp_by self.new.version self.new.last size word else NoStamp) }
        ensures fits { IsProperStamp result }
    {
        if stamped_at(number) {
            self.stamp(row_at(number), payload, size, word)
        } else {
            self.note_at(number, payload);
            Stamp::None
        }
    }

    /// Takes the next packet, which is of the row of this number or ASYNC, and answers what it says: that has the item
    /// which `take` answers to the packet. The size and the word are its timestamp's, of no account where it has none.
    #[inline(always)]
    pub fn say(&mut self, number: u8, payload: u64, size: u8, word: u64) -> Said
        requires number { number < 36 }
        requires proper { IsProper (packet_at number payload size word) }
        requires none { number ≡ 35 → payload ≡ 0 }
        ensures list { (packets : List StpPacket) → Stands self.old packets →
            Stands self.new (packets ++ packet_at number payload size word ∷ []) }
        ensures item { (packets : List StpPacket) → Stands self.old packets →
            let packet = packet_at number payload size word in
            said_item result ≡ item_of (packets ++ packet ∷ []) packet }
        ensures fits { IsProperSaid result }
    {
        let stamp = self.stamp_at(number, payload, size, word);
        Said {
            number,
            place: self.place(),
            payload,
            stamp,
        }
    }
}
