//! The lines of what the sources and the port gave.

ghost use Rattle.std.specs.Prelude.{◌≡◌, ◌+◌, ◌≤◌, ◌++◌, ◌/◌, false, true, length, codes, decimal};
ghost use Rattle.std.specs.Prelude.{[], if◌then◌else◌};
ghost use Rattle.hex.specs.Hex.{encode_lower};
ghost use Rattle.source_events.specs.declared.event.What.TheVariants.{Packet as GivenPacket};
ghost use Rattle.itm_grammar.specs.Proper.{IsProper};
ghost use Rattle.stp_grammar.specs.Proper.{IsProperItem};
ghost use Rattle.trace_text.specs.Digits.{hundreds_of, KeepsPlace, KeepsPlaceOf};
ghost use Rattle.trace_text.specs.Printable.{IsProperPacket, IsProperWhat, SuitsPacket, IsPrintable};
ghost use Rattle.trace_text.specs.LineText.{source_text, what_text, remark_text, event_line};
ghost use Rattle.trace_text.specs.LineText.{itm_event, stp_event, raw_event};
ghost use Rattle.trace_text.specs.declared.remark.Remark.TheVariants.{None as NoRemark};
ghost use Rattle.trace_text.specs.Puts.{Puts};

use crate::digits::Digits;
use crate::items::put_item;
use crate::lengths::{few_digits, few_half_digits, few_id_digits, short_event, short_remark};
use crate::remark::Remark;
use crate::room::{ITEM_ROOM, NUMBER_ROOM, put_byte, put_bytes, put_count, put_digits, put_short};
use crate::stp::put_stp;
use itm_grammar::packet::ItmPacket;
use source_events::{Event, Packet, What};
use stp_grammar::item::StpItem;
use trace_stream::{OUTLET_ROOM, Outlet, TEXT_ROOM, Text};
use trace_values::SourceId;

/// The most bytes of the line of an event: those of a datum's at an offset of 20 digits, of a source of three, with
/// a master and a channel of five, 64 bits, and a time of 20 digits; and of the mark of a guess.
pub const EVENT_ROOM: usize = 94;

/// Bytes that a remark is given: more than any has.
const REMARK_ROOM: usize = 7 + NUMBER_ROOM;

/// The most bytes of the half of a byte.
const HALF_ROOM: usize = 5;

/// The most bytes of a source and the spaces beside it.
const SOURCE_ROOM: usize = 6;

/// Puts the half of a byte, `.H`, for an STP source.
#[inline]
pub(crate) fn put_half(room: &mut [u8], from: usize, stp: bool, half: u8) -> usize
    requires room { from + HALF_ROOM ≤ length room.old }
    ensures { Puts room.old room.new from result HALF_ROOM (if stp then codes "." ++ decimal half else []) }
{
    if stp {
        let from = put_byte(room, from, b'.');
        put_short(room, from, half)
    } else {
        from
    }
}

/// Puts a source's number, or `port`, between spaces.
#[inline]
pub(crate) fn put_source(room: &mut [u8], from: usize, source: Option<SourceId>) -> usize
    requires room { from + SOURCE_ROOM ≤ length room.old }
    ensures { Puts room.old room.new from result SOURCE_ROOM (codes " " ++ (source_text source ++ codes " ")) }
{
    match source {
        None => put_bytes(room, from, b" port "),
        Some(id) => {
            let from = put_byte(room, from, b' ');
            let from = put_short(room, from, id.number());
            put_byte(room, from, b' ')
        }
    }
}

/// Puts a packet, whose place, if it has one, is kept.
#[inline(always)]
fn put_packet(room: &mut [u8], from: usize, digits: &Digits, packet: &Packet) -> usize
    requires kept { KeepsPlaceOf digits.now (GivenPacket packet.now) }
    requires proper { IsProperPacket packet.now }
    requires room { from + ITEM_ROOM ≤ length room.old }
    ensures { Puts room.old room.new from result ITEM_ROOM (what_text (GivenPacket packet.now)) }
{
    match packet {
        Packet::Itm(packet) => put_item(room, from, packet),
        Packet::Stp(item) => put_stp(room, from, digits, item),
    }
}

/// Puts the bytes of a run: `raw`, and two digits for each.
#[inline]
fn put_raw(room: &mut [u8], from: usize, bytes: &[u8]) -> usize
    requires few { length bytes.now ≤ 15 }
    requires room { from + ITEM_ROOM ≤ length room.old }
    ensures { Puts room.old room.new from result ITEM_ROOM (codes "raw " ++ encode_lower bytes.now) }
{
    let from = put_bytes(room, from, b"raw ");
    put_digits(room, from, bytes)
}

/// Puts what was given, of which the place, if it has one, is kept.
#[inline(always)]
fn put_what(room: &mut [u8], from: usize, digits: &Digits, what: &What<Packet>) -> usize
    requires kept { KeepsPlaceOf digits.now what.now }
    requires proper { IsProperWhat what.now }
    requires room { from + ITEM_ROOM ≤ length room.old }
    ensures { Puts room.old room.new from result ITEM_ROOM (what_text what.now) }
{
    match what {
        What::Packet(packet) => put_packet(room, from, digits, packet),
        What::Locked(skipped) => put_count(room, from, b"locked ", *skipped),
        What::Raw(bytes) => put_raw(room, from, bytes.as_slice()),
        What::Trigger(byte) => {
            let from = put_bytes(room, from, b"trigger ");
            put_digits(room, from, &[*byte])
        }
    }
}

/// Puts what is beside a packet.
#[inline]
fn put_remark(room: &mut [u8], from: usize, remark: Remark) -> usize
    requires room { from + REMARK_ROOM ≤ length room.old }
    ensures { Puts room.old room.new from result REMARK_ROOM (remark_text remark) }
{
    match remark {
        Remark::None => from,
        Remark::Clock(ticks) => put_count(room, from, b" clock=", ticks),
        Remark::Time(Some(time)) => put_count(room, from, b" time=", time),
        Remark::Time(None) => put_bytes(room, from, b" time=?"),
    }
}

/// The line of an event, at an offset whose digits but for the last two are kept, as is its place, if it has one.
#[derive(Drop)]
pub(crate) struct EventLine<'a> {
    pub(crate) digits: &'a Digits,
    pub(crate) event: &'a Event<Packet>,
    /// Its source is an STP source.
    pub(crate) stp: bool,
    pub(crate) remark: Remark,
}

impl Text for EventLine<'_> {
    ghost fits = { λ l. IsPrintable l.event.now l.remark × (hundreds_of l.digits.now ≡ l.event.now.at / 100)
        × KeepsPlaceOf l.digits.now l.event.now.what };

    ghost text = { λ l. event_line l.stp l.event.now l.remark };

    #[inline(always)]
    fn put(&self, room: &mut [u8], from: usize) -> usize {
        let from = self.digits.put(room, from, self.event.at);
        let from = put_half(room, from, self.stp, self.event.half);
        let from = put_source(room, from, self.event.source);
        let from = put_what(room, from, self.digits, &self.event.what);
        let from = put_remark(room, from, self.remark);
        put_byte(room, from, b'\n')
    }
}

/// The line of an ITM packet, at an offset whose digits but for the last two are kept.
#[derive(Drop)]
pub(crate) struct ItmLine<'a> {
    pub(crate) digits: &'a Digits,
    pub(crate) at: u64,
    pub(crate) id: SourceId,
    pub(crate) packet: ItmPacket,
    pub(crate) remark: Remark,
}

impl Text for ItmLine<'_> {
    ghost fits = { λ l. IsProper l.packet × (hundreds_of l.digits.now ≡ l.at / 100) };

    ghost text = { λ l. event_line false (itm_event l.at l.id l.packet) l.remark };

    #[inline(always)]
    fn put(&self, room: &mut [u8], from: usize) -> usize {
        let from = self.digits.put(room, from, self.at);
        let from = put_source(room, from, Some(self.id));
        let from = put_item(room, from, &self.packet);
        let from = put_remark(room, from, self.remark);
        put_byte(room, from, b'\n')
    }
}

/// The line of an item of an STP source, at an offset whose digits but for the last two are kept, as is its place, if
/// it has one.
#[derive(Drop)]
pub(crate) struct StpLine<'a> {
    pub(crate) digits: &'a Digits,
    pub(crate) at: u64,
    pub(crate) half: u8,
    pub(crate) id: SourceId,
    pub(crate) item: StpItem,
}

impl Text for StpLine<'_> {
    ghost fits = { λ l. IsProperItem l.item × (hundreds_of l.digits.now ≡ l.at / 100)
        × KeepsPlace l.digits.now l.item };

    ghost text = { λ l. event_line true (stp_event l.at l.half l.id l.item) NoRemark };

    #[inline(always)]
    fn put(&self, room: &mut [u8], from: usize) -> usize {
        let from = self.digits.put(room, from, self.at);
        let from = put_half(room, from, true, self.half);
        let from = put_source(room, from, Some(self.id));
        let from = put_stp(room, from, self.digits, &self.item);
        put_byte(room, from, b'\n')
    }
}

/// The line of a run of bytes of a source that is not mapped, at an offset whose digits but for the last two are kept.
#[derive(Drop)]
pub(crate) struct RawLine<'a> {
    pub(crate) digits: &'a Digits,
    pub(crate) at: u64,
    pub(crate) id: SourceId,
    pub(crate) bytes: &'a [u8],
}

impl Text for RawLine<'_> {
    ghost fits = { λ l. (length l.bytes.now ≤ 15) × (hundreds_of l.digits.now ≡ l.at / 100) };

    ghost text = { λ l. event_line false (raw_event l.at l.id l.bytes.now) NoRemark };

    #[inline(always)]
    fn put(&self, room: &mut [u8], from: usize) -> usize {
        let from = self.digits.put(room, from, self.at);
        let from = put_source(room, from, Some(self.id));
        let from = put_raw(room, from, self.bytes);
        put_byte(room, from, b'\n')
    }
}

/// Puts the line of an event, with its remark: `AT SOURCE WHAT`, or `AT.H SOURCE WHAT` where its source is an STP
/// source (`stp`). The digits of the offset and the text of a place are kept for the next line.
#[inline(always)]
pub fn print(
    outlet: &mut Outlet,
    digits: &mut Digits,
    event: &Event<Packet>,
    stp: bool,
    remark: Remark,
)
    requires printable { IsPrintable event.now remark }
    requires room { length outlet.old + TEXT_ROOM ≤ OUTLET_ROOM }
    ensures line { outlet.new ≡ outlet.old ++ event_line stp event.now remark }
    ensures bound { length outlet.new ≤ length outlet.old + EVENT_ROOM }
{
    if let (What::Packet(Packet::Itm(packet)), Some(id)) = (&event.what, event.source) {
        if !stp {
            put_line(outlet, digits, event.at, id, packet, remark);
            return;
        }
    }
    short_event(event);
    short_remark(remark);
    digits.keep_event(event);
    let line = EventLine {
        digits,
        event,
        stp,
        remark,
    };
    outlet.put(&line);
}

/// Puts the line of an ITM packet of this source, whose last byte is at this offset, with its remark. It is what
/// `print` puts for that event, which is not made. The digits of the offset are kept for the next line.
#[inline(always)]
pub fn put_line(
    outlet: &mut Outlet,
    digits: &mut Digits,
    at: u64,
    id: SourceId,
    packet: &ItmPacket,
    remark: Remark,
)
    requires proper { IsProper packet.now }
    requires suits { SuitsPacket packet.now remark }
    requires room { length outlet.old + TEXT_ROOM ≤ OUTLET_ROOM }
    ensures line { outlet.new ≡ outlet.old ++ event_line false (itm_event at id packet.now) remark }
    ensures bound { length outlet.new ≤ length outlet.old + EVENT_ROOM }
{
    few_digits(at);
    few_id_digits(id);
    short_remark(remark);
    digits.keep(at);
    let line = ItmLine {
        digits,
        at,
        id,
        packet: *packet,
        remark,
    };
    outlet.put(&line);
}

/// Puts the line of an item of this STP source, which ends in this half of the byte at this offset. The digits of the
/// offset and the text of a place are kept for the next line.
#[inline(never)]
pub(crate) fn put_stp_line(
    outlet: &mut Outlet,
    digits: &mut Digits,
    at: u64,
    half: u8,
    id: SourceId,
    item: StpItem,
)
    requires proper { IsProperItem item }
    requires room { length outlet.old + TEXT_ROOM ≤ OUTLET_ROOM }
    ensures line { outlet.new ≡ outlet.old ++ event_line true (stp_event at half id item) NoRemark }
    ensures bound { length outlet.new ≤ length outlet.old + EVENT_ROOM }
{
    few_digits(at);
    few_half_digits(half);
    few_id_digits(id);
    digits.keep(at);
    digits.keep_item(&item);
    let line = StpLine {
        digits,
        at,
        half,
        id,
        item,
    };
    outlet.put(&line);
}

/// Puts the line of a run of at most 15 bytes of this source, which is not mapped; its last byte is at this offset. It
/// is what `print` puts for that event, which is not made. The digits of the offset are kept for the next line.
#[inline(always)]
pub fn put_raw_line(outlet: &mut Outlet, digits: &mut Digits, at: u64, id: SourceId, bytes: &[u8])
    requires few { length bytes.now ≤ 15 }
    requires room { length outlet.old + TEXT_ROOM ≤ OUTLET_ROOM }
    ensures line { outlet.new ≡ outlet.old ++ event_line false (raw_event at id bytes.now) NoRemark }
    ensures bound { length outlet.new ≤ length outlet.old + EVENT_ROOM }
{
    few_digits(at);
    few_id_digits(id);
    digits.keep(at);
    let line = RawLine {
        digits,
        at,
        id,
        bytes,
    };
    outlet.put(&line);
}
