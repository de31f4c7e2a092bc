//! The bytes of items, and the putting of them.

ghost use Rattle.std.specs.Prelude.{◌≡◌, ◌≤◌, ◌<◌, ◌+◌, ◌*◌, ◌==◌, ℕ, List, length, true, position};
ghost use Rattle.std.specs.Result.{OnErr};
ghost use Rattle.script_rebuild.specs.Names.{short, Order, Put, Puts, has_place, Stp, Of, Line2, One};
ghost use Rattle.script_rebuild.specs.Names.{IsSayable};
ghost use Rattle.itm_grammar.specs.Proper.{IsProper};
ghost use Rattle.stp_grammar.specs.Proper.{IsProperItem};
ghost use Rattle.port_formatter.specs.Formatter.{turns_of};
ghost use Rattle.script_rebuild.specs.Spending.{CanSpend, Spends};
ghost use Rattle.script_rebuild.specs.Routed.{is_placed, placed, line_if};
ghost use Rattle.script_rebuild.specs.Script.{tagged};
ghost use Rattle.script_rebuild.specs.Encoding.{ids_in, NextItem, Left, AreReady, Answers, line_for};

use crate::encoders::{Encoders, SourceEncoder};
use arrayvec::ArrayVec;
use dwt_packets::packet_of;
use itm_codec::encode;
use itm_grammar::packet::ItmPacket;
use port_formatter::Formatter;
use script_text::{Item, LineFault};
use stp_grammar::item::StpItem;
use trace_values::SourceId;

/// Puts the shortest bytes of a packet.
fn put_packet(formatter: &mut Formatter, id: SourceId, packet: &ItmPacket)
    requires proper { IsProper packet.now }
    requires source { 0 < id }
    requires place { has_place (turns_of formatter.old) id ≡ true }
    requires room { CanSpend 200 formatter.old }
    ensures put { Puts formatter.old formatter.new (tagged id (short packet.now)) }
    ensures spent { Spends 200 formatter.old formatter.new }
{
    let mut packed = ArrayVec::new();
    encode(packet, &mut packed);
    formatter.put_all(id, packed.as_slice());
}

/// The index of the encoder of a source, if it is one of system traces.
fn find(encoders: &[SourceEncoder], id: SourceId) -> Option<usize>
    ensures { result ≡ position (λ e. e.id == id) encoders.now }
{
    encoders.iter().position(|slot| slot.id == id)
}

/// Puts the bytes that the encoder of a source with a place adds for an item of its system trace. Apart, so that
/// packets of other sources need no room for it.
#[inline(never)]
fn put_stp(
    encoders: &mut [SourceEncoder],
    formatter: &mut Formatter,
    id: SourceId,
    item: &StpItem,
) -> Result<(), LineFault>
    requires proper { IsProperItem item.now }
    requires source { 0 < id }
    requires place { has_place (turns_of formatter.old) id ≡ true }
    requires room { CanSpend 200 formatter.old }
    ensures ids { ids_in encoders.new ≡ ids_in encoders.old }
    ensures same { OnErr result ((encoders.new ≡ encoders.old) × (formatter.new ≡ formatter.old)) }
    ensures puts { (order : Order) (given : ℕ → List Put) →
        let next : NextItem = record { order = order; given = given; id = id; item = Stp item.now } in
        let left : Left = record { encoders = encoders.new; old = formatter.old; new = formatter.new } in
        AreReady next encoders.old → Answers (turns_of formatter.old) next result left }
    ensures spent { Spends 200 formatter.old formatter.new }
{
    let Some(index) = find(encoders, id) else {
        return Err(LineFault::Unfit);
    };
    let mut written = ArrayVec::new();
    match encoders[index].encoder.put(item, &mut written) {
        Ok(()) => {
            formatter.put_all(id, written.as_slice());
            Ok(())
        }
        Err(_) => Err(LineFault::Unfit),
    }
}

/// Whether an item of a system trace can be written after those of its source before it: a copy of its encoder tells.
#[inline(never)]
fn stp_fits(encoders: &[SourceEncoder], id: SourceId, item: &StpItem) -> Result<(), LineFault>
    requires { IsProperItem item.now }
    ensures { (order : Order) (given : ℕ → List Put) →
        let next : NextItem = record { order = order; given = given; id = id; item = Stp item.now } in
        AreReady next encoders.now → line_for None next ≡ line_if result (One (Of id (Stp item.now))) }
{
    let Some(index) = find(encoders, id) else {
        return Err(LineFault::Unfit);
    };
    let mut encoder = encoders[index].encoder;
    let mut written = ArrayVec::new();
    match encoder.put(item, &mut written) {
        Ok(()) => Ok(()),
        Err(_) => Err(LineFault::Unfit),
    }
}

/// Whether a source has a place.
fn place_fits(formatter: &Formatter, id: SourceId) -> Result<(), LineFault>
    ensures { (line : Line2) → is_placed (turns_of formatter.now) line ≡ has_place (turns_of formatter.now) id →
        placed (turns_of formatter.now) line ≡ line_if result line }
{
    if formatter.takes(id) {
        Ok(())
    } else {
        Err(LineFault::Unrouted)
    }
}

/// Whether an item of a source can be put: it can be written after those before it, and its source has a place.
pub(crate) fn item_fits(
    encoders: &Encoders,
    formatter: &Formatter,
    id: SourceId,
    item: &Item,
) -> Result<(), LineFault>
    requires { IsSayable item.now }
    ensures { (order : Order) (given : ℕ → List Put) →
        let next : NextItem = record { order = order; given = given; id = id; item = item.now } in
        AreReady next encoders.now.items →
        line_for (turns_of formatter.now) next ≡ line_if result (One (Of id item.now)) }
{
    match item {
        Item::Stp(item) => match stp_fits(encoders.as_slice(), id, item) {
            Ok(()) => place_fits(formatter, id),
            Err(fault) => Err(fault),
        },
        _ => place_fits(formatter, id),
    }
}

/// Puts the bytes of an item of a source, which its encoder adds where it is one of a system trace. Where it can't be
/// put, all is as before.
#[inline(always)]
pub(crate) fn put_item(
    encoders: &mut Encoders,
    formatter: &mut Formatter,
    id: SourceId,
    item: &Item,
) -> Result<(), LineFault>
    requires sayable { IsSayable item.now }
    requires source { 0 < id }
    requires room { CanSpend 200 formatter.old }
    ensures ids { ids_in encoders.new.items ≡ ids_in encoders.old.items }
    ensures same { OnErr result ((encoders.new.items ≡ encoders.old.items) × (formatter.new ≡ formatter.old)) }
    ensures puts { (order : Order) (given : ℕ → List Put) →
        let next : NextItem = record { order = order; given = given; id = id; item = item.now } in
        let left : Left = record { encoders = encoders.new.items; old = formatter.old; new = formatter.new } in
        AreReady next encoders.old.items → Answers (turns_of formatter.old) next result left }
    ensures spent { Spends 200 formatter.old formatter.new }
{
    if !formatter.takes(id) {
        return item_fits(encoders, formatter, id, item);
    }
    match item {
        Item::Itm(packet) => {
            put_packet(formatter, id, packet);
            Ok(())
        }
        Item::Dwt(item) => {
            let (disc, size, value) = packet_of(item);
            let packet = ItmPacket::Hardware { disc, size, value };
            put_packet(formatter, id, &packet);
            Ok(())
        }
        Item::Stp(item) => put_stp(encoders.as_mut_slice(), formatter, id, item),
        Item::Raw(raw) => {
            formatter.put_all(id, raw.as_slice());
            Ok(())
        }
    }
}
