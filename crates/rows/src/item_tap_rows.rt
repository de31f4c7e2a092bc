//! Rows of `item_tap`.

ghost use Rattle.std.specs.Prelude.{◌≡◌, Bool};
ghost use Rattle.source_events.specs.declared.event.Event.{Event};
ghost use Rattle.source_events.specs.declared.packet.Packet.{Packet};
ghost use Rattle.item_tap.specs.declared.choice.Choice.TheVariants.{Source};
ghost use Rattle.item_tap.specs.Choices.{holds};

use crate::notation::Words;
use crate::out::Out;
use item_tap::{Choice, Tap, Test, TestFn};
use itm_grammar::packet::ItmPacket;
use source_events::{Event, Packet, RunBytes, What};
use stp_grammar::item::StpItem;
use trace_values::SourceId;

/// What an event tells: `locked`, `itm`, `stp`, `raw`, or another word for a trigger.
fn what_of(word: &str) -> What<Packet> {
    match word {
        "locked" => What::Locked(0),
        "itm" => What::Packet(Packet::Itm(ItmPacket::Sync)),
        "stp" => What::Packet(Packet::Stp(StpItem::Async)),
        "raw" => What::Raw(RunBytes::new(b"")),
        _ => What::Trigger(0),
    }
}

/// The event `ID:WHAT`, or `-:WHAT` of the port.
fn event_of(word: &str) -> Event<Packet> {
    let (id, what) = word.split_once(':').unwrap_or((word, ""));
    Event {
        at: 0,
        half: 0,
        source: Words { rest: id }.source(),
        what: what_of(what),
    }
}

/// Writes the words of the events that a tap passes. A function over any test, since a tap that names the type of its
/// closure has no proof yet.
fn put_passed<T: Test + Drop>(rule: Choice, test: T, events: &str, out: &mut Out)
    requires callable { T.may_test test }
    requires answers { (e : Event Packet) (b : Bool) → T.may_answer test e b → b ≡ holds rule e }
{
    let tap = Tap::new(rule, test);
    out.put("  passes");
    for word in events.split(' ') {
        if tap.passes(&event_of(word)) {
            out.put(" ");
            out.put(word);
        }
    }
    out.put("\n");
}

/// Whether an event comes from this source, and is no notice of its lock.
fn is_from(id: SourceId, event: &Event<Packet>) -> bool
    ensures { result ≡ holds (Source id) event.now }
{
    match event.what {
        What::Locked(_) => false,
        _ => event.source == Some(id),
    }
}

/// `source ID EVENT EVENT ..`: which events pass a tap whose rule is this source, and whose test is a closure.
fn source(mut words: Words<'_>, out: &mut Out) {
    let id = words.source().unwrap_or_default();
    let test = |event: &Event<Packet>| is_from(id, event);
    put_passed(Choice::Source(id), TestFn { test }, words.rest, out);
}

/// Runs the row of this call.
pub fn run(call: &str, words: Words<'_>, out: &mut Out) {
    match call {
        "source" => source(words, out),
        _ => out.put("  ? no such call\n"),
    }
}
