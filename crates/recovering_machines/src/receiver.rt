//! What takes the events of a report as they come.

ghost use Rattle.std.specs.Prelude.{◌≡◌, ◌↔◌, ◌+◌, ◌<◌, ◌≤◌, ◌∷◌, [], ℕ, List, Some, length, IsTrue, true, ⊤};
ghost use Rattle.std.specs.Option.{is_some};
ghost use Rattle.source_events.specs.declared.event.Event.{Event};
ghost use Rattle.source_events.specs.declared.packet.Packet.{Packet};
ghost use Rattle.source_events.specs.declared.packet.Packet.TheVariants.{Itm, Stp};
ghost use Rattle.source_events.specs.declared.plan.SourceKind.{SourceKind};
ghost use Rattle.source_events.specs.declared.plan.SourceKind.TheVariants.{Itm as ItmKind, Stp as StpKind};
ghost use Rattle.itm_grammar.specs.Proper.{IsProper};
ghost use Rattle.stp_grammar.specs.Said.{IsProperSaid, said_item};
ghost use Rattle.stp_grammar.specs.declared.item.StpItem.{StpItem};
ghost use Rattle.stretch_readings.specs.declared.heard.Heard.{Heard};
ghost use Rattle.recovering_machines.specs.Hearing.{AddsUp, HeardFits, raw_event, read_event, trigger_event};

use itm_grammar::packet::ItmPacket;
use source_events::{Event, Packet, SourceKind};
use stp_grammar::said::Said;
use stretch_readings::Heard;
use trace_values::SourceId;

/// What takes the events of a report, one after the other: of one that goes on after faults, or of one that has none.
pub trait Receiver {
    /// What it puts them into, beside itself.
    type To;

    // it was given these events, in order
    ghost gets: { (Self × Self.To) → List (Event (Heard Packet)) → (Self × Self.To) → Type 0 };
    // how many more it has room for
    ghost room: { (Self × Self.To) → ℕ };
    // of which sources of which kind it may be given packets as what they say
    ghost takes: { Self → ℕ → SourceKind → Type 0 } = { λ receiver source kind. ⊤ };

    /// Takes the next event.
    fn give(&mut self, to: &mut Self::To, event: Event<Heard<Packet>>)
        requires fits { HeardFits event }
        requires room { 0 < room (self.old, to.old) }
        ensures gets { gets (self.old, to.old) (event ∷ []) (self.new, to.new) }
        ensures room { room (self.old, to.old) ≤ room (self.new, to.new) + 1 };

    /// How many more events it has room for.
    fn events_left(&self, to: &Self::To) -> usize
        ensures { result ≡ room (self.now, to.now) };

    /// Packets of this source, which is of this kind, may be given as what they say. It is asked before packets are
    /// read: so what is read goes straight into what is made of it.
    fn takes_told(&self, source: SourceId, kind: SourceKind) -> bool
        ensures { IsTrue result ↔ takes self.now source kind };

    /// Takes the next event, which is this packet of this ITM source. It ends in this half of the byte at this offset.
    ///
    /// It is what `give` makes of that event, which need not be in memory; so are those below.
    fn give_itm(
        &mut self,
        to: &mut Self::To,
        at: u64,
        half: u8,
        source: SourceId,
        packet: ItmPacket,
    )
        requires proper { IsProper packet }
        requires own { takes self.old source ItmKind }
        requires room { 0 < room (self.old, to.old) }
        ensures gets { gets (self.old, to.old) (read_event source at half (Itm packet) ∷ []) (self.new, to.new) }
        ensures room { room (self.old, to.old) ≤ room (self.new, to.new) + 1 };

    /// Takes the next event, which is the item of what a packet of this STP source says. It ends in this half of the
    /// byte at this offset.
    fn give_said(&mut self, to: &mut Self::To, at: u64, half: u8, source: SourceId, said: Said)
        requires proper { IsProperSaid said }
        requires some { is_some (said_item said) ≡ true }
        requires own { takes self.old source StpKind }
        requires room { 0 < room (self.old, to.old) }
        ensures gets { (item : StpItem) → said_item said ≡ Some item →
            gets (self.old, to.old) (read_event source at half (Stp item) ∷ []) (self.new, to.new) }
        ensures room { room (self.old, to.old) ≤ room (self.new, to.new) + 1 };

    /// Takes the next event, which is a run of this source, 1 to 15 bytes that are not read. The last of them is at
    /// this offset.
    fn give_raw(&mut self, to: &mut Self::To, at: u64, source: SourceId, bytes: &[u8])
        requires some { 0 < length bytes.now }
        requires few { length bytes.now ≤ 15 }
        requires room { 0 < room (self.old, to.old) }
        ensures gets { gets (self.old, to.old) (raw_event source at bytes.now ∷ []) (self.new, to.new) }
        ensures room { room (self.old, to.old) ≤ room (self.new, to.new) + 1 };

    /// Takes the next event, which is a byte of the trigger source. It is at this offset.
    fn give_trigger(&mut self, to: &mut Self::To, at: u64, source: SourceId, byte: u8)
        requires room { 0 < room (self.old, to.old) }
        ensures gets { gets (self.old, to.old) (trigger_event source at byte ∷ []) (self.new, to.new) }
        ensures room { room (self.old, to.old) ≤ room (self.new, to.new) + 1 };

    // given some events and then more, it was given all of them
    ghost adds_up: { AddsUp gets };
    // what it was given makes no difference to what it may be given so
    ghost takes_on: { (a b : Self × Self.To) (es : List (Event (Heard Packet))) (source : ℕ) (kind : SourceKind) →
        gets a es b → takes a.0 source kind → takes b.0 source kind };
}
