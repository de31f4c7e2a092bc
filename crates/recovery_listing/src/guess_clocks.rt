//! The clocks of guesses.

ghost use Rattle.std.specs.Prelude.{◌≡◌, ◌++◌, ◌∷◌, [], List, Ok, Some, not};
ghost use Rattle.itm_grammar.specs.Proper.{IsProper};
ghost use Rattle.source_events.specs.declared.event.Event.{Event};
ghost use Rattle.source_events.specs.declared.event.What.{What};
ghost use Rattle.source_events.specs.declared.event.What.TheVariants.{Packet as Said};
ghost use Rattle.source_events.specs.declared.packet.Packet.{Packet};
ghost use Rattle.source_events.specs.declared.packet.Packet.TheVariants.{Itm};
ghost use Rattle.source_events.specs.Fitting.{EventFits, PacketFits};
ghost use Rattle.source_events.specs.Report.{is_item};
ghost use Rattle.stretch_readings.specs.declared.heard.Heard.{Heard};
ghost use Rattle.recovering_machines.specs.Hearing.{as_event};
ghost use Rattle.capture_actions.specs.Listing.{itm_packet};
ghost use Rattle.recovery_listing.specs.GuessClocks.{Follow};
ghost use Rattle.recovery_listing.specs.Near.{guess_clocked_by};

use capture_actions::SourceClocks;
use itm_grammar::packet::ItmPacket;
use source_events::{Event, Packet, What};
use trace_values::SourceId;

/// The clocks of guesses. They take what is sure, too, and go on over a fault. Where no guesses are asked for, they
/// take nothing.
#[derive(Drop)]
pub struct GuessClocks {
    pub(crate) clocks: SourceClocks,
    /// Guesses are asked for.
    pub(crate) kept: bool,
}

/// It is the notice of a lock, and no item.
fn is_lock(what: &What<Packet>) -> bool
    ensures { result ≡ not (is_item what.now) }
{
    matches!(what, What::Locked(_))
}

impl GuessClocks {
    /// The clocks before the first event.
    pub fn new(kept: bool) -> GuessClocks
        ensures kept { result.kept ≡ kept }
        ensures fresh { Follow result [] }
    {
        GuessClocks {
            clocks: SourceClocks::new(),
            kept,
        }
    }

    /// Takes the next packet of this source, which is sure.
    #[inline(always)]
    pub fn take_packet(&mut self, source: SourceId, packet: &ItmPacket)
        requires proper { IsProper packet.now }
        ensures kept { self.new.kept ≡ self.old.kept }
        ensures taken { (es : List (Event Packet)) (event : Event Packet) → event.source ≡ Some source →
            event.what ≡ Said (Itm packet.now) → Follow self.old es → Follow self.new (es ++ event ∷ []) }
    {
        if self.kept {
            let _ = self.clocks.packet_remark(source, packet);
        }
    }

    /// What is no ITM packet leaves the clocks as they are.
    #[inline(always)]
    pub fn pass(&self)
        ensures { (es : List (Event Packet)) (event : Event Packet) → itm_packet event.what ≡ [] →
            Follow self.now es → Follow self.now (es ++ event ∷ []) }
    {
        self.clocks.pass();
    }

    /// Takes the next event, which is sure: at the lock of a source its clocks begin anew, at one of the port those of
    /// all.
    pub fn take_sure(&mut self, event: &Event<Packet>)
        requires fits { EventFits PacketFits event.now }
        ensures kept { self.new.kept ≡ self.old.kept }
        ensures taken { (es : List (Event Packet)) (e : Event (Heard Packet)) (what : What Packet) →
            event.now ≡ as_event e what → Follow self.old es → Follow self.new (guess_clocked_by es e (Ok what)) }
    {
        if is_lock(&event.what) {
            self.clocks.renew(event.source);
        } else {
            let _ = self.clocks.remark(event);
        }
    }
}
