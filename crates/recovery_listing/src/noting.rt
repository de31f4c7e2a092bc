//! What notes the faults of a recovering report, and gives the rest to what takes a strict one.

ghost use Rattle.std.specs.Prelude.{◌≡◌, ◌<◌, ◌+◌, ◌≤◌, [], length, take};
ghost use Rattle.trace_io.specs.Bytes.{TakesSome};
ghost use Rattle.trace_stream.specs.declared.limits.TheConstants.{GREATEST_CAPTURE};
ghost use Rattle.recovery_engine.specs.Engine.{next_of};
ghost use Rattle.capture_actions.specs.PortText.{source_of};
ghost use Rattle.recovering_machines.specs.Hearing.{takes_read};
ghost use Rattle.recovery_listing.specs.Account.{TakesOn};
ghost use Rattle.recovery_listing.specs.Noting.{NotesGets, is_misread, loser_of};

use crate::account::NOTES_ROOM;
use itm_grammar::packet::ItmPacket;
use recovering_machines::{Receiver, as_read, strictly};
use recovery_engine::Recovery;
use source_events::{Event, Packet, Plan, SourceKind, Stop, What};
use stp_grammar::said::Said;
use stretch_readings::Heard;
use trace_stream::{OUTLET_ROOM, Outlet, TEXT_ROOM};
use trace_text::print_fault;
use trace_values::{Fault, SourceId};

/// Gives a receiver what a source sent, with an overflow packet where some of it is lost, and keeps the lines of the
/// faults, which are to be noted.
#[derive(Drop)]
pub struct Noting<R> {
    pub(crate) receiver: R,
    /// The source that is looked at: it loses packets at a fault of the port, too.
    pub(crate) source: Option<SourceId>,
    /// The lines of faults that are to be noted.
    pub(crate) lines: Outlet,
    /// A fault came.
    pub(crate) is_faulty: bool,
}

/// The source that is looked at: the first that sends ITM packets.
pub(crate) fn looked_at(plan: &Plan) -> Option<SourceId>
    ensures { result ≡ source_of plan.now }
{
    plan.itm.as_slice().first().copied()
}

/// It is what a guess would be wrong by.
fn is_misread(what: &What<Heard<Packet>>) -> bool
    ensures { result ≡ is_misread what.now }
{
    matches!(what, What::Packet(Heard::Misread(_)))
}

/// Whose packets are lost at a fault of this source, or of the port, where one's own are looked at.
fn loser_of(own: Option<SourceId>, source: Option<SourceId>) -> Option<SourceId>
    ensures { result ≡ loser_of own source }
{
    match source {
        Some(id) => Some(id),
        None => own,
    }
}

impl<R: Receiver<To = Outlet>> Noting<R> {
    ghost use Rattle.std.specs.Prelude.{List, ◌++◌, true, false};
    ghost use Rattle.source_events.specs.declared.packet.Packet.{Packet};
    ghost use Rattle.source_events.specs.declared.event.Event.{Event};
    ghost use Rattle.source_events.specs.Report.{stop_of};
    ghost use Rattle.trace_text.specs.FaultText.{fault_line};
    ghost use Rattle.recovery_listing.specs.Noting.{loss_at, room};

    /// Takes a fault: its line is to be noted, and the receiver is given the loss.
    fn pass_fault(&mut self, outlet: &mut Outlet, stop: &Stop)
        requires room { 0 < room R.room (self.old, outlet.old) }
        ensures same { self.new.source ≡ self.old.source }
        ensures lost { (takes_read R.gets) (self.old.receiver, outlet.old)
            (loss_at (stop_of stop.now).0 (loser_of self.old.source stop.now.source))
            (self.new.receiver, outlet.new) }
        ensures line { self.new.lines ≡ self.old.lines ++ fault_line false (stop_of stop.now) }
        ensures faulty { self.new.is_faulty ≡ true }
        ensures room { room R.room (self.old, outlet.old) ≤ room R.room (self.new, outlet.new) + 1 }
    {
        print_fault(&mut self.lines, stop, false);
        self.is_faulty = true;
        if let Some(id) = loser_of(self.source, stop.source) {
            let loss = Event {
                at: stop.fault.at,
                half: stop.fault.half,
                source: Some(id),
                what: What::Packet(Packet::Itm(ItmPacket::Overflow)),
            };
            self.receiver.give(outlet, as_read(loss));
        }
    }

    /// Lets the engine take bytes from the front of a piece, and takes the events that they end. Answers how many. The
    /// piece has a byte. The lines of faults come after the notes that there are.
    pub fn take_noting(
        &mut self,
        engine: &mut Recovery,
        piece: &[u8],
        outlet: &mut Outlet,
        notes: &mut Outlet,
    ) -> usize
        requires live { self.old.lines ≡ [] }
        requires some { 0 < length piece.now }
        requires room { 30 ≤ R.room (self.old.receiver, outlet.old) }
        requires notes_room { length notes.old + NOTES_ROOM ≤ OUTLET_ROOM }
        requires count { next_of engine.old + length piece.now ≤ GREATEST_CAPTURE }
        ensures front { TakesSome piece.now result }
        ensures live { self.new.lines ≡ [] }
        ensures on { TakesOn (NotesGets (takes_read R.gets)) (take result piece.now)
            (engine.old, (self.old, record { text = outlet.old; notes = notes.old }))
            (engine.new, (self.new, record { text = outlet.new; notes = notes.new })) }
    {
        std::mem::swap(&mut self.lines, notes);
        let at = engine.next();
        let bytes = engine.take(at, piece, self, outlet);
        std::mem::swap(&mut self.lines, notes);
        bytes
    }
}

/// Each event goes to the receiver, and at a fault the loss in its place.
impl<R: Receiver<To = Outlet>> Receiver for Noting<R> {
    ghost use Rattle.std.specs.Prelude.{map};
    ghost use Rattle.recovering_machines.specs.Hearing.{as_read};
    ghost use Rattle.recovering_machines.specs.HearingLaws.{read_adds_up};
    ghost use Rattle.recovery_listing.specs.Noting.{NotingGets, room};
    ghost use Rattle.recovery_listing.specs.NotingLaws.{adds_up, takes_on};

    type To = Outlet;

    ghost gets = { λ old es new. NotingGets (takes_read R.gets) old es new };

    ghost room = { λ s. room R.room s };

    ghost takes = { λ noting source kind. R.takes noting.receiver source kind };

    ghost adds_up = { adds_up (takes_read R.gets) (read_adds_up R.gets R.adds_up) };

    ghost takes_on = { λ a b es source kind g t. takes_on (takes_read R.gets) R.takes
        (λ x y fs s k h u. R.takes_on x y (map as_read fs) s k h u) a b es source kind g t };

    fn give(&mut self, outlet: &mut Outlet, event: Event<Heard<Packet>>) {
        let (at, half, source) = (event.at, event.half, event.source);
        let is_misread = is_misread(&event.what);
        match strictly(event.what) {
            Ok(what) => {
                let event = Event {
                    at,
                    half,
                    source,
                    what,
                };
                self.receiver.give(outlet, as_read(event));
            }
            Err(reason) => {
                if !is_misread {
                    let fault = Fault { at, half, reason };
                    self.pass_fault(outlet, &Stop { fault, source });
                }
            }
        }
    }

    #[inline(always)]
    fn events_left(&self, outlet: &Outlet) -> usize {
        self.receiver
            .events_left(outlet)
            .min((OUTLET_ROOM - self.lines.len()) / TEXT_ROOM)
    }

    #[inline(always)]
    fn takes_told(&self, source: SourceId, kind: SourceKind) -> bool {
        self.receiver.takes_told(source, kind)
    }

    #[inline(always)]
    fn give_itm(
        &mut self,
        outlet: &mut Outlet,
        at: u64,
        half: u8,
        source: SourceId,
        packet: ItmPacket,
    ) {
        self.receiver.give_itm(outlet, at, half, source, packet);
    }

    #[inline(always)]
    fn give_said(&mut self, outlet: &mut Outlet, at: u64, half: u8, source: SourceId, said: Said) {
        self.receiver.give_said(outlet, at, half, source, said);
    }

    #[inline(always)]
    fn give_raw(&mut self, outlet: &mut Outlet, at: u64, source: SourceId, bytes: &[u8]) {
        self.receiver.give_raw(outlet, at, source, bytes);
    }

    #[inline(always)]
    fn give_trigger(&mut self, outlet: &mut Outlet, at: u64, source: SourceId, byte: u8) {
        self.receiver.give_trigger(outlet, at, source, byte);
    }
}
