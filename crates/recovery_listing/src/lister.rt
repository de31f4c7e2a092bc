//! What puts the lines of a recovering report into an outlet, as its events come.

ghost use Rattle.std.specs.Prelude.{◌≡◌, [], List};
ghost use Rattle.source_events.specs.declared.event.Event.{Event};
ghost use Rattle.source_events.specs.declared.packet.Packet.{Packet};
ghost use Rattle.stretch_readings.specs.declared.heard.Heard.{Heard};
ghost use Rattle.recovering_machines.specs.Hearing.{is_guess};

use crate::guess_clocks::GuessClocks;
use capture_actions::Lister;
use item_tap::{Bounds, Choices};
use itm_grammar::packet::ItmPacket;
use recovering_machines::{Receiver, strictly};
use source_events::{Event, Packet, Plan, SourceKind, Stop, What};
use stp_grammar::said::Said;
use stretch_readings::Heard;
use trace_stream::Outlet;
use trace_values::{Fault, SourceId};

/// Puts the lines of events that are listed, and of all faults; those of guesses with their mark.
#[derive(Drop)]
pub struct RecoveringLister {
    lister: Lister,
    guess_clocks: GuessClocks,
    /// A fault came that is no guess.
    is_faulty: bool,
}

/// It is a guess.
fn is_guess(what: &What<Heard<Packet>>) -> bool
    ensures { result ≡ is_guess what.now }
{
    matches!(what, What::Packet(Heard::Guessed(_) | Heard::Misread(_)))
}

impl RecoveringLister {
    ghost use Rattle.item_tap.specs.declared.bounds.Bounds.{Bounds};
    ghost use Rattle.item_tap.specs.declared.choice.Choice.{Choice};
    ghost use Rattle.recovery_report.specs.Report.{sure_events};
    ghost use Rattle.recovery_listing.specs.Lister.{Stands, plan_of};
    ghost use Rattle.recovery_listing.specs.Listing.{has_fault};

    /// No event came yet. It lists those of a capture that is read so which meet one of some choices, if there are any,
    /// and are within a window, if there is one. Guesses come among them or not.
    pub fn new(
        plan: &Plan,
        only: Option<Choices>,
        window: Option<Bounds>,
        guesses: bool,
    ) -> RecoveringLister
        ensures guesses { result.guess_clocks.kept ≡ guesses }
        ensures plan { plan_of result ≡ record { plan = plan.now; only = only; window = window } }
        ensures stands { Stands result [] }
    {
        RecoveringLister {
            lister: Lister::new(plan, only, window),
            guess_clocks: GuessClocks::new(guesses),
            is_faulty: false,
        }
    }

    /// A fault came that is no guess.
    pub fn is_faulty(&self) -> bool
        ensures { (es : List (Event (Heard Packet))) → Stands self.now es → result ≡ has_fault (sure_events es) }
    {
        self.is_faulty
    }
}

/// An event goes to the outlet as its line, if it is listed. Neither the choices nor the window are asked of a fault,
/// and the window does not see a guess.
impl Receiver for RecoveringLister {
    ghost use Rattle.recovery_listing.specs.Lister.{Lists, gets, room};
    ghost use Rattle.recovery_listing.specs.ListerLaws.{adds_up, lists_on};

    type To = Outlet;

    ghost gets = { gets };

    ghost room = { room };

    ghost takes = { Lists };

    ghost adds_up = { adds_up };

    ghost takes_on = { lists_on };

    fn give(&mut self, outlet: &mut Outlet, event: Event<Heard<Packet>>) {
        let (at, half, source) = (event.at, event.half, event.source);
        let guess = is_guess(&event.what);
        match strictly(event.what) {
            Ok(what) => {
                let event = Event {
                    at,
                    half,
                    source,
                    what,
                };
                if guess {
                    self.lister
                        .put_guess(outlet, &mut self.guess_clocks.clocks, &event);
                } else {
                    self.guess_clocks.take_sure(&event);
                    self.lister.put_seldom(outlet, event);
                }
            }
            Err(reason) => {
                let fault = Fault { at, half, reason };
                let stop = Stop { fault, source };
                if guess {
                    self.lister.put_misread(outlet, &stop);
                } else {
                    self.lister.put_fault(outlet, &stop);
                    self.is_faulty = true;
                }
            }
        }
    }

    #[inline(always)]
    fn events_left(&self, outlet: &Outlet) -> usize {
        self.lister.events_left(outlet)
    }

    #[inline(always)]
    fn takes_told(&self, source: SourceId, kind: SourceKind) -> bool {
        self.lister.takes_told(source, kind)
    }

    #[inline(always)]
    fn give_itm(
        &mut self,
        outlet: &mut Outlet,
        at: u64,
        half: u8,
        source: SourceId,
        packet: ItmPacket,
    ) {
        self.guess_clocks.take_packet(source, &packet);
        self.lister.give_itm(outlet, at, half, source, packet);
    }

    #[inline(always)]
    fn give_said(&mut self, outlet: &mut Outlet, at: u64, half: u8, source: SourceId, said: Said) {
        self.guess_clocks.pass();
        self.lister.give_said(outlet, at, half, source, said);
    }

    #[inline(always)]
    fn give_raw(&mut self, outlet: &mut Outlet, at: u64, source: SourceId, bytes: &[u8]) {
        self.guess_clocks.pass();
        self.lister.give_raw(outlet, at, source, bytes);
    }

    #[inline(always)]
    fn give_trigger(&mut self, outlet: &mut Outlet, at: u64, source: SourceId, byte: u8) {
        self.guess_clocks.pass();
        self.lister.give_trigger(outlet, at, source, byte);
    }
}
