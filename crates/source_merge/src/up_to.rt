//! What takes the events of a recovering report up to its first fault.

ghost use Rattle.std.specs.Prelude.{◌≡◌, ◌+◌, ◌<◌, ◌≤◌, ◌∷◌, [], ℕ, None, is_none};
ghost use Rattle.trace_values.specs.declared.limits.TheConstants.{COUNT_ROOM};
ghost use Rattle.recovery_engine.specs.PerSource.{total_of};
ghost use Rattle.source_merge.specs.Counting.{Counts};

use itm_grammar::packet::ItmPacket;
use recovering_machines::{Receiver, as_read, strictly};
use recovery_engine::PerSource;
use source_events::{Event, Packet, SourceKind, Stop, What};
use stp_grammar::said::Said;
use stretch_readings::Heard;
use trace_values::{Fault, SourceId};

/// Gives a receiver the events before the first fault, counts those of each source, notices of locks aside, and keeps
/// that fault. What comes after it is dropped.
///
/// The fault is kept through a reference, as the rest: of a struct that holds a source ID the proofs could not tell that
/// its references stay.
#[derive(Drop)]
pub struct UpTo<'a, R> {
    pub receiver: &'a mut R,
    pub items: &'a mut PerSource,
    /// How many more events it takes.
    pub left: usize,
    pub stop: &'a mut Option<Stop>,
    ghost few: { total_of items.now + left ≤ COUNT_ROOM },
}

/// Counts an event, if it is one of a source and no notice.
#[inline(always)]
fn count_item(items: &mut PerSource, event: &Event<Packet>)
    requires room { total_of items.old + 1 ≤ COUNT_ROOM }
    ensures counted { Counts items.old items.new (event.now ∷ []) }
    ensures total { total_of items.new ≤ total_of items.old + 1 }
{
    match event.what {
        What::Locked(_) => {}
        What::Packet(_) | What::Raw(_) | What::Trigger(_) => {
            if let Some(id) = event.source {
                items.add(id, 1);
            }
        }
    }
}

impl<'a, R: Receiver> Receiver for UpTo<'a, R> {
    ghost use Rattle.std.specs.Prelude.{map};
    ghost use Rattle.recovering_machines.specs.Hearing.{as_read, takes_read};
    ghost use Rattle.recovering_machines.specs.HearingLaws.{read_adds_up};
    ghost use Rattle.source_merge.specs.UpTo.{UpToGets, room_of};
    ghost use Rattle.source_merge.specs.UpToLaws.{adds_up, takes_on};

    type To = R::To;

    ghost gets = { λ old es new. UpToGets (takes_read R.gets) R.room old es new };

    ghost room = { λ s. room_of R.room s };

    ghost takes = { λ up_to source kind. R.takes up_to.receiver.now source kind };

    ghost adds_up = { adds_up (takes_read R.gets) R.room (read_adds_up R.gets R.adds_up) };

    ghost takes_on = { λ a b es source kind g t. takes_on (takes_read R.gets) R.room R.takes
        (λ x y fs s k h u. R.takes_on x y (map as_read fs) s k h u) a b es source kind g t };

    fn give(&mut self, to: &mut R::To, event: Event<Heard<Packet>>) {
        if self.stop.is_some() {
            return;
        }
        let (at, half, source) = (event.at, event.half, event.source);
        match strictly(event.what) {
            Ok(what) => {
                let event = Event {
                    at,
                    half,
                    source,
                    what,
                };
                count_item(self.items, &event);
                self.left -= 1;
                self.receiver.give(to, as_read(event));
            }
            Err(reason) => {
                let fault = Fault { at, half, reason };
                *self.stop = Some(Stop { fault, source });
            }
        }
    }

    #[inline(always)]
    fn events_left(&self, to: &R::To) -> usize {
        self.left.min(self.receiver.events_left(to))
    }

    #[inline(always)]
    fn takes_told(&self, source: SourceId, kind: SourceKind) -> bool {
        self.receiver.takes_told(source, kind)
    }

    #[inline(always)]
    fn give_itm(&mut self, to: &mut R::To, at: u64, half: u8, source: SourceId, packet: ItmPacket) {
        if self.stop.is_none() {
            self.items.add(source, 1);
            self.left -= 1;
            self.receiver.give_itm(to, at, half, source, packet);
        }
    }

    #[inline(always)]
    fn give_said(&mut self, to: &mut R::To, at: u64, half: u8, source: SourceId, said: Said) {
        if self.stop.is_none() {
            self.items.add(source, 1);
            self.left -= 1;
            self.receiver.give_said(to, at, half, source, said);
        }
    }

    #[inline(always)]
    fn give_raw(&mut self, to: &mut R::To, at: u64, source: SourceId, bytes: &[u8]) {
        if self.stop.is_none() {
            self.items.add(source, 1);
            self.left -= 1;
            self.receiver.give_raw(to, at, source, bytes);
        }
    }

    #[inline(always)]
    fn give_trigger(&mut self, to: &mut R::To, at: u64, source: SourceId, byte: u8) {
        if self.stop.is_none() {
            self.items.add(source, 1);
            self.left -= 1;
            self.receiver.give_trigger(to, at, source, byte);
        }
    }
}
