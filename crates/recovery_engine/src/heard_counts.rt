//! Counts the events of a recovering report.

ghost use Rattle.std.specs.Prelude.{◌≡◌, [], ℕ, ◌+◌, ◌<◌, ◌≤◌, if◌then◌else◌};
ghost use Rattle.recovery_engine.specs.PerSource.{total_of};
ghost use Rattle.trace_values.specs.declared.limits.TheConstants.{COUNT_ROOM};
ghost use Rattle.std.specs.Prelude.{Some};
ghost use Rattle.source_events.specs.Merge.{is_of};

use crate::per_source::PerSource;
use itm_grammar::packet::ItmPacket;
use recovering_machines::Receiver;
use source_events::{Event, Packet, SourceKind, What};
use stp_grammar::said::Said;
use stretch_readings::Heard;
use trace_values::{COUNT_ROOM, SourceId};

/// Takes events, and counts the packets of each source, and the faults. Notices of locks and guesses are neither, and
/// what a source sends that is not mapped is counted by the engine.
#[derive(Drop)]
pub struct HeardCounts {
    packets: PerSource,
    faults: u64,
    /// How many packets and faults came.
    events: u64,
    ghost few: { total_of packets + faults ≤ events },
    ghost limit: { events ≤ COUNT_ROOM },
}

impl HeardCounts {
    ghost use Rattle.std.specs.Prelude.{List, ◌++◌, ◌∷◌};
    ghost use Rattle.source_events.specs.declared.event.Event.{Event};
    ghost use Rattle.source_events.specs.declared.packet.Packet.{Packet};
    ghost use Rattle.stretch_readings.specs.declared.heard.Heard.{Heard};
    ghost use Rattle.recovery_report.specs.Counts.{faults_in};
    ghost use Rattle.recovery_engine.specs.PerSource.{number_of};
    ghost use Rattle.recovery_engine.specs.Heard.{HasHeard, heard_of, packets_in};

    /// No event came yet.
    pub fn new() -> HeardCounts
        ensures fresh { HasHeard result [] }
        ensures none { heard_of result ≡ 0 }
    {
        HeardCounts {
            packets: PerSource::new(),
            faults: 0,
            events: 0,
        }
    }

    /// How many packets a source has.
    pub fn packets(&self, id: SourceId) -> u64
        ensures value { (es : List (Event (Heard Packet))) → HasHeard self.now es → result ≡ packets_in id es }
        ensures few { result ≤ heard_of self.now }
    {
        self.packets.of(id)
    }

    /// How many faults the port and all sources have.
    pub fn faults(&self) -> u64
        ensures { (es : List (Event (Heard Packet))) → HasHeard self.now es → result ≡ faults_in es }
    {
        self.faults
    }

    /// Counts an event that is a packet of a source; one of the port is none.
    #[inline(always)]
    fn add_packet(&mut self, source: Option<SourceId>)
        requires room { heard_of self.old < COUNT_ROOM }
        ensures packets { (x : ℕ) → number_of self.new.packets x ≡
            number_of self.old.packets x + (if is_of (Some x) source then 1 else 0) }
        ensures faults { self.new.faults ≡ self.old.faults }
        ensures more { heard_of self.new ≤ heard_of self.old + 1 }
    {
        self.events += 1;
        if let Some(id) = source {
            self.packets.add(id, 1);
        }
    }

    /// Counts an event that is a fault.
    fn add_fault(&mut self)
        requires room { heard_of self.old < COUNT_ROOM }
        ensures packets { (x : ℕ) → number_of self.new.packets x ≡ number_of self.old.packets x }
        ensures faults { self.new.faults ≡ self.old.faults + 1 }
        ensures more { heard_of self.new ≤ heard_of self.old + 1 }
    {
        self.events += 1;
        self.faults += 1;
    }

    /// Counts the next event.
    pub fn count(&mut self, event: &Event<Heard<Packet>>)
        requires room { heard_of self.old < COUNT_ROOM }
        ensures counted { (es : List (Event (Heard Packet))) → HasHeard self.old es →
            HasHeard self.new (es ++ event.now ∷ []) }
        ensures more { heard_of self.new ≤ heard_of self.old + 1 }
    {
        match &event.what {
            What::Packet(Heard::Read(_)) => self.add_packet(event.source),
            What::Packet(Heard::Broken(_)) => self.add_fault(),
            What::Packet(Heard::Guessed(_)) | What::Packet(Heard::Misread(_)) => {}
            What::Locked(_) | What::Raw(_) | What::Trigger(_) => {}
        }
    }
}

impl Receiver for HeardCounts {
    ghost use Rattle.recovery_engine.specs.Heard.{gets, room};
    ghost use Rattle.recovery_engine.specs.HeardLaws.{adds_up};

    type To = ();

    ghost gets = { gets };

    ghost room = { room };

    ghost adds_up = { adds_up };

    ghost takes_on = { λ a b es source kind g t. t };

    fn give(&mut self, _to: &mut (), event: Event<Heard<Packet>>) {
        self.count(&event);
    }

    #[inline(always)]
    fn events_left(&self, _to: &()) -> usize {
        (COUNT_ROOM - self.events) as usize
    }

    #[inline(always)]
    fn takes_told(&self, _source: SourceId, _kind: SourceKind) -> bool {
        true
    }

    #[inline(always)]
    fn give_itm(
        &mut self,
        _to: &mut (),
        _at: u64,
        _half: u8,
        source: SourceId,
        _packet: ItmPacket,
    ) {
        self.add_packet(Some(source));
    }

    #[inline(always)]
    fn give_said(&mut self, _to: &mut (), _at: u64, _half: u8, source: SourceId, _said: Said) {
        self.add_packet(Some(source));
    }

    #[inline(always)]
    fn give_raw(&mut self, _to: &mut (), _at: u64, _source: SourceId, _bytes: &[u8]) {}

    #[inline(always)]
    fn give_trigger(&mut self, _to: &mut (), _at: u64, _source: SourceId, _byte: u8) {}
}
