//! What is kept of the packets of a source for its value dump.

ghost use Rattle.std.specs.Prelude.{◌≡◌, ◌+◌, ◌≤◌, ◌<◌, ◌++◌, ◌∷◌, [], List, length};
ghost use Rattle.std.specs.Option.{ForSome};
ghost use Rattle.itm_grammar.specs.declared.packet.Lateness.{Lateness};
ghost use Rattle.value_dump.specs.Dump.{packet_lines, pending};
ghost use Rattle.value_dump.specs.Names.{IsProper, ItmPacket, Local, OUTLET_ROOM};
ghost use Rattle.value_dump.specs.declared.values.TheConstants.{TIME_ROOM};
ghost use Rattle.value_dump.specs.declared.dump.TheConstants.{PACKET_ROOM};

use crate::lines::nanoseconds;
use crate::telling::tell;
use crate::values::{LINE_ROOM, SignalValues, TIME_ROOM};
use itm_grammar::packet::ItmPacket;
use trace_clock::LocalClock;
use trace_stream::Outlet;

/// The most bytes by which a packet adds to what is put and to what is pending: it tells two signals at most.
pub const PACKET_ROOM: usize = 2 * LINE_ROOM;

/// What is kept of the packets of a source for its value dump.
#[derive(Drop)]
pub struct ValueDump {
    hz: Option<u64>,
    clock: LocalClock,
    /// The time of the last local timestamp, in nanoseconds.
    time: u128,
    values: SignalValues,
    ghost timed: { ForSome hz (λ n. 0 < n) },
}

impl ValueDump {
    ghost use Rattle.value_dump.specs.Dumping.{Stands, hz_of, owed_by};

    /// No packet came yet. Times are in nanoseconds, if the clock of the local timestamps is of so many Hz, or one tick
    /// is one nanosecond.
    pub fn new(hz: Option<u64>) -> ValueDump
        requires some { ForSome hz (λ n. 0 < n) }
        ensures hz { hz_of result ≡ hz }
        ensures stands { Stands result [] }
        ensures owed { owed_by result ≡ 0 }
    {
        ValueDump {
            hz,
            clock: LocalClock::new(),
            time: nanoseconds(hz, 0),
            values: SignalValues::new(),
        }
    }

    /// Of how many Hz the clock of the local timestamps is, if times are in nanoseconds.
    pub fn hz(&self) -> Option<u64>
        ensures { result ≡ hz_of self.now }
    {
        self.hz
    }

    /// How many bytes what is pending has at most.
    #[inline]
    pub fn owed(&self) -> usize
        ensures { result ≡ owed_by self.now }
    {
        self.values.owed()
    }

    /// Takes a local timestamp, and puts the lines of the signals that changed since the one before.
    fn put_stamp(&mut self, outlet: &mut Outlet, delta: u32)
        requires room { length outlet.old + (TIME_ROOM + owed_by self.old) ≤ OUTLET_ROOM }
        ensures hz { hz_of self.new ≡ hz_of self.old }
        ensures stands { (packets : List ItmPacket) (lateness : Lateness) → Stands self.old packets →
            Stands self.new (packets ++ Local lateness delta ∷ []) }
        ensures text { (packets : List ItmPacket) (lateness : Lateness) → Stands self.old packets →
            outlet.new ≡ outlet.old ++ packet_lines (hz_of self.old) packets (Local lateness delta) }
        ensures bound { length outlet.new + owed_by self.new ≤ length outlet.old + (TIME_ROOM + owed_by self.old) }
    {
        let ticks = self.clock.add(delta);
        self.time = nanoseconds(self.hz, ticks);
        self.values.put_changes(outlet, self.time);
        self.values.settle();
    }

    /// Takes a packet, and puts what is written for it.
    pub fn put_packet(&mut self, outlet: &mut Outlet, packet: &ItmPacket)
        requires proper { IsProper packet.now }
        requires room { length outlet.old + owed_by self.old + PACKET_ROOM ≤ OUTLET_ROOM }
        ensures hz { hz_of self.new ≡ hz_of self.old }
        ensures stands { (packets : List ItmPacket) → Stands self.old packets →
            Stands self.new (packets ++ packet.now ∷ []) }
        ensures text { (packets : List ItmPacket) → Stands self.old packets →
            outlet.new ≡ outlet.old ++ packet_lines (hz_of self.old) packets packet.now }
        ensures bound { length outlet.new + owed_by self.new ≤ length outlet.old + owed_by self.old + PACKET_ROOM }
    {
        if let ItmPacket::Local { delta, .. } = *packet {
            self.put_stamp(outlet, delta);
        } else {
            tell(&mut self.values, packet);
        }
    }

    /// Puts what is pending.
    pub fn put_pending(&self, outlet: &mut Outlet)
        requires room { length outlet.old + (TIME_ROOM + owed_by self.now) ≤ OUTLET_ROOM }
        ensures text { (packets : List ItmPacket) → Stands self.now packets →
            outlet.new ≡ outlet.old ++ pending (hz_of self.now) packets }
    {
        self.values.put_changes(outlet, self.time);
    }
}
