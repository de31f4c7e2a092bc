//! What puts the lines of events into an outlet, as they come.

ghost use Rattle.std.specs.Prelude.{◌≡◌, ◌+◌, ◌≤◌, ◌++◌, ◌∷◌, [], List, Some, false, length};
ghost use Rattle.std.specs.Prelude.{if◌then◌else◌};
ghost use Rattle.capture_actions.specs.Names.{IsProper, Event, Packet, Itm, EventFits, PacketFits, packet_event};
ghost use Rattle.capture_actions.specs.Names.{StpItem, event_line, fault_line, stop_of, Suits, TEXT_ROOM, OUTLET_ROOM};
ghost use Rattle.source_events.specs.declared.event.What.TheVariants.{Packet as GivenPacket};
ghost use Rattle.std.specs.Option.{is_some};
ghost use Rattle.std.specs.Prelude.{true};
ghost use Rattle.recovering_machines.specs.Events.{trigger_event};
ghost use Rattle.stp_grammar.specs.Said.{said_item, IsProperSaid};
ghost use Rattle.trace_text.specs.LineText.{doubted, itm_event, raw_event, stp_event};
ghost use Rattle.capture_actions.specs.Faulty.{is_stp};
ghost use Rattle.capture_actions.specs.Filter.{plan_by, HasSeen};
ghost use Rattle.capture_actions.specs.Guesses.{guess_by};
ghost use Rattle.capture_actions.specs.Listing.{is_listed, itm_packets, remark_of};
ghost use Rattle.capture_actions.specs.SourceClocks.{AllStand, without};

use crate::filter::{ContentKind, Filter};
use crate::plan_table::{PlanTable, sends_stp};
use crate::source_clocks::SourceClocks;
use item_tap::{Bounds, Choices, is_stamp};
use itm_grammar::packet::ItmPacket;
use recovering_machines::{Receiver, seen};
use source_events::{Event, Packet, Plan, RunBytes, SourceKind, Stop, What};
use stp_grammar::said::Said;
use stretch_readings::Heard;
use trace_stream::{OUTLET_ROOM, Outlet, TEXT_ROOM};
use trace_text::{
    Digits, EVENT_ROOM, Remark, print, print_fault, print_guess, print_misread, put_line,
    put_raw_line, put_said_line,
};
use trace_values::SourceId;

/// What puts the lines of events, and what it needs of the events before them.
#[derive(Drop)]
pub struct Lister {
    /// How the capture is read.
    pub plan: PlanTable,
    /// Which events are listed.
    pub filter: Filter,
    pub clocks: SourceClocks,
    pub digits: Digits,
}

/// Puts the line of the next event with what the clocks say beside it, if it is listed.
#[inline(always)]
fn put_event(
    outlet: &mut Outlet,
    digits: &mut Digits,
    filter: &mut Filter,
    plan: &Plan,
    event: &Event<Packet>,
    remark: Remark,
)
    requires fits { EventFits PacketFits event.now }
    requires suits { Suits event.now.what remark }
    requires room { length outlet.old + TEXT_ROOM ≤ OUTLET_ROOM }
    ensures text { (before : List (Event Packet)) → HasSeen filter.old before →
        let p = plan_by plan.now filter.old in
        let line = event_line (is_stp p.plan event.now.source) event.now remark in
        outlet.new ≡ outlet.old ++ (if is_listed p.only p.window before event.now then line else []) }
    ensures seen { (before : List (Event Packet)) → HasSeen filter.old before →
        HasSeen filter.new (before ++ event.now ∷ []) }
    ensures same { plan_by plan.now filter.new ≡ plan_by plan.now filter.old }
    ensures bound { length outlet.new ≤ length outlet.old + EVENT_ROOM }
{
    if filter.lists(event) {
        print(outlet, digits, event, sends_stp(plan, event.source), remark);
    }
}

/// Takes the next packet of this ITM source, whose last byte is at this offset, and puts its line. The clocks are asked
/// only for a timestamp.
#[inline(always)]
fn put_itm_line(
    outlet: &mut Outlet,
    digits: &mut Digits,
    clocks: &mut SourceClocks,
    at: u64,
    id: SourceId,
    packet: &ItmPacket,
)
    requires proper { IsProper packet.now }
    requires room { length outlet.old + TEXT_ROOM ≤ OUTLET_ROOM }
    ensures text { (before : List (Event Packet)) → AllStand clocks.old before →
        outlet.new ≡ outlet.old ++ event_line false (itm_event at id packet.now)
        (remark_of (itm_packets (Some id) before) (GivenPacket (Itm packet.now))) }
    ensures clocks { (before : List (Event Packet)) (event : Event Packet) → event.source ≡ Some id →
        event.what ≡ GivenPacket (Itm packet.now) → AllStand clocks.old before →
        AllStand clocks.new (before ++ event ∷ []) }
    ensures bound { length outlet.new ≤ length outlet.old + EVENT_ROOM }
{
    if is_stamp(packet) {
        let remark = clocks.packet_remark(id, packet);
        put_line(outlet, digits, at, id, packet, remark);
    } else {
        clocks.pass_other(packet);
        put_line(outlet, digits, at, id, packet, Remark::None);
    }
}

impl Lister {
    ghost use Rattle.capture_actions.specs.Filter.{bounds_in};
    ghost use Rattle.capture_actions.specs.Lister.{gets, ListsItm, ListsStp};
    ghost use Rattle.std.specs.Prelude.{[], ◌<◌, ◌↔◌, IfSome, IsTrue, true, false};

    /// No event came yet. It lists those of a capture that is read so which meet one of some choices, if there are any,
    /// and are within a window, if there is one.
    pub fn new(plan: &Plan, only: Option<Choices>, window: Option<Bounds>) -> Lister
        ensures plan { result.plan ≡ plan.now }
        ensures only { result.filter.only ≡ only }
        ensures window { bounds_in result.filter.window ≡ window }
        ensures clocks { AllStand result.clocks [] }
        ensures seen { HasSeen result.filter [] }
    {
        Lister {
            plan: PlanTable::new(plan),
            filter: Filter::new(only, window),
            clocks: SourceClocks::new(),
            digits: Digits::new(),
        }
    }

    /// Takes the next event, and puts its line if it is listed.
    #[inline(always)]
    fn put_next(&mut self, outlet: &mut Outlet, event: &Event<Packet>)
        requires fits { EventFits PacketFits event.now }
        requires room { length outlet.old + TEXT_ROOM ≤ OUTLET_ROOM }
        ensures gets { gets (self.old, outlet.old) (event.now ∷ []) (self.new, outlet.new) }
        ensures bound { length outlet.new ≤ length outlet.old + EVENT_ROOM }
    {
        let remark = self.clocks.remark(event);
        put_event(
            outlet,
            &mut self.digits,
            &mut self.filter,
            self.plan.plan(),
            event,
            remark,
        );
    }

    /// Puts the line of a fault. Behind it the clocks of its source begin anew, behind one of the port those of all.
    pub fn put_fault(&mut self, outlet: &mut Outlet, stop: &Stop)
        requires room { length outlet.old + TEXT_ROOM ≤ OUTLET_ROOM }
        ensures plan { self.new.plan ≡ self.old.plan }
        ensures filter { self.new.filter ≡ self.old.filter }
        ensures clocks { (es : List (Event Packet)) → AllStand self.old.clocks es →
            AllStand self.new.clocks (without stop.now.source es) }
        ensures line { outlet.new ≡
            outlet.old ++ fault_line (is_stp self.old.plan stop.now.source) (stop_of stop.now) }
        ensures bound { length outlet.new ≤ length outlet.old + EVENT_ROOM }
    {
        print_fault(outlet, stop, sends_stp(self.plan.plan(), stop.source));
        self.clocks.renew(stop.source);
    }

    /// Takes a guess into the clocks of guesses, and puts its line with what they say beside it, if it is listed. The
    /// lister's own clocks and its window do not take it.
    pub fn put_guess(
        &mut self,
        outlet: &mut Outlet,
        clocks: &mut SourceClocks,
        event: &Event<Packet>,
    )
        requires fits { EventFits PacketFits event.now }
        requires room { length outlet.old + TEXT_ROOM ≤ OUTLET_ROOM }
        ensures plan { self.new.plan ≡ self.old.plan }
        ensures filter { self.new.filter ≡ self.old.filter }
        ensures own { self.new.clocks ≡ self.old.clocks }
        ensures clocks { (es : List (Event Packet)) → AllStand clocks.old es →
            AllStand clocks.new (es ++ event.now ∷ []) }
        ensures line { (clocked seen : List (Event Packet)) → AllStand clocks.old clocked →
            HasSeen self.old.filter seen →
            outlet.new ≡ outlet.old ++ guess_by (plan_by self.old.plan self.old.filter) clocked seen event.now }
        ensures bound { length outlet.new ≤ length outlet.old + EVENT_ROOM }
    {
        let remark = clocks.remark(event);
        if self.filter.lists_guess(event) {
            let stp = sends_stp(self.plan.plan(), event.source);
            print_guess(outlet, &mut self.digits, event, stp, remark);
        }
    }

    /// Puts the line of a fault of a guess, which no clock sees.
    pub fn put_misread(&self, outlet: &mut Outlet, stop: &Stop)
        requires room { length outlet.old + TEXT_ROOM ≤ OUTLET_ROOM }
        ensures line { outlet.new ≡
            outlet.old ++ doubted (fault_line (is_stp self.now.plan stop.now.source) (stop_of stop.now)) }
        ensures bound { length outlet.new ≤ length outlet.old + EVENT_ROOM }
    {
        print_misread(outlet, stop, sends_stp(self.plan.plan(), stop.source));
    }

    /// Takes the next event, which is one that comes seldom: a notice, or a byte of the trigger source within a window.
    #[inline(never)]
    pub fn put_seldom(&mut self, outlet: &mut Outlet, event: Event<Packet>)
        requires fits { EventFits PacketFits event }
        requires room { length outlet.old + TEXT_ROOM ≤ OUTLET_ROOM }
        ensures gets { gets (self.old, outlet.old) (event ∷ []) (self.new, outlet.new) }
        ensures bound { length outlet.new ≤ length outlet.old + EVENT_ROOM }
    {
        self.put_next(outlet, &event);
    }

    /// Takes the next run of bytes of this source by its event, which is made here, and puts its line if it is listed.
    #[inline(never)]
    fn give_raw_event(&mut self, outlet: &mut Outlet, at: u64, source: SourceId, bytes: &[u8])
        requires some { 0 < length bytes.now }
        requires few { length bytes.now ≤ 15 }
        requires room { length outlet.old + TEXT_ROOM ≤ OUTLET_ROOM }
        ensures gets { gets (self.old, outlet.old) (raw_event at source bytes.now ∷ []) (self.new, outlet.new) }
        ensures bound { length outlet.new ≤ length outlet.old + EVENT_ROOM }
    {
        let event = Event {
            at,
            half: 0,
            source: Some(source),
            what: What::Raw(RunBytes::new(bytes)),
        };
        self.put_next(outlet, &event);
    }

    /// The lines of ITM packets of this source are put from the packets' parts: there is no window, and it sends no STP
    /// packets.
    #[inline(always)]
    fn lists_itm(&self, source: SourceId) -> bool
        ensures { IsTrue result ↔ ListsItm self.now source }
    {
        self.filter.has_no_window() && !self.plan.sends_stp(source)
    }

    /// The lines of items of this source are put from their parts: there is no window, and it sends STP packets.
    #[inline(always)]
    fn lists_stp(&self, source: SourceId) -> bool
        ensures { IsTrue result ↔ ListsStp self.now source }
    {
        self.filter.has_no_window() && self.plan.sends_stp(source)
    }

    /// Takes the next packet of this source, and puts its line, if it is listed, from the packet's parts: the event
    /// itself goes nowhere, so that it need not be in memory. In which half of the byte it ends is not in the line.
    #[inline(always)]
    fn put_own_itm(
        &mut self,
        outlet: &mut Outlet,
        at: u64,
        half: u8,
        source: SourceId,
        packet: ItmPacket,
    )
        requires proper { IsProper packet }
        requires own { ListsItm self.old source }
        requires room { length outlet.old + TEXT_ROOM ≤ OUTLET_ROOM }
        ensures gets { gets (self.old, outlet.old) (packet_event source at half (Itm packet) ∷ [])
            (self.new, outlet.new) }
        ensures bound { length outlet.new ≤ length outlet.old + EVENT_ROOM }
    {
        if self.filter.wants_itm(source, &packet) {
            put_itm_line(
                outlet,
                &mut self.digits,
                &mut self.clocks,
                at,
                source,
                &packet,
            );
        } else {
            let _ = self.clocks.packet_remark(source, &packet);
        }
    }

    /// Takes the next item of this source, which is that of what a packet says, and puts its line, if it is listed,
    /// from its parts, which need not be in memory.
    #[inline(always)]
    fn put_said(&mut self, outlet: &mut Outlet, at: u64, half: u8, source: SourceId, said: Said)
        requires proper { IsProperSaid said }
        requires some { is_some (said_item said) ≡ true }
        requires own { ListsStp self.old source }
        requires room { length outlet.old + TEXT_ROOM ≤ OUTLET_ROOM }
        ensures gets { (item : StpItem) → said_item said ≡ Some item →
            gets (self.old, outlet.old) (stp_event at half source item ∷ []) (self.new, outlet.new) }
        ensures bound { length outlet.new ≤ length outlet.old + EVENT_ROOM }
    {
        self.clocks.pass();
        if self.filter.wants(source, ContentKind::Stp) {
            put_said_line(outlet, &mut self.digits, at, half, source, said);
        }
    }

    /// Takes the next run of bytes of this source, and puts its line, if it is listed, from its parts.
    #[inline(always)]
    fn put_own_raw(&mut self, outlet: &mut Outlet, at: u64, source: SourceId, bytes: &[u8])
        requires few { length bytes.now ≤ 15 }
        requires own { ListsItm self.old source }
        requires room { length outlet.old + TEXT_ROOM ≤ OUTLET_ROOM }
        ensures gets { gets (self.old, outlet.old) (raw_event at source bytes.now ∷ []) (self.new, outlet.new) }
        ensures bound { length outlet.new ≤ length outlet.old + EVENT_ROOM }
    {
        self.clocks.pass();
        if self.filter.wants(source, ContentKind::Raw) {
            put_raw_line(outlet, &mut self.digits, at, source, bytes);
        }
    }

    /// Takes the next byte of the trigger source, and puts its line, if it is listed, from its parts.
    #[inline(always)]
    fn put_own_trigger(&mut self, outlet: &mut Outlet, at: u64, source: SourceId, byte: u8)
        requires own { ListsItm self.old source }
        requires room { length outlet.old + TEXT_ROOM ≤ OUTLET_ROOM }
        ensures gets { gets (self.old, outlet.old) (trigger_event source at byte ∷ []) (self.new, outlet.new) }
        ensures bound { length outlet.new ≤ length outlet.old + EVENT_ROOM }
    {
        self.clocks.pass();
        if self.filter.wants(source, ContentKind::Trigger) {
            let event = trigger_of(at, source, byte);
            print(outlet, &mut self.digits, &event, false, Remark::None);
        }
    }

    /// Takes the next run of bytes of this source, and puts its line if it is listed.
    #[inline(always)]
    fn put_raw(&mut self, outlet: &mut Outlet, at: u64, source: SourceId, bytes: &[u8])
        requires some { 0 < length bytes.now }
        requires few { length bytes.now ≤ 15 }
        requires room { length outlet.old + TEXT_ROOM ≤ OUTLET_ROOM }
        ensures gets { gets (self.old, outlet.old) (raw_event at source bytes.now ∷ []) (self.new, outlet.new) }
        ensures bound { length outlet.new ≤ length outlet.old + EVENT_ROOM }
    {
        if self.lists_itm(source) {
            self.put_own_raw(outlet, at, source, bytes);
        } else {
            self.give_raw_event(outlet, at, source, bytes);
        }
    }

    /// Takes the next byte of the trigger source, and puts its line if it is listed.
    #[inline(always)]
    fn put_trigger(&mut self, outlet: &mut Outlet, at: u64, source: SourceId, byte: u8)
        requires room { length outlet.old + TEXT_ROOM ≤ OUTLET_ROOM }
        ensures gets { gets (self.old, outlet.old) (trigger_event source at byte ∷ []) (self.new, outlet.new) }
        ensures bound { length outlet.new ≤ length outlet.old + EVENT_ROOM }
    {
        if self.lists_itm(source) {
            self.put_own_trigger(outlet, at, source, byte);
        } else {
            self.put_seldom(outlet, trigger_of(at, source, byte));
        }
    }
}

/// The event of the byte of the trigger source at this offset.
#[inline(always)]
fn trigger_of(at: u64, source: SourceId, byte: u8) -> Event<Packet>
    ensures { result ≡ trigger_event source at byte }
{
    Event {
        at,
        half: 0,
        source: Some(source),
        what: What::Trigger(byte),
    }
}

/// An event goes to the outlet as its line, if it is listed.
impl Receiver for Lister {
    ghost use Rattle.capture_actions.specs.Lister.{gets, room, Lists};
    ghost use Rattle.capture_actions.specs.ListerLaws.{adds_up, lists_on};
    ghost use Rattle.recovering_machines.specs.Hearing.{seen_in, takes_seen};
    ghost use Rattle.recovering_machines.specs.HearingLaws.{seen_adds_up};

    type To = Outlet;

    ghost gets = { λ old es new. takes_seen gets old es new };

    ghost room = { room };

    ghost takes = { Lists };

    ghost adds_up = { seen_adds_up gets adds_up };

    ghost takes_on = { λ a b es source kind g t. lists_on a b (seen_in es) source kind g t };

    /// What comes so is seldom: the notice of a lock.
    #[inline(always)]
    fn give(&mut self, outlet: &mut Outlet, event: Event<Heard<Packet>>) {
        if let Some(event) = seen(event) {
            self.put_seldom(outlet, event);
        }
    }

    #[inline(always)]
    fn events_left(&self, outlet: &Outlet) -> usize {
        (OUTLET_ROOM + EVENT_ROOM - TEXT_ROOM).saturating_sub(outlet.len()) / EVENT_ROOM
    }

    #[inline(always)]
    fn takes_told(&self, source: SourceId, kind: SourceKind) -> bool {
        match kind {
            SourceKind::Itm => self.lists_itm(source),
            SourceKind::Stp => self.lists_stp(source),
        }
    }

    #[inline(always)]
    fn give_itm(
        &mut self,
        outlet: &mut Outlet,
        at: u64,
        half: u8,
        source: SourceId,
        packet: ItmPacket,
    ) {
        self.put_own_itm(outlet, at, half, source, packet);
    }

    #[inline(always)]
    fn give_said(&mut self, outlet: &mut Outlet, at: u64, half: u8, source: SourceId, said: Said) {
        self.put_said(outlet, at, half, source, said);
    }

    #[inline(always)]
    fn give_raw(&mut self, outlet: &mut Outlet, at: u64, source: SourceId, bytes: &[u8]) {
        self.put_raw(outlet, at, source, bytes);
    }

    #[inline(always)]
    fn give_trigger(&mut self, outlet: &mut Outlet, at: u64, source: SourceId, byte: u8) {
        self.put_trigger(outlet, at, source, byte);
    }
}
