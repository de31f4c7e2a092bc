//! The reading of a mapped source that goes on after a fault, and after a fault of the port.
//!
//! The packets are those of the ARMv7-M Architecture Reference Manual, Arm DDI 0403E, appendix D4 'Debug ITM and DWT
//! Packet Protocol', and of the MIPI System Trace Protocol, version 2. Which bytes are faults, and how a reading goes
//! on after one, is this project's profile.

ghost use Rattle.std.specs.Prelude.{◌≡◌, ◌+◌, ◌≤◌, true};
ghost use Rattle.stretch_readings.specs.Steps.{raised};
ghost use Rattle.source_events.specs.Fitting.{PacketFits};
ghost use Rattle.trace_values.specs.ReadingModes.{packets_hunt};
ghost use Rattle.trace_values.specs.Stream.{LocksAfter, StepFits};
ghost use Rattle.source_machine.specs.Machine.{is_live};
ghost use Rattle.source_machine.specs.Units.{kind_of as kind_on};
ghost use Rattle.trace_values.specs.declared.limits.TheConstants.{COUNT_ROOM};
ghost use Rattle.recovering_machines.specs.Units.{BeginsHunt};

use crate::found::{take_bytes, take_found};
use crate::receiver::Receiver;
use frame_runs::Run;
use source_events::{Packet, SourceKind};
use source_machine::SourceMachine;
use stp_grammar::packet::Order;
use trace_values::{Machine, PacketsMode, SourceId, Step, TakenAtOnce};

/// Reads the bytes of a mapped source. After a fault it hunts again from the fault's byte or nibble on, and after a cut
/// from the next byte on. It is live always.
///
/// It **stands for** the stretches of a list of units, bytes of ITM and nibbles of STP, with marks where the list is
/// cut. Its clauses hold for all stretches that it stood for before the call; a new one stands for those of the empty
/// list.
#[derive(Drop)]
pub struct RecoveringSource {
    machine: SourceMachine,
    /// How many units the stretches before the present one skipped.
    past: u64,
    /// How many units the present one counts before those that the machine read.
    count: u64,
    /// The present one hunts.
    hunts: bool,
    ghost live: { is_live machine ≡ true },
}

/// The byte with which a hunt begins.
#[derive(Clone, Copy, Drop)]
struct FirstByte {
    byte: u8,
    /// How many of its units are before the hunt's, which passes over them.
    passed: u64,
}

/// The packets are read in a hunt from the first one on.
fn hunts(packets: PacketsMode) -> bool
    ensures { result ≡ packets_hunt packets }
{
    match packets {
        PacketsMode::Hunt => true,
        PacketsMode::Aligned => false,
    }
}

/// The byte with which a hunt begins that begins at this half of a byte. Machines read whole bytes: so a low nibble
/// that is not the hunt's is made 0, over which every hunt passes, since its pattern begins with F.
fn first_byte(machine: &SourceMachine, half: u8, byte: u8) -> FirstByte
    ensures { BeginsHunt (kind_on machine.now) half byte result }
{
    match machine {
        SourceMachine::Stp(_) if half > 0 => FirstByte {
            byte: byte / 16 * 16,
            passed: 1,
        },
        _ => FirstByte { byte, passed: 0 },
    }
}

/// An answer with its lock's count, which is this number of units, raised.
fn raised(step: Step<Packet>, count: u64, skipped: u64) -> Step<Packet>
    requires lock { LocksAfter skipped step }
    requires fits { StepFits PacketFits step }
    requires room { count + skipped ≤ COUNT_ROOM + 4 }
    ensures value { result ≡ raised count step }
    ensures fits { StepFits PacketFits result }
{
    match step {
        Step::Locked { half, item, .. } => Step::Locked {
            skipped: count + skipped,
            half,
            item,
        },
        step => step,
    }
}

impl RecoveringSource {
    ghost use Rattle.std.specs.Prelude.{◌++◌, ◌-◌, ◌*◌, ◌<◌, IfSome, None, length, take};
    ghost use Rattle.stretch_readings.specs.Stretches.{Stretches, before, from_fault, parted};
    ghost use Rattle.source_machine.specs.Units.{reads_by};
    ghost use Rattle.stretch_readings.specs.Steps.{said_by};
    ghost use Rattle.recovering_machines.specs.Source.{Answers, Stands, heard_by, kind_of, reads_of, total_of};
    ghost use Rattle.recovering_machines.specs.Found.{TakesCells, ended, heard_in};
    ghost use Rattle.recovering_machines.specs.Run.{GoesOn, TakesRun, between};
    ghost use Rattle.recovering_machines.specs.Source.{with_byte};

    /// One of a source of this kind before its first byte. The order is that of the nibbles of an STP source's numbers.
    pub fn new(kind: SourceKind, packets: PacketsMode, order: Order) -> RecoveringSource
        ensures kind { kind_of result ≡ kind }
        ensures reads { reads_of result ≡ reads_by order kind }
        ensures fresh { Stands result (before (reads_of result) from_fault (packets_hunt packets)) }
        ensures few { total_of result ≤ 0 }
    {
        RecoveringSource {
            machine: SourceMachine::new(kind, packets, order),
            past: 0,
            count: 0,
            hunts: hunts(packets),
        }
    }

    /// Takes the next byte, which is at this offset. After `Fault` it hunts already, and has taken the units from the
    /// fault's on. `Locked` has the units that the present hunt skipped, and those that it counts from the fault before
    /// it.
    pub fn feed(&mut self, at: u64, byte: u8) -> Step<Packet>
        requires room { total_of self.old ≤ COUNT_ROOM }
        ensures kind { kind_of self.new ≡ kind_of self.old }
        ensures reads { reads_of self.new ≡ reads_of self.old }
        ensures list { (r : Stretches) → Stands self.old r → Stands self.new (with_byte self.old r at byte) }
        ensures step { (r : Stretches) → Stands self.old r → Answers self.old r at byte result }
        ensures given { (r : Stretches) → Stands self.old r →
            (heard_by self.old (with_byte self.old r at byte)).given
            ≡ (heard_by self.old r).given ++ said_by at result }
        ensures fits { StepFits PacketFits result }
        ensures few { total_of self.new ≤ total_of self.old + 4 }
    {
        match self.machine.feed_units(at, byte) {
            Step::Fault(fault) => {
                let first = first_byte(&self.machine, fault.half, byte);
                self.past += self.count + self.machine.skipped();
                self.count = self.machine.held().saturating_sub(first.passed);
                self.machine = self.machine.hunting_from(at, first.byte);
                self.hunts = true;
                Step::Fault(fault)
            }
            step => raised(step, self.count, self.machine.skipped()),
        }
    }

    /// Takes bytes of a run within the unfinished packet up to the one in which it ends, or all of them, where none of
    /// them is a fault. None says nothing of the bytes: then it stands for what it stood for.
    pub fn take(&mut self, bytes: &[u8]) -> Option<TakenAtOnce<Packet>>
        requires room { total_of self.old + 4 * length bytes.now ≤ COUNT_ROOM }
        ensures kind { kind_of self.new ≡ kind_of self.old }
        ensures reads { reads_of self.new ≡ reads_of self.old }
        ensures bytes { IfSome result (λ taken. (0 < taken.bytes) × (taken.bytes ≤ length bytes.now)) }
        ensures takes { IfSome result (λ taken.
            TakesCells self.old self.new (take taken.bytes bytes.now)
            (λ at. heard_in (ended taken.half at taken.item))) }
        ensures fits { IfSome result (λ taken. IfSome taken.item PacketFits) }
        ensures few { IfSome result (λ taken. total_of self.new ≤ total_of self.old + 4 * taken.bytes) }
        ensures none { result ≡ None → ((r : Stretches) → Stands self.old r → Stands self.new r)
            × (total_of self.new ≤ total_of self.old) }
    {
        take_bytes(&mut self.machine, bytes)
    }

    /// Takes packets of a run of this source from this index on, as long as they are found, and gives them. Answers the
    /// index after them.
    #[inline(always)]
    pub fn take_packets<R: Run, V: Receiver>(
        &mut self,
        id: SourceId,
        run: &R,
        from: usize,
        out: &mut V,
        to: &mut V::To,
    ) -> usize
        requires from { from ≤ length (R.cells run.now) }
        requires room { 2 * (length (R.cells run.now) - from) ≤ V.room (out.old, to.old) }
        ensures within { (from ≤ result) × (result ≤ length (R.cells run.now)) }
        ensures takes { TakesRun V.gets V.room id (between from result (R.cells run.now)) self.old self.new
            (out.old, to.old) (out.new, to.new) }
        ensures goes { (r : Stretches) → Stands self.old r →
            GoesOn self.old r (between from result (R.cells run.now)) }
    {
        take_found(&mut self.machine, id, run, from, out, to)
    }

    /// Cuts the source's list here: what comes is hunted anew with a count of 0, and what is held is skipped.
    pub fn cut(&mut self)
        requires room { total_of self.old ≤ COUNT_ROOM }
        ensures kind { kind_of self.new ≡ kind_of self.old }
        ensures reads { reads_of self.new ≡ reads_of self.old }
        ensures list { (r : Stretches) → Stands self.old r → Stands self.new (parted (reads_of self.old) from_fault r) }
        ensures given { (r : Stretches) → Stands self.old r →
            (heard_by self.old (parted (reads_of self.old) from_fault r)).given ≡ (heard_by self.old r).given }
        ensures few { total_of self.new ≤ total_of self.old }
    {
        self.past += self.count + self.machine.skipped() + self.machine.held();
        self.count = 0;
        self.machine = self.machine.hunting_again();
        self.hunts = true;
    }

    /// The present stretch hunts: the first one where it was made to hunt, and each further one.
    pub fn hunts(&self) -> bool
        ensures { (r : Stretches) → Stands self.now r → result ≡ r.now.hunts }
    {
        self.hunts
    }

    /// False in a hunt: before the first lock, where it was made to hunt, and from a fault or a cut to the next lock.
    pub fn is_locked(&self) -> bool
        ensures { (r : Stretches) → Stands self.now r → result ≡ (heard_by self.now r).locked }
    {
        self.machine.is_locked()
    }

    /// How many units of the unfinished packet it holds; 0 in a hunt.
    pub fn held(&self) -> u64
        ensures { (r : Stretches) → Stands self.now r → result ≡ (heard_by self.now r).held }
    {
        self.machine.held()
    }

    /// How many units all stretches so far skipped: their hunts, of a packet that a fault broke those before the
    /// fault's, and of one that a cut broke all.
    pub fn skipped(&self) -> u64
        requires room { total_of self.now ≤ COUNT_ROOM }
        ensures { (r : Stretches) → Stands self.now r → result ≡ (heard_by self.now r).skipped }
    {
        self.past + self.count + self.machine.skipped()
    }
}
