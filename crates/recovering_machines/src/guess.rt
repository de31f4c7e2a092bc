//! What a source may have said in a hunt after a fault: its units are read on from the one after the fault, as if a
//! packet began there. What is read so is a guess, and ends where the hunt locks.

ghost use Rattle.std.specs.Prelude.{◌≡◌, true};
ghost use Rattle.source_machine.specs.Machine.{is_live};

use source_events::{Packet, SourceKind};
use source_machine::SourceMachine;
use stp_grammar::packet::Order;
use trace_values::{PacketsMode, Step};

/// What a source says in a byte.
#[derive(Debug, Drop)]
pub enum Answer {
    /// What it says as a source that hunts after a fault does.
    Sure(Step<Packet>),
    /// What its guess says while it hunts: an item, a fault, or nothing.
    Guessed(Step<Packet>),
}

/// Reads a source's units on after a fault, while the source hunts. It is live always.
///
/// It **follows** the stretches of the source, whose units are before an offset. Its clauses hold for all stretches
/// that it followed before the call; a new one follows those of the empty list.
#[derive(Drop)]
pub struct Guess {
    machine: SourceMachine,
    /// The source hunts after a fault.
    is_reading: bool,
    ghost live: { is_live machine ≡ true },
}

impl Guess {
    ghost use Rattle.std.specs.Prelude.{◌+◌, ◌++◌, ◌≤◌, ℕ, Bool, List, None, [], false};
    ghost use Rattle.source_events.specs.Fitting.{PacketFits};
    ghost use Rattle.source_machine.specs.Units.{kind_of as kind_on, reads_by, reads_on, units_after};
    ghost use Rattle.stretch_readings.specs.Stretches.{Stretches, before, from_fault, parted};
    ghost use Rattle.trace_values.specs.Placed.{Placed};
    ghost use Rattle.trace_values.specs.Stream.{StepFits};
    ghost use Rattle.trace_values.specs.declared.limits.TheConstants.{COUNT_ROOM};
    ghost use Rattle.trace_values.specs.declared.step.Step.TheVariants.{Skipping};
    ghost use Rattle.recovering_machines.specs.Guess.{AnswerFits, Continues, Follows, ReadsByte, near_by, said_in};
    ghost use Rattle.recovering_machines.specs.Guess.{total_of};
    ghost use Rattle.recovering_machines.specs.Source.{Answers, Stands, kind_of, reads_of, with_byte};
    ghost use Rattle.recovering_machines.specs.declared.source.RecoveringSource.{RecoveringSource};

    /// That of a source of this kind before its first byte.
    pub fn new(kind: SourceKind, order: Order) -> Guess
        ensures follows { (s : RecoveringSource) (hunts : Bool) (at : ℕ) → kind_of s ≡ kind →
            reads_of s ≡ reads_by order kind → Follows result s at (before (reads_of s) from_fault hunts) }
        ensures few { total_of result ≤ 0 }
    {
        Guess {
            machine: SourceMachine::new(kind, PacketsMode::Aligned, order),
            is_reading: false,
        }
    }

    /// It reads on: the source hunts after a fault.
    pub fn is_reading(&self) -> bool
        ensures { result ≡ self.now.is_reading }
    {
        self.is_reading
    }

    /// Begins with the units of the byte at this offset that are after this half's.
    fn begin(&mut self, at: u64, half: u8, byte: u8)
        ensures kind { kind_on self.new.machine ≡ kind_on self.old.machine }
        ensures reads { reads_on self.new.machine ≡ reads_on self.old.machine }
        ensures reading { self.new.is_reading ≡ true }
        ensures goes { Continues self.new.machine (units_after (kind_on self.old.machine) half at byte) }
        ensures quiet { (reads_on self.old.machine false (units_after (kind_on self.old.machine) half at byte)).given
            ≡ [] }
        ensures sound { (reads_on self.old.machine false (units_after (kind_on self.old.machine) half at byte)).fault
            ≡ None }
        ensures few { total_of self.new ≤ 2 }
    {
        self.machine = self.machine.aligned_after(at, half, byte);
        self.is_reading = true;
    }

    /// Reads the byte at this offset on. After a fault of it the unit after the fault's begins a packet.
    fn read(&mut self, at: u64, byte: u8) -> Step<Packet>
        requires room { total_of self.old ≤ COUNT_ROOM }
        ensures kind { kind_on self.new.machine ≡ kind_on self.old.machine }
        ensures reads { reads_on self.new.machine ≡ reads_on self.old.machine }
        ensures reading { self.new.is_reading ≡ self.old.is_reading }
        ensures takes { (u : List Placed) → Continues self.old.machine u →
            ReadsByte self.old.machine self.new.machine u at byte result }
        ensures fits { StepFits PacketFits result }
        ensures few { total_of self.new ≤ total_of self.old + 2 }
    {
        match self.machine.feed_units(at, byte) {
            Step::Fault(fault) => {
                self.machine = self.machine.aligned_after(at, fault.half, byte);
                Step::Fault(fault)
            }
            step => step,
        }
    }

    /// Takes the byte at this offset over which the source hunts.
    fn skip(&mut self, at: u64, byte: u8) -> Answer
        requires room { total_of self.old ≤ COUNT_ROOM }
        ensures follows { (s : RecoveringSource) (r : Stretches) (start : ℕ) → start ≤ at → Stands s r →
            Answers s r at byte Skipping → Follows self.old s start r →
            Follows self.new s (at + 1) (with_byte s r at byte) }
        ensures said { (s : RecoveringSource) (r : Stretches) (start : ℕ) → start ≤ at → Stands s r →
            Answers s r at byte Skipping → Follows self.old s start r →
            near_by s (with_byte s r at byte) ≡ near_by s r ++ said_in at result }
        ensures fits { AnswerFits result }
        ensures few { total_of self.new ≤ total_of self.old + 2 }
    {
        if self.is_reading {
            Answer::Guessed(self.read(at, byte))
        } else {
            Answer::Sure(Step::Skipping)
        }
    }

    /// Takes what the source answered to the byte at this offset.
    pub(crate) fn follow(&mut self, at: u64, byte: u8, step: Step<Packet>) -> Answer
        requires room { total_of self.old ≤ COUNT_ROOM }
        requires fits { StepFits PacketFits step }
        ensures follows { (s : RecoveringSource) (r : Stretches) (start : ℕ) → start ≤ at → Stands s r →
            Answers s r at byte step → Follows self.old s start r →
            Follows self.new s (at + 1) (with_byte s r at byte) }
        ensures said { (s : RecoveringSource) (r : Stretches) (start : ℕ) → start ≤ at → Stands s r →
            Answers s r at byte step → Follows self.old s start r →
            near_by s (with_byte s r at byte) ≡ near_by s r ++ said_in at result }
        ensures fits { AnswerFits result }
        ensures few { total_of self.new ≤ total_of self.old + 2 }
    {
        match step {
            Step::Fault(fault) => {
                self.begin(at, fault.half, byte);
                Answer::Sure(Step::Fault(fault))
            }
            Step::Locked {
                skipped,
                half,
                item,
            } => {
                self.is_reading = false;
                Answer::Sure(Step::Locked {
                    skipped,
                    half,
                    item,
                })
            }
            Step::Skipping => self.skip(at, byte),
            step => Answer::Sure(step),
        }
    }

    /// Ends: the source's list is cut here.
    pub fn cut(&mut self)
        ensures ends { (s : RecoveringSource) (r : Stretches) (at : ℕ) → Stands s r → Follows self.old s at r →
            Follows self.new s at (parted (reads_of s) from_fault r)
            × (near_by s (parted (reads_of s) from_fault r) ≡ near_by s r) }
        ensures few { total_of self.new ≤ total_of self.old }
    {
        self.is_reading = false;
    }
}
