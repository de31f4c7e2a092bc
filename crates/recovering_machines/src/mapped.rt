//! A mapped source: what reads its bytes for sure, and its guess.

ghost use Rattle.std.specs.Prelude.{◌≡◌, ◌+◌, ◌-◌, ◌*◌, ◌<◌, ◌≤◌, length, Some, true};
ghost use Rattle.source_events.specs.Fitting.{PacketFits};
ghost use Rattle.source_events.specs.Merge.{told};
ghost use Rattle.source_events.specs.Report.{lifted};
ghost use Rattle.trace_values.specs.Stream.{StepFits};
ghost use Rattle.trace_values.specs.declared.limits.TheConstants.{COUNT_ROOM};
ghost use Rattle.recovering_machines.specs.Guess.{AnswerFits, guessed_by, said_in};

use crate::guess::{Answer, Guess};
use crate::receiver::Receiver;
use crate::run::{event_at, give_step, take_one, take_within};
use crate::source::RecoveringSource;
use frame_runs::Run;
use source_events::{Packet, SourceKind, What};
use stp_grammar::packet::Order;
use stretch_readings::Heard;
use trace_values::{PacketsMode, SourceId, Step};

/// Reads the bytes of a mapped source, and says what they say: with guesses what it may have said in a hunt after a
/// fault, too.
///
/// It **stands for** the stretches of a list of units, as its source does. With guesses its guess follows them.
#[derive(Drop)]
pub struct MappedSource {
    sure: RecoveringSource,
    guess: Guess,
    /// Guesses are said.
    guesses: bool,
}

/// Gives what a guess says in the byte at this offset.
fn give_guess<V: Receiver>(id: SourceId, at: u64, step: Step<Packet>, out: &mut V, to: &mut V::To)
    requires fits { StepFits PacketFits step }
    requires room { 2 ≤ V.room (out.old, to.old) }
    ensures received { V.gets (out.old, to.old) (told (Some id) (lifted (guessed_by at step))) (out.new, to.new) }
    ensures room { V.room (out.old, to.old) ≤ V.room (out.new, to.new) + 2 }
{
    match step {
        Step::Quiet | Step::Skipping => {}
        Step::Item { half, item } | Step::Locked { half, item, .. } => {
            out.give(
                to,
                event_at(id, at, half, What::Packet(Heard::Guessed(item))),
            );
        }
        Step::Fault(fault) => {
            let what = What::Packet(Heard::Misread(fault.reason));
            out.give(to, event_at(id, at, fault.half, what));
        }
    }
}

/// Gives what a source says in the byte at this offset.
fn give_answer<V: Receiver>(id: SourceId, at: u64, answer: Answer, out: &mut V, to: &mut V::To)
    requires fits { AnswerFits answer }
    requires room { 2 ≤ V.room (out.old, to.old) }
    ensures received { V.gets (out.old, to.old) (told (Some id) (lifted (said_in at answer))) (out.new, to.new) }
    ensures room { V.room (out.old, to.old) ≤ V.room (out.new, to.new) + 2 }
{
    match answer {
        Answer::Sure(step) => give_step(id, at, step, out, to),
        Answer::Guessed(step) => give_guess(id, at, step, out, to),
    }
}

impl MappedSource {
    ghost use Rattle.std.specs.Prelude.{ℕ, ◌&&◌, ◌^◌};
    ghost use Rattle.trace_values.specs.ReadingModes.{packets_hunt};
    ghost use Rattle.source_machine.specs.Units.{reads_by};
    ghost use Rattle.stretch_readings.specs.Stretches.{Stretches, before, from_fault};
    ghost use Rattle.recovering_machines.specs.Mapped.{Guesses, IsCut, Stands, TakesMapped, guesses_of, heard_by};
    ghost use Rattle.recovering_machines.specs.Mapped.{kind_of, reads_of, total_of};
    ghost use Rattle.recovering_machines.specs.Run.{between};

    /// That of a source of this kind before its first byte. The order is that of the nibbles of an STP source's
    /// numbers.
    pub fn new(kind: SourceKind, packets: PacketsMode, order: Order, guesses: bool) -> MappedSource
        ensures kind { kind_of result ≡ kind }
        ensures reads { reads_of result ≡ reads_by order kind }
        ensures guesses { guesses_of result ≡ guesses }
        ensures fresh { Stands result (before (reads_of result) from_fault (packets_hunt packets)) }
        ensures guess { (at : ℕ) → Guesses result at (before (reads_of result) from_fault (packets_hunt packets)) }
        ensures few { total_of result ≤ 0 }
    {
        MappedSource {
            sure: RecoveringSource::new(kind, packets, order),
            guess: Guess::new(kind, order),
            guesses,
        }
    }

    /// Takes a run of this source, and gives its events: at most two for each byte.
    pub fn take_run<R: Run, V: Receiver>(
        &mut self,
        id: SourceId,
        run: &R,
        out: &mut V,
        to: &mut V::To,
    )
        requires few { total_of self.old + 6 * length (R.cells run.now) ≤ COUNT_ROOM }
        requires room { 2 * length (R.cells run.now) ≤ V.room (out.old, to.old) }
        ensures { TakesMapped V.gets V.room id (R.cells run.now) self.old self.new
            (out.old, to.old) (out.new, to.new) }
    {
        let mut done = 0;
        while done < run.len() {
            done = self.take_part(id, run, done, out, to);
        }
    }

    /// Takes the packets of a run that are found from this index on, and then bytes of which none was. Answers the
    /// index after them.
    fn take_part<R: Run, V: Receiver>(
        &mut self,
        id: SourceId,
        run: &R,
        from: usize,
        out: &mut V,
        to: &mut V::To,
    ) -> usize
        requires from { from < length (R.cells run.now) }
        requires few { total_of self.old + 6 * (length (R.cells run.now) - from) ≤ COUNT_ROOM }
        requires room { 2 * (length (R.cells run.now) - from) ≤ V.room (out.old, to.old) }
        ensures within { (from < result) × (result ≤ length (R.cells run.now)) }
        ensures takes { TakesMapped V.gets V.room id (between from result (R.cells run.now)) self.old self.new
            (out.old, to.old) (out.new, to.new) }
    {
        let found = self.take_found(id, run, from, out, to);
        if found < run.len() {
            return self.take_others(id, run, found, out, to);
        }
        found
    }

    /// It says what its guess reads on.
    #[inline]
    fn is_guessing(&self) -> bool
        ensures { result ≡ (guesses_of self.now && self.now.guess.is_reading) }
    {
        self.guesses && self.guess.is_reading()
    }

    /// Takes packets of a run that are found from this index on, where nothing is read on. Answers the index after
    /// them.
    #[inline(always)]
    fn take_found<R: Run, V: Receiver>(
        &mut self,
        id: SourceId,
        run: &R,
        from: usize,
        out: &mut V,
        to: &mut V::To,
    ) -> usize
        requires from { from ≤ length (R.cells run.now) }
        requires room { 2 * (length (R.cells run.now) - from) ≤ V.room (out.old, to.old) }
        ensures within { (from ≤ result) × (result ≤ length (R.cells run.now)) }
        ensures takes { TakesMapped V.gets V.room id (between from result (R.cells run.now)) self.old self.new
            (out.old, to.old) (out.new, to.new) }
    {
        if self.is_guessing() {
            return from;
        }
        self.sure.take_packets(id, run, from, out, to)
    }

    /// Takes bytes of a run from this index on within the unfinished packet, where nothing is read on. Answers the
    /// index after them: this index where nothing is known of the bytes.
    #[inline(always)]
    fn take_within<R: Run, V: Receiver>(
        &mut self,
        id: SourceId,
        run: &R,
        from: usize,
        out: &mut V,
        to: &mut V::To,
    ) -> usize
        requires from { from < length (R.cells run.now) }
        requires few { total_of self.old + 6 * (length (R.cells run.now) - from) ≤ COUNT_ROOM }
        requires room { 2 * (length (R.cells run.now) - from) ≤ V.room (out.old, to.old) }
        ensures within { (from ≤ result) × (result ≤ length (R.cells run.now)) }
        ensures takes { TakesMapped V.gets V.room id (between from result (R.cells run.now)) self.old self.new
            (out.old, to.old) (out.new, to.new) }
    {
        if self.is_guessing() {
            return from;
        }
        take_within(&mut self.sure, id, run, from, out, to)
    }

    /// Takes bytes of a run from this index on, of which no packet was found. Answers the index after them.
    #[inline(never)]
    fn take_others<R: Run, V: Receiver>(
        &mut self,
        id: SourceId,
        run: &R,
        from: usize,
        out: &mut V,
        to: &mut V::To,
    ) -> usize
        requires from { from < length (R.cells run.now) }
        requires fits { from + 1 < 2 ^ 64 }
        requires few { total_of self.old + 6 * (length (R.cells run.now) - from) ≤ COUNT_ROOM }
        requires room { 2 * (length (R.cells run.now) - from) ≤ V.room (out.old, to.old) }
        ensures within { (from < result) × (result ≤ length (R.cells run.now)) }
        ensures takes { TakesMapped V.gets V.room id (between from result (R.cells run.now)) self.old self.new
            (out.old, to.old) (out.new, to.new) }
    {
        let done = self.take_within(id, run, from, out, to);
        if done > from {
            return done;
        }
        self.take_byte(id, run, from, out, to);
        from + 1
    }

    /// Takes the byte of a run at this index.
    fn take_byte<R: Run, V: Receiver>(
        &mut self,
        id: SourceId,
        run: &R,
        index: usize,
        out: &mut V,
        to: &mut V::To,
    )
        requires index { index < length (R.cells run.now) }
        requires few { total_of self.old ≤ COUNT_ROOM }
        requires room { 2 ≤ V.room (out.old, to.old) }
        ensures { TakesMapped V.gets V.room id (between index (index + 1) (R.cells run.now)) self.old self.new
            (out.old, to.old) (out.new, to.new) }
    {
        if !self.guesses {
            take_one(&mut self.sure, id, run, index, out, to);
            return;
        }
        let cell = run.cell(index);
        let step = self.sure.feed(cell.at, cell.byte);
        let answer = self.guess.follow(cell.at, cell.byte, step);
        give_answer(id, cell.at, answer, out, to);
    }

    /// Cuts the source's list here: what comes is hunted anew with a count of 0, what is held is skipped, and nothing
    /// more is guessed.
    pub fn cut(&mut self)
        requires room { total_of self.old ≤ COUNT_ROOM }
        ensures cut { IsCut self.old self.new }
        ensures few { total_of self.new ≤ total_of self.old }
    {
        self.sure.cut();
        self.guess.cut();
    }

    /// The present stretch hunts: the first one where it was made to hunt, and each further one.
    pub fn hunts(&self) -> bool
        ensures { (r : Stretches) → Stands self.now r → result ≡ r.now.hunts }
    {
        self.sure.hunts()
    }

    /// False in a hunt: before the first lock, where it was made to hunt, and from a fault or a cut to the next lock.
    pub fn is_locked(&self) -> bool
        ensures { (r : Stretches) → Stands self.now r → result ≡ (heard_by self.now r).locked }
    {
        self.sure.is_locked()
    }

    /// How many units of the unfinished packet it holds; 0 in a hunt.
    pub fn held(&self) -> u64
        ensures { (r : Stretches) → Stands self.now r → result ≡ (heard_by self.now r).held }
    {
        self.sure.held()
    }

    /// How many units all stretches so far skipped, as its source tells.
    pub fn skipped(&self) -> u64
        requires room { total_of self.now ≤ COUNT_ROOM }
        ensures { (r : Stretches) → Stands self.now r → result ≡ (heard_by self.now r).skipped }
    {
        self.sure.skipped()
    }
}
