//! Readings of a capture that may go on after a fault.

ghost use Rattle.std.specs.Prelude.{◌≡◌, ◌≤◌, ◌<◌, [], Bool, IfOk, true};
ghost use Rattle.std.specs.Option.{ForSome};
ghost use Rattle.capture_words.specs.Values.{guesses_of};
ghost use Rattle.source_events.specs.Plan.{is_sound};
ghost use Rattle.trace_stream.specs.Pumped.{counts};
ghost use Rattle.trace_stream.specs.declared.limits.TheConstants.{GREATEST_CAPTURE};
ghost use Rattle.capture_run.specs.Actions.{IsNew, checking, going_on, stopping_or_going};
ghost use Rattle.capture_run.specs.Run.{HasRun, IsCaused, TaskMeaning, streams, task_of};

use crate::actions::CommandAction;
use crate::jobs::run_action;
use crate::status::Status;
use capture_actions::{Check, KindCheck, ListPlan, PortText, PortTextPlan, Show};
use capture_words::Recover;
use recovery_listing::{
    GoingOn, RecoveringCheck, RecoveringKinds, RecoveringShow, RecoveringText, RecoveringVcd,
};
use source_events::Plan;
use std::alloc::{AllocError, Global};
use trace_io::{Sink, Source};
use trace_stream::Buffers;
use value_dump::{Vcd, VcdPlan};

/// What is asked of a capture that is read up to its first fault, or goes on after each fault.
pub trait Reading {
    /// What reads up to the first fault.
    type Strict: CommandAction<Plan = Self> + Drop;

    /// What goes on.
    type Going: CommandAction<Plan = GoingOn<Self>> + Drop;

    // what may be asked
    ghost fit: { Self → Type 0 };

    /// What reads up to the first fault, and has read nothing.
    fn strict(self) -> Self::Strict
        requires fit { fit self }
        ensures plan { Self.Strict.plan result ≡ self }
        ensures new { IsNew (Self.Strict.live result) (Self.Strict.stands result) (Self.Strict.taken result)
            (Self.Strict.debt result) (Self.Strict.noted (Self.Strict.plan result) []) };

    /// What goes on, with guesses or without, and has read nothing, if there is memory for it.
    fn going(self, alloc: Global, guesses: bool) -> Result<Self::Going, AllocError>
        requires fit { fit self }
        ensures plan { IfOk result (λ a. Self.Going.plan a ≡ going_on self guesses) }
        ensures new { IfOk result (λ a. IsNew (Self.Going.live a) (Self.Going.stands a) (Self.Going.taken a)
            (Self.Going.debt a) (Self.Going.noted (Self.Going.plan a) [])) };
}

/// Reads the input, and notes how that ended.
pub fn run_reading<R: Reading, I: Source, O: Sink, N: Sink>(
    reading: R,
    alloc: Global,
    buffers: &mut Buffers,
    recover: Recover,
    limit: u64,
    input: &mut I,
    output: &mut O,
    notes: &mut N,
) -> Status
    requires empty { (buffers.old.pending ≡ []) × (buffers.old.recent ≡ []) }
    requires fit { R.fit reading }
    requires small { limit ≤ GREATEST_CAPTURE }
    ensures ran { let on : Bool → GoingOn R = going_on reading in
        let stopping : TaskMeaning =
        task_of (R.Strict.meaning reading) (R.Strict.noted reading) (R.Strict.notes reading) in
        let going : Bool → TaskMeaning =
        (λ g. task_of (R.Going.meaning (on g)) (R.Going.noted (on g)) (R.Going.notes (on g))) in
        let before = streams (I.left input.old) (O.held output.old) (N.held notes.old) (N.faults notes.old) in
        let after = streams (I.left input.new) (O.held output.new) (N.held notes.new) (N.faults notes.new) in
        HasRun (stopping_or_going (guesses_of recover) stopping going) limit before after result }
    ensures caused { let before = counts (I.empty_reads input.old) (I.faults input.old) (O.faults output.old) in
        let after = counts (I.empty_reads input.new) (I.faults input.new) (O.faults output.new) in
        IsCaused before after result }
{
    match recover.guesses() {
        None => run_action(buffers, Ok(reading.strict()), limit, input, output, notes),
        Some(guesses) => {
            let opened = reading.going(alloc, guesses);
            run_action(buffers, opened, limit, input, output, notes)
        }
    }
}

/// The listing of a capture.
impl Reading for ListPlan {
    type Strict = Show;

    type Going = RecoveringShow;

    ghost fit = { λ p. is_sound p.plan ≡ true };

    fn strict(self) -> Show {
        Show::new(self)
    }

    fn going(self, _alloc: Global, guesses: bool) -> Result<RecoveringShow, AllocError> {
        let plan = self;
        Ok(RecoveringShow::new(GoingOn { plan, guesses }))
    }
}

/// What software wrote to a stimulus port. Where it goes on the faults are notes.
impl Reading for PortTextPlan {
    type Strict = PortText;

    type Going = RecoveringText;

    ghost fit = { λ p. is_sound p.plan ≡ true };

    fn strict(self) -> PortText {
        PortText::new(self)
    }

    fn going(self, alloc: Global, guesses: bool) -> Result<RecoveringText, AllocError> {
        let plan = self;
        RecoveringText::open(alloc, GoingOn { plan, guesses })
    }
}

/// A value dump. Where it goes on the faults are notes.
impl Reading for VcdPlan {
    type Strict = Vcd;

    type Going = RecoveringVcd;

    ghost fit = { λ p. (is_sound p.plan ≡ true) × ForSome p.hz (λ n. 0 < n) };

    fn strict(self) -> Vcd {
        Vcd::new(self)
    }

    fn going(self, alloc: Global, guesses: bool) -> Result<RecoveringVcd, AllocError> {
        let plan = self;
        RecoveringVcd::open(alloc, GoingOn { plan, guesses })
    }
}

/// Counts what a capture has: the items of each source, and those of each kind or not.
pub fn run_check<I: Source, O: Sink, N: Sink>(
    plan: Plan,
    kinds: bool,
    buffers: &mut Buffers,
    recover: Recover,
    limit: u64,
    input: &mut I,
    output: &mut O,
    notes: &mut N,
) -> Status
    requires empty { (buffers.old.pending ≡ []) × (buffers.old.recent ≡ []) }
    requires sound { is_sound plan ≡ true }
    requires small { limit ≤ GREATEST_CAPTURE }
    ensures ran { let m = checking (guesses_of recover) kinds plan in
        let before = streams (I.left input.old) (O.held output.old) (N.held notes.old) (N.faults notes.old) in
        let after = streams (I.left input.new) (O.held output.new) (N.held notes.new) (N.faults notes.new) in
        HasRun m limit before after result }
    ensures caused { let before = counts (I.empty_reads input.old) (I.faults input.old) (O.faults output.old) in
        let after = counts (I.empty_reads input.new) (I.faults input.new) (O.faults output.new) in
        IsCaused before after result }
{
    match (recover.guesses(), kinds) {
        (None, false) => {
            let opened = Ok(Check::new(plan));
            run_action(buffers, opened, limit, input, output, notes)
        }
        (None, true) => {
            let opened = Ok(KindCheck::new(plan));
            run_action(buffers, opened, limit, input, output, notes)
        }
        (Some(_), false) => {
            let opened = Ok(RecoveringCheck::new(plan));
            run_action(buffers, opened, limit, input, output, notes)
        }
        (Some(_), true) => {
            let opened = Ok(RecoveringKinds::new(plan));
            run_action(buffers, opened, limit, input, output, notes)
        }
    }
}
