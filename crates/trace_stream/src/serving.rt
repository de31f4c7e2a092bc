//! A whole run.

ghost use Rattle.std.specs.Prelude.{◌≡◌, ◌≢◌, ℕ, ◌+◌, ◌<◌, ◌≤◌, List, [], ◌++◌, length, OnOk, OnErr, true};
ghost use Rattle.std.specs.declared.option.Option.{Option};
ghost use Rattle.std.specs.Io.KnownBytes.{Appends};
ghost use Rattle.trace_io.specs.Bytes.{TakesFront, AppendsPrefix};
ghost use Rattle.trace_io.specs.Causes.{HasCause};
ghost use Rattle.trace_stream.specs.Debt.{Paid};
ghost use Rattle.trace_stream.specs.Fresh.{IsFresh};
ghost use Rattle.trace_stream.specs.Pumped.{HasCauses, counts};
ghost use Rattle.trace_stream.specs.Served.{Ends, HasServed, text_at_stop};
ghost use Rattle.trace_stream.specs.Told.{HasTold, told};
ghost use Rattle.trace_stream.specs.declared.limits.TheConstants.{GREATEST_CAPTURE};

use crate::action::Action;
use crate::buffers::Buffers;
use crate::feeding::pour_all;
use crate::outcome::Outcome;
use crate::outlet::Outlet;
use crate::pumping::pump;
use trace_io::{Failed, Sink, Source};

// Writes what is pending, and then what comes after the text.
fn finish<A: Action, O: Sink>(
    action: &mut A,
    outlet: &mut Outlet,
    output: &mut O,
) -> Result<(), Failed>
    requires paid { A.debt action.old ≡ Paid }
    ensures same { A.plan action.new ≡ A.plan action.old }
    ensures stands { (seen : List ℕ) → A.stands action.old seen → A.stands action.new seen }
    ensures ok { (start : Option (List ℕ)) (seen : List ℕ) (p : A.Plan) →
        A.plan action.old ≡ p → A.stands action.old seen →
        TakesFront start (O.held output.old) ((A.meaning p).text seen) outlet.old →
        OnOk result (Appends start (O.held output.new) ((A.meaning p).text seen ++ (A.meaning p).ending seen)) }
    ensures emptied { OnOk result (outlet.new ≡ []) }
    ensures err { (start : Option (List ℕ)) (seen : List ℕ) (p : A.Plan) →
        A.plan action.old ≡ p → A.stands action.old seen →
        TakesFront start (O.held output.old) ((A.meaning p).text seen) outlet.old →
        OnErr result (AppendsPrefix start (O.held output.new) ((A.meaning p).text seen ++ (A.meaning p).ending seen)) }
    ensures cause { HasCause (O.faults output.old) (O.faults output.new) result }
{
    outlet.flush(output)?;
    action.finish(outlet);
    pour_all(action, outlet, output)?;
    outlet.flush(output)
}

/// Ends a run that a failed read or the limit stops, where nothing is pending: writes what comes after the text if that
/// is due.
fn finish_if_due<A: Action, O: Sink>(
    action: &mut A,
    outlet: &mut Outlet,
    output: &mut O,
) -> Result<(), Failed>
    requires paid { A.debt action.old ≡ Paid }
    requires emptied { outlet.old ≡ [] }
    ensures same { A.plan action.new ≡ A.plan action.old }
    ensures stands { (seen : List ℕ) → A.stands action.old seen → A.stands action.new seen }
    ensures ok { (start : Option (List ℕ)) (seen : List ℕ) (p : A.Plan) →
        A.plan action.old ≡ p → A.stands action.old seen →
        TakesFront start (O.held output.old) ((A.meaning p).text seen) outlet.old →
        OnOk result (Appends start (O.held output.new) (text_at_stop (A.meaning p) seen)) }
    ensures emptied { OnOk result (outlet.new ≡ []) }
    ensures err { (start : Option (List ℕ)) (seen : List ℕ) (p : A.Plan) →
        A.plan action.old ≡ p → A.stands action.old seen →
        TakesFront start (O.held output.old) ((A.meaning p).text seen) outlet.old →
        OnErr result (((A.meaning p).due ≡ true)
        × AppendsPrefix start (O.held output.new) ((A.meaning p).text seen ++ (A.meaning p).ending seen)) }
    ensures cause { HasCause (O.faults output.old) (O.faults output.new) result }
{
    if action.is_due() {
        finish(action, outlet, output)
    } else {
        Ok(())
    }
}

/// Serves the input by the action, from its first byte to its end, a fault or the limit of `limit`
/// bytes, and writes what the action writes for it. It reads at most `limit` + 1 bytes, and not again once
/// a read gave none.
///
/// Before each read of the input all text so far is written, and all is noted that is to be. At a fault the recent
/// bytes of the buffers are the last up to the one at which it became certain. Notes that fail change nothing else.
pub fn serve<A: Action, I: Source, O: Sink, N: Sink>(
    buffers: &mut Buffers,
    action: &mut A,
    limit: u64,
    input: &mut I,
    output: &mut O,
    notes: &mut N,
) -> Outcome
    requires fresh { IsFresh (A.live action.old) (A.stands action.old) (A.taken action.old) (A.debt action.old)
        (A.noted (A.plan action.old) []) buffers.old }
    requires small { limit ≤ GREATEST_CAPTURE }
    ensures served { let before : Ends = record { left = I.left input.old; held = O.held output.old } in
        let after : Ends = record { left = I.left input.new; held = O.held output.new } in
        let first = told (N.held notes.old) (N.faults notes.old) in
        let last = told (N.held notes.new) (N.faults notes.new) in
        HasServed (HasTold (A.stands action.new) (A.noted (A.plan action.old)) first last)
        (A.meaning (A.plan action.old)) limit before after buffers.new.recent result }
    ensures same { A.plan action.new ≡ A.plan action.old }
    ensures written { result ≢ Outcome.WriteFailed → buffers.new.pending ≡ [] }
    ensures causes { let before = counts (I.empty_reads input.old) (I.faults input.old) (O.faults output.old) in
        let after = counts (I.empty_reads input.new) (I.faults input.new) (O.faults output.new) in
        HasCauses before after result }
{
    let Buffers {
        input: buffer,
        outlet,
        recent,
        lines,
    } = buffers;
    match pump(
        action, buffer, outlet, recent, limit, input, output, lines, notes,
    ) {
        Outcome::AtEnd => match finish(action, outlet, output) {
            Ok(()) => Outcome::AtEnd,
            Err(_) => Outcome::WriteFailed,
        },
        Outcome::FaultFound => match finish(action, outlet, output) {
            Ok(()) => Outcome::FaultFound,
            Err(_) => Outcome::WriteFailed,
        },
        Outcome::ReadFailed => match finish_if_due(action, outlet, output) {
            Ok(()) => Outcome::ReadFailed,
            Err(_) => Outcome::WriteFailed,
        },
        Outcome::OverLimit => match finish_if_due(action, outlet, output) {
            Ok(()) => Outcome::OverLimit,
            Err(_) => Outcome::WriteFailed,
        },
        Outcome::WriteFailed => Outcome::WriteFailed,
    }
}
