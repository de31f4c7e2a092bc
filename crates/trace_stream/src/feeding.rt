//! The feeding of a piece to an action.

ghost use Rattle.std.specs.Prelude.{◌≡◌, ℕ, ◌+◌, ◌≤◌, List, [], length, OnOk, OnErr, IfOk, false};
ghost use Rattle.std.specs.declared.option.Option.{Option};
ghost use Rattle.trace_io.specs.Bytes.{AppendsPrefix, TakesFront};
ghost use Rattle.trace_io.specs.Causes.{HasCause};
ghost use Rattle.trace_stream.specs.Debt.{Paid, with_debt};
ghost use Rattle.trace_stream.specs.Fed.{Writing, StandsAfter, HasFed, IsFed};
ghost use Rattle.trace_stream.specs.Told.{HasTold, Noted, told};
ghost use Rattle.trace_stream.specs.declared.limits.TheConstants.{GREATEST_CAPTURE};

use crate::action::{ACTION_ROOM, Action, Progress};
use crate::outlet::{OUTLET_ROOM, Outlet};
use trace_io::{Failed, Sink};

/// Writes what is pending where the outlet has less room than an action may need.
#[inline]
pub fn make_room<O: Sink>(outlet: &mut Outlet, output: &mut O) -> Result<(), Failed>
    ensures ok { OnOk result (TakesFront (O.held output.old) (O.held output.new) outlet.old outlet.new) }
    ensures room { OnOk result (length outlet.new + ACTION_ROOM ≤ OUTLET_ROOM) }
    ensures err { OnErr result (AppendsPrefix (O.held output.old) (O.held output.new) outlet.old) }
    ensures cause { HasCause (O.faults output.old) (O.faults output.new) result }
{
    if OUTLET_ROOM - outlet.len() < ACTION_ROOM {
        outlet.flush(output)
    } else {
        Ok(())
    }
}

/// Puts all that the action owes. What is pending is written only where the outlet has less room than an action may
/// need, as it then has.
#[inline]
pub fn pour_all<A: Action, O: Sink>(
    action: &mut A,
    outlet: &mut Outlet,
    output: &mut O,
) -> Result<(), Failed>
    ensures same { A.plan action.new ≡ A.plan action.old }
    ensures count { A.taken action.new ≡ A.taken action.old }
    ensures live { A.live action.old → A.live action.new }
    ensures stands { (seen : List ℕ) → A.stands action.old seen → A.stands action.new seen }
    ensures paid { OnOk result (A.debt action.new ≡ Paid) }
    ensures ok { let pending = with_debt outlet.old (A.debt action.old) in
        OnOk result (TakesFront (O.held output.old) (O.held output.new) pending outlet.new) }
    ensures room { OnOk result (length outlet.new + ACTION_ROOM ≤ OUTLET_ROOM) }
    ensures err { let pending = with_debt outlet.old (A.debt action.old) in
        OnErr result (AppendsPrefix (O.held output.old) (O.held output.new) pending) }
    ensures cause { HasCause (O.faults output.old) (O.faults output.new) result }
{
    loop {
        make_room(outlet, output)?;
        if !action.pour(outlet) {
            return Ok(());
        }
    }
}

/// Feeds a piece to the action, up to a fault, and writes all its text and its notes. The outlet is written before only
/// where its room runs short, and the notes at each call. At a fault the last of the text is left pending, since more
/// is to come after it; but nothing is owed.
pub fn feed_piece<A: Action, O: Sink, N: Sink>(
    action: &mut A,
    outlet: &mut Outlet,
    output: &mut O,
    lines: &mut Outlet,
    notes: &mut N,
    piece: &[u8],
) -> Result<Progress, Failed>
    requires live { A.live action.old }
    requires idle { (A.debt action.old ≡ Paid) × (lines.old ≡ []) }
    requires count { A.taken action.old + length piece.now ≤ GREATEST_CAPTURE }
    ensures same { A.plan action.new ≡ A.plan action.old }
    ensures paid { OnOk result (A.debt action.new ≡ Paid) }
    ensures taken { let before = A.taken action.old in
        IfOk result (IsFed (A.live action.new) before (A.taken action.new) (length piece.now) outlet.new) }
    ensures silent { lines.new ≡ [] }
    ensures fed { (start : Option (List ℕ)) (first : Noted) (seen : List ℕ) (p : A.Plan) → A.plan action.old ≡ p →
        let was = HasTold (A.stands action.old) (A.noted p) first (told (N.held notes.old) (N.faults notes.old)) in
        let now = HasTold (A.stands action.new) (A.noted p) first (told (N.held notes.new) (N.faults notes.new)) in
        let before : Writing = record { start = start; held = O.held output.old; pending = outlet.old } in
        let after : Writing = record { start = start; held = O.held output.new; pending = outlet.new } in
        StandsAfter was (A.meaning p) before false seen → HasFed now (A.meaning p) after seen piece.now result }
    ensures cause { HasCause (O.faults output.old) (O.faults output.new) result }
{
    make_room(outlet, output)?;
    let mut rest = piece;
    while !rest.is_empty() {
        let taken = action.feed(rest, outlet, lines);
        lines.note(notes);
        pour_all(action, outlet, output)?;
        if taken.is_faulty {
            return Ok(Progress {
                bytes: piece.len() - rest.len() + taken.bytes,
                is_faulty: true,
            });
        }
        rest = &rest[taken.bytes..];
    }
    outlet.flush(output)?;
    Ok(Progress {
        bytes: piece.len(),
        is_faulty: false,
    })
}
