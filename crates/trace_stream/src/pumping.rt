//! The reading of an input to its end, a fault or the limit.

ghost use Rattle.std.specs.Prelude.{◌≡◌, ◌≢◌, ℕ, ◌+◌, ◌<◌, ◌≤◌, List, [], length};
ghost use Rattle.std.specs.Io.{ReadsAtMost};
ghost use Rattle.std.specs.Io.KnownBytes.{ReadConsumes};
ghost use Rattle.trace_io.specs.Causes.{HasCause, CountsEmpty};
ghost use Rattle.trace_stream.specs.Debt.{Paid};
ghost use Rattle.trace_stream.specs.Fresh.{IsFresh};
ghost use Rattle.trace_stream.specs.BuffersState.{BuffersState};
ghost use Rattle.trace_stream.specs.Pumped.{HasPumped, HasCauses, counts};
ghost use Rattle.trace_stream.specs.Served.{Ends};
ghost use Rattle.trace_stream.specs.Told.{HasTold, told};
ghost use Rattle.trace_stream.specs.declared.limits.TheConstants.{GREATEST_CAPTURE};

use crate::action::Action;
use crate::feeding::feed_piece;
use crate::outcome::Outcome;
use crate::outlet::Outlet;
use crate::recent::Recent;
use trace_io::{Failed, Sink, Source};

/// Reads the next bytes. This may wait for them, so nothing may be pending: the text of all bytes so
/// far is out by then.
fn read_next<I: Source>(input: &mut I, buffer: &mut [u8], _outlet: &Outlet) -> Result<usize, Failed>
    requires some { 0 < length buffer.old }
    requires pending { _outlet.now ≡ [] }
    ensures bound { ReadsAtMost result buffer.new }
    ensures bytes { ReadConsumes (I.left input.old) (I.left input.new) result buffer.new }
    ensures cause { HasCause (I.faults input.old) (I.faults input.new) result }
    ensures empty { CountsEmpty result (I.empty_reads input.old) (I.empty_reads input.new) }
{
    input.read(buffer)
}

/// Reads the input to its end, a fault or the limit, and writes the text of what was read. Where a fault
/// was found its text may still be pending. The ring keeps the last of the bytes that were fed. What is to be noted of
/// bytes is noted before more are read.
pub fn pump<A: Action, I: Source, O: Sink, N: Sink>(
    action: &mut A,
    buffer: &mut [u8],
    outlet: &mut Outlet,
    recent: &mut Recent,
    limit: u64,
    input: &mut I,
    output: &mut O,
    lines: &mut Outlet,
    notes: &mut N,
) -> Outcome
    requires fresh { let buffers : BuffersState = record { pending = outlet.old; recent = recent.old } in
        IsFresh (A.live action.old) (A.stands action.old) (A.taken action.old) (A.debt action.old)
        (A.noted (A.plan action.old) []) buffers }
    requires silent { lines.old ≡ [] }
    requires some { 0 < length buffer.old }
    requires small { limit ≤ GREATEST_CAPTURE }
    ensures same { A.plan action.new ≡ A.plan action.old }
    ensures paid { result ≢ Outcome.WriteFailed → A.debt action.new ≡ Paid }
    ensures pumped { let before : Ends = record { left = I.left input.old; held = O.held output.old } in
        let after : Ends = record { left = I.left input.new; held = O.held output.new } in
        let buffers : BuffersState = record { pending = outlet.new; recent = recent.new } in
        let first = told (N.held notes.old) (N.faults notes.old) in
        let last = told (N.held notes.new) (N.faults notes.new) in
        HasPumped (HasTold (A.stands action.new) (A.noted (A.plan action.old)) first last)
        (A.meaning (A.plan action.old)) limit before after buffers result }
    ensures silent { lines.new ≡ [] }
    ensures causes { let before = counts (I.empty_reads input.old) (I.faults input.old) (O.faults output.old) in
        let after = counts (I.empty_reads input.new) (I.faults input.new) (O.faults output.new) in
        HasCauses before after result }
{
    let mut count = 0;
    loop {
        let room = limit - count;
        // One byte more than the limit shows whether the input goes on.
        let want = buffer.len().min(room as usize + 1);
        let got = match read_next(input, &mut buffer[..want], outlet) {
            Ok(got) => got,
            Err(_) => return Outcome::ReadFailed,
        };
        if got == 0 {
            return Outcome::AtEnd;
        }
        let taken = got.min(room as usize);
        let fed = match feed_piece(action, outlet, output, lines, notes, &buffer[..taken]) {
            Ok(fed) => fed,
            Err(_) => return Outcome::WriteFailed,
        };
        recent.keep(&buffer[..fed.bytes]);
        if fed.is_faulty {
            return Outcome::FaultFound;
        }
        if taken < got {
            return Outcome::OverLimit;
        }
        count += got as u64;
    }
}
