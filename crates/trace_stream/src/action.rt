//! What is done to the bytes of a capture as they come.

ghost use Rattle.std.specs.Prelude.{◌≡◌, ℕ, ◌+◌, ◌<◌, ◌≤◌, List, [], ◌++◌, length, take, false};
ghost use Rattle.trace_io.specs.Bytes.{TakesSome};
ghost use Rattle.trace_stream.specs.Debt.{Debt, Paid, with_debt, Pours};
ghost use Rattle.trace_stream.specs.Served.{Meaning, IsLawful};
ghost use Rattle.trace_stream.specs.Taken.{HasTaken, Turn};
ghost use Rattle.trace_stream.specs.declared.limits.TheConstants.{GREATEST_CAPTURE};

use crate::outlet::{OUTLET_ROOM, Outlet};

/// Bytes of room in the outlet before each call of an action.
pub const ACTION_ROOM: usize = 4096;

/// How far the reading of a piece got.
#[derive(Clone, Copy)]
pub struct Progress {
    /// How many of the piece's first bytes were taken.
    pub bytes: usize,
    /// Whether the reading has a fault, certain with the last of them.
    pub is_faulty: bool,
}

/// What is done to the bytes of a capture as they come: each byte may add to the text that is written,
/// and the first fault ends the reading.
///
/// `plan` is what stays the same during a run, and `meaning` says by it what the bytes mean; `stands` ties the action's
/// state to the bytes that it took. What is written for them may be longer than one call can put: the rest is the
/// action's `debt`, which `pour` puts.
pub trait Action {
    type Plan;

    // what stays the same during a run
    ghost plan: { Self → Self.Plan };
    // it may be fed
    ghost live: { Self → Type 0 } = { λ action. Unit {0} };
    // how many bytes it took
    ghost taken: { Self → ℕ };
    // it took these bytes
    ghost stands: { Self → List ℕ → Type 0 };
    // what it still owes of what is written for them
    ghost debt: { Self → Debt } = { λ action. Paid };
    // what it makes of the bytes of a capture
    ghost meaning: { Self.Plan → Meaning };
    // what is noted of them as they come, beside what is written
    ghost noted: { Self.Plan → List ℕ → List ℕ } = { λ plan seen. [] };

    /// Puts what it owes, as far as there is room, and answers whether it owed anything.
    fn pour(&mut self, outlet: &mut Outlet) -> bool
        requires room { length outlet.old + ACTION_ROOM ≤ OUTLET_ROOM }
        ensures same { plan self.new ≡ plan self.old }
        ensures count { taken self.new ≡ taken self.old }
        ensures live { live self.old → live self.new }
        ensures stands { (seen : List ℕ) → stands self.old seen → stands self.new seen }
        ensures poured { Pours (debt self.old) (debt self.new) outlet.old outlet.new result };

    /// Takes a front of the piece and puts its text into the outlet, or owes it. It goes no further than the byte that
    /// makes a fault certain. Where it stops before that is its own affair, and only its speed depends on it:
    /// the run calls it again with the rest, and what is written is the same.
    ///
    /// What is to be noted of the front it puts into `notes`, which is empty.
    fn feed(&mut self, piece: &[u8], outlet: &mut Outlet, notes: &mut Outlet) -> Progress
        requires live { live self.old }
        requires idle { (debt self.old ≡ Paid) × (notes.old ≡ []) }
        requires piece { (0 < length piece.now) × (taken self.old + length piece.now ≤ GREATEST_CAPTURE) }
        requires room { length outlet.old + ACTION_ROOM ≤ OUTLET_ROOM }
        ensures same { plan self.new ≡ plan self.old }
        ensures front { TakesSome piece.now result.bytes × (taken self.new ≡ taken self.old + result.bytes) }
        ensures fed { (seen : List ℕ) → stands self.old seen →
            let front = take result.bytes piece.now in
            let after = with_debt outlet.new (debt self.new) in
            let turn : Turn = record { seen = seen; front = front; before = outlet.old; after = after } in
            HasTaken (stands self.new) (meaning (plan self.old)) turn result.is_faulty }
        ensures noted { (seen : List ℕ) → stands self.old seen →
            noted (plan self.old) (seen ++ take result.bytes piece.now) ≡ noted (plan self.old) seen ++ notes.new }
        ensures live { result.is_faulty ≡ false → live self.new };

    /// Puts what is written after the text into the outlet, which is empty, or owes it.
    fn finish(&mut self, outlet: &mut Outlet)
        requires paid { debt self.old ≡ Paid }
        requires empty { outlet.old ≡ [] }
        ensures same { plan self.new ≡ plan self.old }
        ensures stands { (seen : List ℕ) → stands self.old seen → stands self.new seen }
        ensures ended { (seen : List ℕ) → stands self.old seen →
            with_debt outlet.new (debt self.new) ≡ (meaning (plan self.old)).ending seen };

    /// Whether what comes after the text is written at a failed read and at the limit, too.
    fn is_due(&self) -> bool
        ensures { result ≡ (meaning (plan self.now)).due };

    // what a run asks of the meaning
    ghost lawful: { (p : Self.Plan) → IsLawful (meaning p) };
}
