//! What is made of a recovering report as its events come.

ghost use Rattle.std.specs.Prelude.{◌≡◌, ◌<◌, ◌+◌, ◌≤◌, ◌++◌, [], ℕ, List, length, take};
ghost use Rattle.source_events.specs.declared.event.Event.{Event};
ghost use Rattle.source_events.specs.declared.packet.Packet.{Packet};
ghost use Rattle.source_events.specs.declared.plan.Plan.{Plan};
ghost use Rattle.stretch_readings.specs.declared.heard.Heard.{Heard};
ghost use Rattle.trace_io.specs.Bytes.{TakesSome};
ghost use Rattle.trace_stream.specs.Debt.{Debt, Paid, Pours, with_debt};
ghost use Rattle.trace_stream.specs.Served.{IsLawful, Meaning};
ghost use Rattle.trace_stream.specs.declared.limits.TheConstants.{GREATEST_CAPTURE};
ghost use Rattle.recovery_engine.specs.Engine.{next_of};
ghost use Rattle.recovery_listing.specs.Account.{GoesOn, HasRead, Pages, TakesOn, events_of, read_by};
ghost use Rattle.recovery_listing.specs.Listing.{is_faulty};
ghost use Rattle.recovery_listing.specs.declared.going_on.GoingOn.{GoingOn};

use recovery_engine::Recovery;
use trace_stream::{ACTION_ROOM, OUTLET_ROOM, Outlet, TEXT_ROOM};

/// Bytes of room for what is noted of a frame: a line for each of 30 events.
pub(crate) const NOTES_ROOM: usize = 30 * TEXT_ROOM;

/// What is made of a recovering report as its events come: what is written and noted of them, and what is written at
/// the end. `Recovering` makes an action of it.
///
/// It goes by what is read so far, and not by what was taken at once: so its laws are about bytes that were read, and
/// more of them.
pub trait Account {
    /// What is asked of a capture.
    type Asked;

    // what is asked, where the capture is read so
    ghost asked: { Self → GoingOn Plan → Self.Asked };
    // how the capture is read of which this is asked
    ghost capture: { Self.Asked → Plan };
    // it was given the events of these bytes, which were read so
    ghost stands: { Self → GoingOn Plan → List ℕ → Type 0 };
    // it may be given more after so many bytes
    ghost live: { Self → ℕ → Type 0 } = { λ account count. Unit {0} };
    // what it still owes of what is written
    ghost debt: { Self → Debt } = { λ account. Paid };
    // it was given these events, and what is written and noted grew
    ghost gets: { (Self × Pages) → List (Event (Heard Packet)) → (Self × Pages) → Type 0 };
    // what is written of the bytes of a capture
    ghost meaning: { Self.Asked → Meaning };
    // what is noted of them as they come
    ghost noted: { Self.Asked → List ℕ → List ℕ } = { λ asked seen. [] };

    /// The report of the bytes that were read has a fault.
    fn has_fault(&self) -> bool
        ensures { (how : GoingOn Plan) (seen : List ℕ) → stands self.now how seen → result ≡ is_faulty how.plan seen };

    /// Lets the engine take bytes from the front of a piece, and takes the events that they end. Answers how many. The
    /// piece has a byte, and there is room for what is noted of a frame.
    fn take(
        &mut self,
        engine: &mut Recovery,
        piece: &[u8],
        outlet: &mut Outlet,
        notes: &mut Outlet,
    ) -> usize
        requires live { live self.old (next_of engine.old) }
        requires paid { debt self.old ≡ Paid }
        requires piece { (0 < length piece.now) × (next_of engine.old + length piece.now ≤ GREATEST_CAPTURE) }
        requires room { length outlet.old + ACTION_ROOM ≤ OUTLET_ROOM }
        requires notes_room { length notes.old + NOTES_ROOM ≤ OUTLET_ROOM }
        ensures front { TakesSome piece.now result }
        ensures live { live self.new (next_of engine.new) }
        ensures paid { debt self.new ≡ Paid }
        ensures on { TakesOn gets (take result piece.now)
            (engine.old, (self.old, record { text = outlet.old; notes = notes.old }))
            (engine.new, (self.new, record { text = outlet.new; notes = notes.new })) };

    /// Puts what it owes, as far as there is room, and answers whether it owed anything.
    fn pour(&mut self, outlet: &mut Outlet) -> bool
        requires room { length outlet.old + ACTION_ROOM ≤ OUTLET_ROOM }
        ensures same { (how : GoingOn Plan) → asked self.new how ≡ asked self.old how }
        ensures live { (count : ℕ) → live self.old count → live self.new count }
        ensures stands { (how : GoingOn Plan) (seen : List ℕ) → stands self.old how seen → stands self.new how seen }
        ensures poured { Pours (debt self.old) (debt self.new) outlet.old outlet.new result };

    /// Puts what is written after the text into the outlet, which is empty, or owes it.
    fn finish(&mut self, engine: &Recovery, outlet: &mut Outlet)
        requires paid { debt self.old ≡ Paid }
        requires empty { outlet.old ≡ [] }
        ensures same { (how : GoingOn Plan) → asked self.new how ≡ asked self.old how }
        ensures stands { (how : GoingOn Plan) (seen : List ℕ) → stands self.old how seen → stands self.new how seen }
        ensures ended { (seen : List ℕ) → HasRead engine.now seen → stands self.old (read_by engine.now) seen →
            with_debt outlet.new (debt self.new) ≡ (meaning (asked self.old (read_by engine.now))).ending seen };

    /// Whether what comes after the text is written at a failed read and at the limit, too.
    fn is_due(&self) -> bool
        ensures { (how : GoingOn Plan) → result ≡ (meaning (asked self.now how)).due };

    // what a run asks of the meaning
    ghost lawful: { (asked : Self.Asked) → IsLawful (meaning asked) };
    // no fault ends it
    ghost sound: { (asked : Self.Asked) (bytes : List ℕ) → (meaning asked).faulty bytes → ⊥ };
    // it is asked of the capture that is read
    ghost captured: { (account : Self) (how : GoingOn Plan) → capture (asked account how) ≡ how.plan };
    // with more events it is asked the same
    ghost same: { (old new : Self × Pages) (given : List (Event (Heard Packet))) (how : GoingOn Plan) →
        gets old given new → asked new.0 how ≡ asked old.0 how };
    // with the events that further bytes add it stands for all of them, and what is written and noted grew by what they
    // add
    ghost goes_on: { (old new : Self × Pages) (given : List (Event (Heard Packet))) (how : GoingOn Plan)
        (seen front : List ℕ) → gets old given new → 0 < length front →
        events_of how (seen ++ front) ≡ events_of how seen ++ given → stands old.0 how seen →
        GoesOn (stands new.0 how) (meaning (asked old.0 how)) (noted (asked old.0 how)) seen front old.1 new.1 };
}
