//! The action over an account of a recovering report.

ghost use Rattle.std.specs.Prelude.{◌≡◌, ◌+◌, ◌≤◌, [], ℕ, List, length, IsTrue};
ghost use Rattle.recovery_listing.specs.Listing.{is_faulty};
ghost use Rattle.recovery_listing.specs.Recovering.{Stands, how_of};

use crate::account::{Account, NOTES_ROOM};
use recovery_engine::Recovery;
use trace_stream::{ACTION_ROOM, Action, OUTLET_ROOM, Outlet, Progress};

/// The reading of a capture that goes on after each fault, and an account of its report.
#[derive(Drop)]
pub struct Recovering<A> {
    pub(crate) engine: Recovery,
    pub(crate) account: A,
}

/// There is room for what a frame adds, and for what is noted of it.
fn may_go_on(outlet: &Outlet, notes: &Outlet) -> bool
    ensures room { IsTrue result → length outlet.now + ACTION_ROOM ≤ OUTLET_ROOM }
    ensures notes_room { IsTrue result → length notes.now + NOTES_ROOM ≤ OUTLET_ROOM }
    ensures both { length outlet.now + ACTION_ROOM ≤ OUTLET_ROOM → notes.now ≡ [] → IsTrue result }
{
    outlet.len() <= OUTLET_ROOM - ACTION_ROOM && notes.len() <= OUTLET_ROOM - NOTES_ROOM
}

impl<A: Account> Recovering<A> {
    /// The report of the bytes that were taken has a fault.
    pub fn is_faulty(&self) -> bool
        ensures { (seen : List ℕ) → Stands A.stands self.now seen → result ≡ is_faulty (how_of self.now).plan seen }
    {
        self.account.has_fault()
    }
}

impl<A: Account> Action for Recovering<A> {
    ghost use Rattle.recovery_engine.specs.Engine.{next_of};
    ghost use Rattle.recovery_listing.specs.Recovering.{Stands, how_of};

    type Plan = A::Asked;

    ghost plan = { λ s. A.asked s.account (how_of s) };

    ghost live = { λ s. A.live s.account (next_of s.engine) };

    ghost taken = { λ s. next_of s.engine };

    ghost stands = { λ s. Stands A.stands s };

    ghost debt = { λ s. A.debt s.account };

    ghost meaning = { A.meaning };

    ghost noted = { A.noted };

    ghost lawful = { A.lawful };

    #[inline]
    fn pour(&mut self, outlet: &mut Outlet) -> bool {
        self.account.pour(outlet)
    }

    /// Takes bytes while there is room for what a frame adds, and for what is noted of it.
    fn feed(&mut self, piece: &[u8], outlet: &mut Outlet, notes: &mut Outlet) -> Progress {
        let mut done = 0;
        while done < piece.len() && may_go_on(outlet, notes) {
            done += self
                .account
                .take(&mut self.engine, &piece[done..], outlet, notes);
        }
        Progress {
            bytes: done,
            is_faulty: false,
        }
    }

    fn finish(&mut self, outlet: &mut Outlet) {
        self.account.finish(&self.engine, outlet);
    }

    fn is_due(&self) -> bool {
        self.account.is_due()
    }
}
