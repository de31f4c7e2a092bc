//! What reads a source's bytes one by one.

ghost use Rattle.std.specs.Prelude.{◌≡◌, ℕ, ◌+◌, ◌<◌, ◌≤◌, ◌++◌, ◌∷◌, [], List, Bool, true, false, None, is_none};
ghost use Rattle.std.specs.Prelude.{length};
ghost use Rattle.trace_values.specs.Placed.{Placed, byte_at};
ghost use Rattle.trace_values.specs.Stream.{Stream, Grows, HasRoom, Holds, Rises, Settled, Shows, Tells};

use crate::step::Step;

/// A machine that reads a list of bytes one by one, and keeps only what it needs of them.
///
/// It **stands for** a list of placed bytes if its kept parts are those that the reading of that list
/// has. Several lists may have the same kept parts, and no machine keeps its history, so each clause
/// holds for every list that the machine stood for before the call. The clauses say something only of a
/// machine that stands for some list: each constructor promises that its machine stands for the empty one.
///
/// A unit is a byte or a nibble.
pub trait Machine {
    /// What it reads: a packet.
    type Item;

    /// What a list of bytes reads as, in this machine's mode.
    ghost reading: { Self → List Placed → Stream Self.Item };

    /// Its kept parts are those of this list of bytes.
    ghost stands: { Self → List Placed → Type 0 };

    /// It has met no fault.
    ghost live: { Self → Bool };

    /// Its reading has begun.
    ghost locked: { Self → Bool };

    /// How many units of an unfinished item it holds.
    ghost held_units: { Self → ℕ };

    /// How many units are before its reading.
    ghost skipped_units: { Self → ℕ };

    /// How many units a byte has: 1 where they are bytes, 2 where they are nibbles.
    ghost units_per_byte: { Self → ℕ };

    /// The item's numbers are in their ranges.
    ghost fits: { Self.Item → Type 0 };

    /// Takes the next byte, which is at this offset of the capture. It has met no fault, and holds and
    /// skipped at most `COUNT_ROOM` units.
    fn feed(&mut self, at: u64, byte: u8) -> Step<Self::Item>
        requires live { live self.old ≡ true }
        requires room { HasRoom (held_units self.old) (skipped_units self.old) }
        ensures same { reading self.new ≡ reading self.old }
        ensures list { (u : List Placed) → stands self.old u → stands self.new (u ++ byte_at at byte ∷ []) }
        ensures step { (u : List Placed) → stands self.old u →
            Grows (reading self.old u) (reading self.old (u ++ byte_at at byte ∷ [])) at result }
        ensures tells { Tells (live self.new) (skipped_units self.new) fits result }
        ensures few { held_units self.new + skipped_units self.new ≤
            held_units self.old + skipped_units self.old + 2 };

    /// False exactly after a fault.
    fn is_live(&self) -> bool
        ensures { result ≡ live self.now };

    /// True from the start where the reading begins with the first unit, and else from the lock on, also
    /// after a fault.
    fn is_locked(&self) -> bool
        ensures { result ≡ locked self.now };

    /// How many units of an unfinished item it holds: 0 before the lock, and after a fault those before the
    /// fault's unit.
    fn held(&self) -> u64
        ensures { result ≡ held_units self.now };

    /// How many units are before the pattern that it hunted, also after a fault; before the lock, all units
    /// so far; 0 where the reading begins with the first unit.
    fn skipped(&self) -> u64
        ensures { result ≡ skipped_units self.now };

    /// What it shows is what the reading of its list has.
    ghost shows: { (m : Self) (u : List Placed) → stands m u →
        Shows (live m) (locked m) (held_units m) (skipped_units m) (length u) (reading m u) };

    /// Nothing is read of no bytes.
    ghost begins: { (m : Self) → ((reading m []).given ≡ []) × ((reading m []).fault ≡ None) };

    /// A fault is the end of a reading.
    ghost settles: { (m : Self) (u w : List Placed) → is_none (reading m u).fault ≡ false →
        Settled (reading m u) (reading m (u ++ w)) };

    /// With one more byte there is more, and what is more is at that byte.
    ghost rises: { (m : Self) (u : List Placed) (at byte : ℕ) →
        Rises (reading m u) (reading m (u ++ byte_at at byte ∷ [])) at };

    /// The byte of a fault, and each byte after it, gives nothing: the reading holds its units.
    ghost falls: { (m : Self) (u : List Placed) (at byte : ℕ) →
        is_none (reading m (u ++ byte_at at byte ∷ [])).fault ≡ false →
        Holds (units_per_byte m) (reading m u) (reading m (u ++ byte_at at byte ∷ [])) };

    /// After a fault it holds what the reading held before the fault's byte, and that byte's units before
    /// the fault's.
    ghost keeps: { (m : Self) (u : List Placed) (at byte : ℕ) → stands m (u ++ byte_at at byte ∷ []) →
        live m ≡ false → (reading m u).fault ≡ None →
        ((reading m u).held ≤ held_units m) × (held_units m < (reading m u).held + units_per_byte m) };
}
