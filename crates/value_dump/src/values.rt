//! What is kept of the values of signals.

ghost use Rattle.std.specs.Prelude.{◌≡◌, ◌+◌, ◌*◌, ◌≤◌, ◌<◌, ◌++◌, ◌∷◌, [], ℕ, None, Some, length, is_some};
ghost use Rattle.std.specs.Prelude.{◌||◌, List};
ghost use Rattle.std.specs.Int.{bit_at};
ghost use Rattle.value_dump.specs.Dump.{change, changes, known};
ghost use Rattle.value_dump.specs.Signals.{last_told, value_after};
ghost use Rattle.value_dump.specs.Lines.{are_some, line_of, lines_with, timed};
ghost use Rattle.value_dump.specs.Names.{Overflow, OUTLET_ROOM};
ghost use Rattle.value_dump.specs.Telling.{toggled, value_next};
ghost use Rattle.value_dump.specs.declared.signals.TheConstants.{SIGNALS};
ghost use Rattle.value_dump.specs.declared.values.TheConstants.{ALL_ROOM, LINE_ROOM, TIME_ROOM};

use crate::lines::put_line;
use crate::signals::{LOST, SIGNALS};
use trace_stream::Outlet;

/// The most bytes of the line of a value.
pub const LINE_ROOM: usize = 36;

/// The most bytes of the line of a time.
pub const TIME_ROOM: usize = 41;

/// The most bytes of the lines of all signals.
pub const ALL_ROOM: usize = LINE_ROOM * SIGNALS;

/// The value of each signal, and that which it had at the last local timestamp.
#[derive(Drop)]
pub struct SignalValues {
    latest: [Option<u32>; SIGNALS],
    stamped: [Option<u32>; SIGNALS],
    /// A bit for each signal that was told since then: no other one changed.
    told: u64,
    /// The lines of the signals that changed have at most this many bytes.
    owed: usize,
    ghost few: { owed ≤ ALL_ROOM },
    ghost quiet: { (number : ℕ) → bit_at told number ≡ 0 → known latest number ≡ known stamped number },
    ghost covered: { length (changes (known stamped) (known latest)) ≤ owed },
}

/// The value of a signal that had the first of these and has the second, if it changed.
fn changed_value(old: Option<u32>, new: Option<u32>) -> Option<u32>
    ensures { (number : ℕ) → change number old new ≡ line_of number result }
{
    match (old, new) {
        (Some(old), Some(new)) if old == new => None,
        _ => new,
    }
}

/// The other value of a bit.
fn toggled(value: Option<u32>) -> u32
    ensures { Some result ≡ toggled value }
{
    match value {
        None | Some(0) => 1,
        Some(_) => 0,
    }
}

impl SignalValues {
    ghost use Rattle.value_dump.specs.Values.{latest_of, owed_by, stamped_of};

    /// No packet came yet: nothing was lost, and no other value is known.
    pub fn new() -> SignalValues
        ensures latest { (number : ℕ) → latest_of result number ≡ value_after [] number }
        ensures stamped { (number : ℕ) → stamped_of result number ≡ value_after [] number }
        ensures owed { owed_by result ≡ 0 }
    {
        let mut values = [None; SIGNALS];
        values[LOST] = Some(0);
        SignalValues {
            latest: values,
            stamped: values,
            told: 0,
            owed: 0,
        }
    }

    /// How many bytes the lines of the signals that changed have at most.
    #[inline]
    pub fn owed(&self) -> usize
        ensures { result ≡ owed_by self.now }
    {
        self.owed
    }

    /// The signal has this value from now on.
    pub fn set(&mut self, number: usize, value: u32)
        requires { number < SIGNALS }
        ensures latest { (other : ℕ) →
            latest_of self.new other ≡ last_told other (latest_of self.old other) ((number, value) ∷ []) }
        ensures stamped { self.new.stamped ≡ self.old.stamped }
        ensures owed { owed_by self.new ≤ owed_by self.old + LINE_ROOM }
    {
        self.latest[number] = Some(value);
        self.told |= 1 << number;
        self.owed = (self.owed + LINE_ROOM).min(ALL_ROOM);
    }

    /// Packets were lost: the signal of losses has another value than at the last local timestamp.
    pub fn lose(&mut self)
        ensures latest { (number : ℕ) → latest_of self.new number ≡
            value_next Overflow number (stamped_of self.old number) (latest_of self.old number) }
        ensures stamped { self.new.stamped ≡ self.old.stamped }
        ensures owed { owed_by self.new ≤ owed_by self.old + LINE_ROOM }
    {
        self.set(LOST, toggled(self.stamped[LOST]));
    }

    /// A local timestamp is here: no signal changed since.
    pub fn settle(&mut self)
        ensures latest { self.new.latest ≡ self.old.latest }
        ensures stamped { self.new.stamped ≡ self.old.latest }
        ensures owed { owed_by self.new ≡ 0 }
    {
        self.stamped = self.latest;
        self.told = 0;
        self.owed = 0;
    }

    /// The first signal from this one on that was told since the last local timestamp, or how many signals there are.
    /// Those passed over did not change.
    fn next_told(&self, first: usize) -> usize
        requires { first ≤ SIGNALS }
        ensures within { (first ≤ result) × (result ≤ SIGNALS) }
        ensures quiet { (number : ℕ) → first ≤ number → number < result →
            latest_of self.now number ≡ stamped_of self.now number }
    {
        let rest = self.told >> first;
        if rest == 0 {
            return SIGNALS;
        }
        (first + rest.trailing_zeros() as usize).min(SIGNALS)
    }

    /// Puts the line of this signal if it changed, and before it that of the time if it was not put; answers whether
    /// it is now.
    fn put_change(&self, outlet: &mut Outlet, number: usize, time: u128, is_timed: bool) -> bool
        requires signal { number < SIGNALS }
        requires room { let line = change number (stamped_of self.now number) (latest_of self.now number) in
            length outlet.old + length (lines_with is_timed time line) ≤ OUTLET_ROOM }
        ensures text { let line = change number (stamped_of self.now number) (latest_of self.now number) in
            outlet.new ≡ outlet.old ++ lines_with is_timed time line }
        ensures timed { result ≡
            (is_timed || are_some (change number (stamped_of self.now number) (latest_of self.now number))) }
    {
        match changed_value(self.stamped[number], self.latest[number]) {
            None => is_timed,
            Some(value) => {
                put_line(outlet, number, value, time, is_timed);
                true
            }
        }
    }

    /// Puts the lines of the signals that changed since the last local timestamp, and before them that of the time, if
    /// there are any.
    pub fn put_changes(&self, outlet: &mut Outlet, time: u128)
        requires room { length outlet.old + (TIME_ROOM + owed_by self.now) ≤ OUTLET_ROOM }
        ensures text { outlet.new ≡ outlet.old ++ timed time (changes (stamped_of self.now) (latest_of self.now)) }
        ensures bound { length outlet.new ≤ length outlet.old + (TIME_ROOM + owed_by self.now) }
    {
        let mut is_timed = false;
        let mut number = self.next_told(0);
        while number < SIGNALS {
            is_timed = self.put_change(outlet, number, time, is_timed);
            let after = self.next_told(number + 1);
            number = after;
        }
    }
}
