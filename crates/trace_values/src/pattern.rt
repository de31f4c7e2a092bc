//! The pattern that a hunt is for: a run of one unit, and then another unit.

ghost use Rattle.std.specs.Prelude.{◌≡◌, ◌≢◌, ◌≤◌, ◌+◌, ◌==◌, ◌&&◌, ◌++◌, ◌∷◌, [], List, ℕ, ◌↔◌, IsTrue};
ghost use Rattle.trace_values.specs.Hunt.{EndsWith, EndsInRun};
ghost use Rattle.trace_values.specs.Hunted.{pattern_of, run_after};

/// A pattern of units: a run of one unit, and then another unit.
///
/// A hunt for it keeps one number: the length of the run at the end of the units so far.
#[derive(Clone, Copy, Drop)]
pub struct Pattern {
    /// The unit of the run.
    pub unit: u8,
    /// How many of them the run has. A longer run counts as one of this length.
    pub most: u8,
    /// The unit after the run, which is another one.
    pub last: u8,
}

impl Pattern {
    /// The length of the run after one more unit, where it was `run` before, which is at most `most`.
    #[inline]
    pub fn run_after(self, run: u8, unit: u8) -> u8
        requires { run ≤ self.most }
        ensures value { result ≡ run_after self run unit }
        ensures list { (u : List ℕ) → self.unit ≢ self.last → EndsInRun self.unit self.most run u →
            EndsInRun self.unit self.most result (u ++ unit ∷ []) }
        ensures few { (result ≤ self.most) × (result ≤ run + 1) }
    {
        if unit != self.unit {
            0
        } else if run < self.most {
            run + 1
        } else {
            self.most
        }
    }

    /// Whether the pattern ends with this unit, after a run of this length.
    #[inline]
    pub fn ends(self, run: u8, unit: u8) -> bool
        ensures value { result ≡ (unit == self.last && run == self.most) }
        ensures list { (u : List ℕ) → self.unit ≢ self.last → EndsInRun self.unit self.most run u →
            IsTrue result ↔ EndsWith (pattern_of self) (u ++ unit ∷ []) }
    {
        unit == self.last && run == self.most
    }
}
