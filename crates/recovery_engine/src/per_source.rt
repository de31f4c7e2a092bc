//! A number for each source.

ghost use Rattle.std.specs.Prelude.{◌≡◌, ◌≤◌, ◌+◌, ℕ};
ghost use Rattle.trace_values.specs.declared.limits.TheConstants.{COUNT_ROOM};

use trace_values::{ID_COUNT, SourceId};

/// A number for each source.
#[derive(Debug, Drop)]
pub struct PerSource {
    numbers: [u64; ID_COUNT],
}

impl PerSource {
    ghost use Rattle.std.specs.Prelude.{if◌then◌else◌, ◌==◌};
    ghost use Rattle.recovery_engine.specs.PerSource.{number_of, total_of};

    /// 0 for each.
    pub fn new() -> PerSource
        ensures none { (id : ℕ) → id ≤ 126 → number_of result id ≡ 0 }
        ensures total { total_of result ≡ 0 }
    {
        PerSource {
            numbers: [0; ID_COUNT],
        }
    }

    /// The number of a source.
    pub fn of(&self, id: SourceId) -> u64
        ensures value { result ≡ number_of self.now id }
        ensures few { result ≤ total_of self.now }
    {
        self.numbers[usize::from(id.number())]
    }

    /// Adds to the number of a source. The sum of all is at most 2^60 with it.
    #[inline(always)]
    pub fn add(&mut self, id: SourceId, more: u64)
        requires { total_of self.old + more ≤ COUNT_ROOM }
        ensures numbers { (k : ℕ) → number_of self.new k ≡ number_of self.old k + (if k == id then more else 0) }
        ensures total { total_of self.new ≡ total_of self.old + more }
    {
        let number: &mut u64 = &mut self.numbers[usize::from(id.number())];
        *number += more;
    }
}
