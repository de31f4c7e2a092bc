//! The local time, which local timestamp packets tell (ARMv7-M Architecture Reference Manual, Arm DDI 0403E, appendix
//! D4 'Debug ITM and DWT Packet Protocol', section D4.2 'Packet descriptions', 'Local timestamp packets').

ghost use Rattle.std.specs.Prelude.{ℕ};

use std::marker::Model;

/// The local time: the ticks of all local timestamps so far. Contracts see it as that number.
#[derive(Clone, Copy, Debug, Drop)]
pub struct LocalClock {
    ticks: u64,
}

impl Model for LocalClock {
    ghost Value = { ℕ };

    ghost view = { λ clock. clock.ticks };

    ghost inverse = { λ ticks. record { ticks = ticks } };
}

impl LocalClock {
    ghost use Rattle.std.specs.Prelude.{◌≡◌, ◌+◌, ◌^◌, ◌%◌, List, [], ◌∷◌, ◌++◌};
    ghost use Rattle.trace_clock.specs.LocalTime.{local_time};

    /// The time before the first timestamp, 0.
    pub fn new() -> LocalClock
        ensures { result ≡ local_time [] }
    {
        LocalClock { ticks: 0 }
    }

    /// Takes the next timestamp's time since the one before, in ticks, and answers the time. It counts in 64 bits, and
    /// goes on from 0 after its greatest time.
    #[inline]
    pub fn add(&mut self, delta: u32) -> u64
        ensures sum { self.new ≡ (self.old + delta) % 2 ^ 64 }
        ensures list { (deltas : List ℕ) → self.old ≡ local_time deltas →
            self.new ≡ local_time (deltas ++ delta ∷ []) }
        ensures time { (deltas : List ℕ) → self.old ≡ local_time deltas →
            result ≡ local_time (deltas ++ delta ∷ []) }
    {
        self.ticks = self.ticks.wrapping_add(u64::from(delta));
        self.ticks
    }
}
