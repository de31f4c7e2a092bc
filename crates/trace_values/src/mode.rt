//! Where a decoder is in its hunt.

ghost use Rattle.std.specs.Prelude.{◌≡◌};
ghost use Rattle.trace_values.specs.Moded.{is_locked, skipped_of};

/// Where a decoder is. What it hunts is a run of one unit, and then another unit.
#[derive(Clone, Copy, Debug, Drop)]
pub enum Mode {
    /// It reads from the first unit on.
    Aligned,
    /// It hunts. This many units came, and they end in a run of the pattern's first unit, which counts no
    /// further than the pattern has it.
    Hunting { run: u8, skipped: u64 },
    /// It reads from the pattern on, after this many units.
    Locked { skipped: u64 },
}

impl Mode {
    /// It reads: its hunt is over, or it had none.
    #[inline]
    pub fn is_locked(self) -> bool
        ensures { result ≡ is_locked self }
    {
        match self {
            Mode::Hunting { .. } => false,
            Mode::Aligned | Mode::Locked { .. } => true,
        }
    }

    /// How many units are before its reading; in a hunt, all units so far.
    #[inline]
    pub fn skipped(self) -> u64
        ensures { result ≡ skipped_of self }
    {
        match self {
            Mode::Aligned => 0,
            Mode::Hunting { skipped, .. } | Mode::Locked { skipped } => skipped,
        }
    }
}
