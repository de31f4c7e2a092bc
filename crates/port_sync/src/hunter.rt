//! The hunt for a full synchronisation at any offset.

ghost use Rattle.std.specs.Prelude.{◌≡◌, ◌≤◌};

use trace_values::Pattern;

/// A full synchronisation, `FF FF FF 7F`.
const FULL_SYNC: Pattern = Pattern {
    unit: 0xFF,
    most: 3,
    last: 0x7F,
};

/// Looks for `FF FF FF 7F` in bytes that may begin anywhere.
#[derive(Drop)]
pub struct Hunter {
    /// How many FF end the bytes so far; more than three count as three.
    run: u8,
    ghost within: { run ≤ 3 },
}

impl Hunter {
    ghost use Rattle.std.specs.Prelude.{◌+◌, ◌++◌, ◌∷◌, [], List, ℕ, ◌↔◌, IsTrue, ◌==◌, ◌&&◌};
    ghost use Rattle.trace_values.specs.Hunt.{EndsWith};
    ghost use Rattle.trace_values.specs.Hunted.{pattern_of, run_after};
    ghost use Rattle.port_sync.specs.Hunting.{pattern, run_of, Stands};

    /// A hunter before the first byte.
    pub fn new() -> Hunter
        ensures run { run_of result ≡ 0 }
        ensures list { Stands result [] }
    {
        Hunter { run: 0 }
    }

    /// A hunter that has taken this many FF: a hunt may begin again at bytes that were read already.
    #[inline]
    pub fn after(run: u8) -> Hunter
        requires { run ≤ 3 }
        ensures { run_of result ≡ run }
    {
        Hunter { run }
    }

    /// Takes the next byte. True exactly where the last four bytes are `FF FF FF 7F`.
    #[inline]
    pub fn push(&mut self, byte: u8) -> bool
        ensures list { (u : List ℕ) → Stands self.old u → Stands self.new (u ++ byte ∷ []) }
        ensures found { (u : List ℕ) → Stands self.old u →
            IsTrue result ↔ EndsWith (pattern_of pattern) (u ++ byte ∷ []) }
        ensures run { run_of self.new ≡ run_after pattern (run_of self.old) byte }
        ensures ends { result ≡ (byte == pattern.last && run_of self.old == pattern.most) }
        ensures few { (run_of self.new ≤ 3) × (run_of self.new ≤ run_of self.old + 1) }
    {
        let found = FULL_SYNC.ends(self.run, byte);
        self.run = FULL_SYNC.run_after(self.run, byte);
        found
    }
}
