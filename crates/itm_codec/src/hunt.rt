//! Bytes of a hunt in which its pattern does not end.

ghost use Rattle.std.specs.Prelude.{◌≡◌, ◌+◌, ◌≤◌, length, take};
ghost use Rattle.itm_codec.specs.Hunting.{Skips};

use trace_values::Pattern;

/// What a hunt skips of bytes at once.
#[derive(Clone, Copy, Drop)]
pub struct Skipped {
    /// How many bytes.
    pub bytes: usize,
    /// The length of the run at their end.
    pub run: u8,
}

/// The bytes up to the first with which this pattern ends, or all of them, after a run of this length.
#[inline]
pub fn skip_in(pattern: Pattern, run: u8, bytes: &[u8]) -> Skipped
    requires run { run ≤ pattern.most }
    ensures bytes { result.bytes ≤ length bytes.now }
    ensures skips { Skips pattern run (take result.bytes bytes.now) result.run }
    ensures few { (result.run ≤ pattern.most) × (result.run ≤ run + result.bytes) }
{
    let mut after = run;
    for (index, byte) in bytes.iter().enumerate() {
        if pattern.ends(after, *byte) {
            return Skipped {
                bytes: index,
                run: after,
            };
        }
        after = pattern.run_after(after, *byte);
    }
    Skipped {
        bytes: bytes.len(),
        run: after,
    }
}
