//! The pairs of a frame at which its runs end.

ghost use Rattle.std.specs.Prelude.{◌<◌};

use crate::named::named;
use frame_grammar::frame::FRAME_BYTES;

/// The pairs of a frame at which a run ends, from the first on: those that name a source, and the last one in any case.
#[derive(Clone, Copy, Drop)]
pub struct RunEnds {
    /// Bit `k` for the pair whose bytes are at `2 * k` and `2 * k + 1`.
    bits: u64,
    ghost few: { bits < 256 },
}

impl RunEnds {
    ghost use Rattle.std.specs.Prelude.{◌≡◌, List, [], ◌∷◌, Option, None, IfSome};
    ghost use Rattle.frame_runs.specs.Pairs.{ends_from, ends_left};

    /// Those of this frame.
    #[inline(always)]
    pub fn of(frame: &[u8; FRAME_BYTES]) -> RunEnds
        ensures { ends_left result ≡ ends_from frame.now 0 }
    {
        RunEnds {
            bits: named(frame) % 128 + 128,
        }
    }

    /// The next one, which is then passed.
    #[inline(always)]
    pub fn next(&mut self) -> Option<usize>
        ensures none { result ≡ None → ends_left self.old ≡ [] }
        ensures some { IfSome result (λ k. ends_left self.old ≡ k ∷ ends_left self.new) }
    {
        if self.bits == 0 {
            return None;
        }
        let pair = self.bits.trailing_zeros();
        self.bits &= self.bits - 1;
        Some(pair as usize)
    }
}
