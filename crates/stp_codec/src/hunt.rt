//! Bytes of a hunt in which its pattern does not end.

ghost use Rattle.std.specs.Prelude.{◌≡◌, ◌+◌, ◌*◌, ◌/◌, ◌%◌, ◌≤◌, ◌++◌, ◌∷◌, [], List, length, take, true, IfSome};
ghost use Rattle.std.specs.Prelude.{None};
ghost use Rattle.stp_codec.specs.Names.{Placed, units_of, Passes, COUNT_ROOM};
ghost use Rattle.stp_codec.specs.Reading.{items_in, pattern};
ghost use Rattle.stp_codec.specs.Wholes.{nibbles_in};
ghost use Rattle.stp_codec.specs.Hunting.{Skips};
ghost use Rattle.stp_codec.specs.Decoder.{Idles, Stands, Stays, held_of, is_hunter, is_live, order_of, skipped_by};

use crate::decoder::StpDecoder;
use crate::nibbles::ASYNC;
use trace_values::Mode;

/// What a hunt skips of bytes at once.
#[derive(Clone, Copy, Drop)]
struct Skipped {
    /// How many bytes.
    bytes: usize,
    /// The length of the run at their end.
    run: u8,
}

/// The length of the run after both nibbles of this byte, where it was `run` before. None where an ASYNC ends in it.
#[inline(always)]
fn run_over(run: u8, byte: u8) -> Option<u8>
    requires run { run ≤ pattern.most }
    ensures skips { IfSome result (λ after. Skips run (byte % 16 ∷ (byte / 16 % 16 ∷ [])) after) }
    ensures few { IfSome result (λ after. (after ≤ pattern.most) × (after ≤ run + 2)) }
{
    let high = byte / 16;
    if high < ASYNC.unit && run + 1 < ASYNC.most {
        return Some(0);
    }
    let low = byte % 16;
    let between = ASYNC.run_after(run, low);
    if ASYNC.ends(run, low) || ASYNC.ends(between, high) {
        return None;
    }
    Some(ASYNC.run_after(between, high))
}

/// The bytes up to the first in which an ASYNC ends, or all of them, after a run of this length.
#[inline]
fn skip_in(run: u8, bytes: &[u8]) -> Skipped
    requires run { run ≤ pattern.most }
    ensures bytes { result.bytes ≤ length bytes.now }
    ensures skips { Skips run (nibbles_in (take result.bytes bytes.now)) result.run }
    ensures few { (result.run ≤ pattern.most) × (result.run ≤ run + 2 * result.bytes) }
{
    let mut after = run;
    for (index, byte) in bytes.iter().enumerate() {
        match run_over(after, *byte) {
            Some(next) => after = next,
            None => {
                return Skipped {
                    bytes: index,
                    run: after,
                };
            }
        }
    }
    Skipped {
        bytes: bytes.len(),
        run: after,
    }
}

impl StpDecoder {
    /// Takes these bytes in a hunt, wherever they are, up to the first in which its pattern ends, or all of them.
    /// Answers how many it took. They give nothing.
    #[inline(never)]
    pub fn skip_part(&mut self, bytes: &[u8]) -> usize
        requires live { is_live self.old ≡ true }
        requires room { skipped_by self.old + 2 * length bytes.now ≤ COUNT_ROOM }
        ensures stays { Stays self.old self.new }
        ensures bytes { result ≤ length bytes.now }
        ensures passes { (u front : List Placed) (last : Placed) → Stands self.old u →
            units_of (front ++ last ∷ []) ≡ take result bytes.now →
            Passes (items_in (order_of self.old) (is_hunter self.old)) (Stands self.new) u front last None }
        ensures none { result ≡ 0 → Idles self.old self.new }
        ensures few { held_of self.new + skipped_by self.new ≤ held_of self.old + skipped_by self.old + 2 * result }
    {
        if let Mode::Hunting { run, skipped } = self.mode {
            let skip = skip_in(run, bytes);
            self.mode = Mode::Hunting {
                run: skip.run,
                skipped: skipped + 2 * skip.bytes as u64,
            };
            return skip.bytes;
        }
        0
    }
}
