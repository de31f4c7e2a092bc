//! Laws of the local time, of Gray code and of the last word, over their definitions alone.

ghost use Rattle.std.specs.Prelude.{◌≡◌, ℕ, ◌+◌, ◌%◌, ◌^◌, ◌<◌, List, [], ◌∷◌, ◌++◌, sum};
ghost use Rattle.std.specs.Int.{bit_at, sum_through};
ghost use Rattle.trace_clock.specs.GrayCode.{natural_of, gray_of};
ghost use Rattle.trace_clock.specs.LocalTime.{local_time};
ghost use Rattle.trace_clock.specs.LastWord.{SizedWord, WordFits, nibble_at, last_nibble, last_word, next_word};

/// The local time is the sum of what the timestamps told, where 64 bits hold that sum.
pub fn local_law()
    ensures { (deltas : List ℕ) → sum deltas < 2 ^ 64 → local_time deltas ≡ sum deltas }
{}

/// Of numbers under 2^64 there and back is the same number, both ways. Bit i of the natural number is the
/// parity of the Gray number's bits from i up, which is their sum modulo 2, and bit i of the Gray number is 1
/// where bits i and i + 1 of the natural one differ.
pub fn gray_law()
    ensures natural { (n : ℕ) → n < 2 ^ 64 → natural_of (gray_of n) ≡ n }
    ensures gray { (n : ℕ) → n < 2 ^ 64 → gray_of (natural_of n) ≡ n }
    ensures parity { (gray i : ℕ) → gray < 2 ^ 64 →
        bit_at (natural_of gray) i ≡ sum_through (λ j. bit_at gray (i + j)) 63 % 2 }
    ensures differ { (natural i : ℕ) → natural < 2 ^ 64 →
        bit_at (gray_of natural) i ≡ (bit_at natural i + bit_at natural (i + 1)) % 2 }
{}

/// The last word is 0 before the first timestamp, and each replaces the low nibbles that its word has. Nibble
/// k of the last word is that of the last timestamp whose word has more than k nibbles.
pub fn word_law()
    ensures none { last_word [] ≡ 0 }
    ensures more { (stamps : List SizedWord) (stamp : SizedWord) → WordFits stamp.size stamp.word →
        last_word (stamps ++ stamp ∷ []) ≡ next_word (last_word stamps) stamp }
    ensures nibble { (stamps : List SizedWord) (k : ℕ) → k < 16 →
        nibble_at (last_word stamps) k ≡ last_nibble stamps k }
    ensures bound { (stamps : List SizedWord) → last_word stamps < 2 ^ 64 }
{}
