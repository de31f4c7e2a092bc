//! The law of trace buffers.

ghost use Rattle.std.specs.Prelude.{◌≡◌, ◌<◌, ◌++◌, ℕ, List, length, drop};
ghost use Rattle.buffer_ring.specs.Image.{image, pointer, is_full, dropped, ordered};

/// The ordered bytes of what a buffer of n bytes keeps of a list are the list without as many of its first bytes as
/// were dropped: the last n bytes, or all of fewer.
pub fn ring_law()
    ensures last { (n : ℕ) (u : List ℕ) → 0 < n →
        ordered (image n u) (pointer n u) (is_full n u) ≡ drop (dropped n u) u }
    ensures whole { (n : ℕ) (u : List ℕ) → 0 < n → (lost : List ℕ) × (length lost ≡ dropped n u)
        × (u ≡ lost ++ ordered (image n u) (pointer n u) (is_full n u)) }
{}
