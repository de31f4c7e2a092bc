//! Laws of numbers in words, over their definitions alone.

ghost use Rattle.std.specs.Prelude.{◌≡◌, ◌≤◌, ◌<◌, ◌^◌, ◌↔◌, ℕ, List, Some, decimal};
ghost use Rattle.decimal_words.specs.Numbers.{number_named};

/// A text names exactly the number within the bounds whose decimal it is.
pub fn number_law()
    ensures { (least greatest n : ℕ) (text : List ℕ) → greatest < 2 ^ 64 →
        ((number_named least greatest text ≡ Some n) ↔ ((least ≤ n) × (n ≤ greatest) × (text ≡ decimal n))) }
{}
