//! The law of texts in worked rows, over definitions alone.

ghost use Rattle.std.specs.Prelude.{◌≡◌, ◌<◌, ℕ, List};
ghost use Rattle.std.specs.List.{AllByRecursion};
ghost use Rattle.trace_values.specs.Hex.{hex, text_of};

/// The text of bytes, in pairs of upper-case digits with a blank between pairs, is read as these bytes; and a text that
/// is read as bytes is their text.
pub fn hex_law()
    ensures reads { (bytes : List ℕ) → AllByRecursion (λ b. b < 256) bytes → hex (text_of bytes) ≡ bytes }
    ensures refuses { (text : List ℕ) → AllByRecursion (λ b. b < 256) (hex text) → text ≡ text_of (hex text) }
{}
