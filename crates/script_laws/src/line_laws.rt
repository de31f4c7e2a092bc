//! Laws of lines, over their definitions alone.

ghost use Rattle.std.specs.Prelude.{◌≡◌, ◌≤◌, ◌<◌, ◌↔◌, ◌∷◌, ◌++◌, [], ℕ, List, length, decimal, map, codes, Ok};
ghost use Rattle.hex.specs.Hex.{encode_lower};
ghost use Rattle.script_laws.specs.Names.{Plan, kind_of, Item, Line, Of, One, Trigger, line_of, taken_by, line2_of};
ghost use Rattle.script_laws.specs.Names.{text_of, IsSayable};
ghost use Rattle.script_laws.specs.Lowered.{lowered};

/// The text that the listing has of an item, after the decimal of an ID and a space, is a line: it says this item of
/// this source where the source is one for it, and else has the fault of that. It is never too long.
pub fn text_law()
    ensures short { (id : ℕ) (item : Item) → id ≤ 126 → IsSayable item →
        length (decimal id ++ (32 ∷ text_of item)) ≤ 208 }
    ensures reads { (plan : Plan) (id : ℕ) (item : Item) → 1 ≤ id → id ≤ 126 → IsSayable item →
        line_of plan (decimal id ++ (32 ∷ text_of item)) ≡ taken_by (kind_of plan id) id item }
{}

/// No other line says an item: with its hexadecimal digits in lower case a line is the decimal of its ID, a space and
/// its item's text.
pub fn line_law()
    ensures { (plan : Plan) (line : List ℕ) (id : ℕ) (item : Item) → line_of plan line ≡ Ok (Of id item) →
        map lowered line ≡ decimal id ++ (32 ∷ text_of item) }
{}

/// The text that the listing has of a byte of the trigger source, after its ID and a space, is a line of version 2, and
/// says that trigger. No other line says one, but for the case of its digits. The other lines of version 2, without
/// `flush`, are those of version 1, and say the same.
pub fn trigger_law()
    ensures reads { (plan : Plan) (byte : ℕ) → byte < 256 →
        line2_of plan (codes "125 trigger " ++ encode_lower (byte ∷ [])) ≡ Ok (Trigger byte) }
    ensures only { (plan : Plan) (line : List ℕ) (byte : ℕ) → line2_of plan line ≡ Ok (Trigger byte) →
        map lowered line ≡ codes "125 trigger " ++ encode_lower (byte ∷ []) }
    ensures one { (plan : Plan) (line : List ℕ) (said : Line) →
        (line2_of plan line ≡ Ok (One said)) ↔ (line_of plan line ≡ Ok said) }
{}
