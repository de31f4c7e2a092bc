//! Laws of scripts and of what they are rebuilt to, over their definitions alone.

ghost use Rattle.std.specs.Prelude.{◌≡◌, ◌≤◌, ◌++◌, ◌∷◌, [], ℕ, List, None, Some};
ghost use Rattle.script_rebuild.specs.Names.{Order, items_in, Plan, joined, now_ended, LineFault, Line2};
ghost use Rattle.script_rebuild.specs.Script.{given_items, given_puts};
ghost use Rattle.script_rebuild.specs.Segments.{with_line, line_bytes, segments_of};
ghost use Rattle.script_rebuild.specs.Versions.{lines_in, script_of};
ghost use Rattle.script_rebuild.specs.declared.plan.RebuildPlan.{RebuildPlan};
ghost use Rattle.script_rebuild.specs.Rebuilt.{routed_so_far, routed_script, IsFaulty, text, ending, capture_of};
ghost use Rattle.script_rebuild.specs.Rebuilt.{IsFirstFault};

/// What is written for a script without a fault, the text and what comes after it, is its lines' segments as the port
/// writes them.
pub fn capture_law()
    ensures { (p : RebuildPlan) (bytes : List ℕ) → p.halves ≤ 8 → (routed_script p bytes).fault ≡ None →
        text p bytes ++ ending p bytes ≡ capture_of p (script_of p.plan bytes).lines }
{}

/// The fault of a script is that of its first line with one. Once it is certain, or a line has no place, it is the
/// script's, whatever follows.
pub fn fault_law()
    ensures first { (plan : Plan) (bytes : List ℕ) (number : ℕ) (fault : LineFault) →
        (script_of plan bytes).fault ≡ Some (number, fault) → IsFirstFault plan (lines_in bytes) number fault }
    ensures certain { (p : RebuildPlan) (bytes more : List ℕ) → IsFaulty p bytes →
        routed_script p (bytes ++ more) ≡ routed_so_far p bytes }
{}

/// A line more is put after all others. The segments joined are the bytes that the lines put, in order. The items that
/// are put for a source are those that the lines give it.
pub fn segments_law()
    ensures more { (order : Order) (ids : List ℕ) (lines : List Line2) (line : Line2) →
        segments_of order ids (lines ++ line ∷ []) ≡ with_line order ids lines (segments_of order ids lines) line }
    ensures joined { (order : Order) (ids : List ℕ) (lines : List Line2) (line : Line2) →
        joined (now_ended (segments_of order ids (lines ++ line ∷ []))) ≡
        joined (now_ended (segments_of order ids lines)) ++ line_bytes order ids lines line }
    ensures items { (x : ℕ) (lines : List Line2) → items_in (given_puts x lines) ≡ given_items x lines }
{}
