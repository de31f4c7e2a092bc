//! Laws of scripts whose bytes pass through a funnel, over the definitions alone.

ghost use Rattle.std.specs.Prelude.{◌≡◌, ◌≤◌, ◌++◌, ℕ, List, None, true};
ghost use Rattle.script_laws.specs.Names.{Tagged, joined, to_funnel, all_passed, is_sound, are_of, bytes_for};
ghost use Rattle.script_laws.specs.Names.{are_apart, Turns, routed_script, text, ending, capture_of, script_of};
ghost use Rattle.script_laws.specs.Names.{RebuildPlan};
ghost use Rattle.script_laws.specs.ReadBack.{rebuilt, IsFair, ReadsAsGiven};

/// Of each source, what a funnel passes on of ended segments is what was in them, whole and in order.
pub fn passed_law()
    ensures { (t : Turns) (segments : List (List Tagged)) → 1 ≤ t.hold → are_apart t.order ≡ true →
        are_of t.order (to_funnel (joined segments)) ≡ true →
        (x : ℕ) → bytes_for x (to_funnel (joined (all_passed t segments))) ≡ bytes_for x (to_funnel (joined segments)) }
{}

/// Of a script in which no line has a fault, and each has a place in the order of the funnel, if there is one: what is
/// written at first and what comes after it are what all its lines are rebuilt to, and that reads back as exactly what
/// they give each source, from the first byte on, with the same mapped sources and the same order of nibbles.
pub fn funnelled_law()
    ensures whole { (p : RebuildPlan) (script : List ℕ) → p.halves ≤ 8 → (routed_script p script).fault ≡ None →
        text p script ++ ending p script ≡ capture_of p (script_of p.plan script).lines }
    ensures reads { (p : RebuildPlan) (script : List ℕ) → is_sound p.plan ≡ true → IsFair p.funnel →
        (routed_script p script).fault ≡ None →
        ReadsAsGiven p.plan (script_of p.plan script).lines (rebuilt p (script_of p.plan script).lines) }
{}
