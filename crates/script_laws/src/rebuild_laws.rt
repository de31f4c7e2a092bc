//! Laws of scripts and of the captures that they are rebuilt to, over the definitions alone.

ghost use Rattle.std.specs.Prelude.{◌≡◌, ℕ, List, [], true, Option};
ghost use Rattle.script_laws.specs.Names.{Plan, is_sound, Line2, LineFault, lines_in, script_of, routed_script};
ghost use Rattle.script_laws.specs.Names.{are_placed, RebuildPlan};
ghost use Rattle.script_laws.specs.Puts.{CanAllBePut};
ghost use Rattle.script_laws.specs.Reading.{AreLinesOf, EndsWith};
ghost use Rattle.script_laws.specs.ReadBack.{rebuilt, IsFair, ReadsAsGiven};

/// A script is read line by line up to its first fault: each line before it is what its text says after the lines
/// before that. Where there is no fault, every text of the script has its line; or else the fault is that of the text
/// after those lines, and has its number, from 1 on. No other lines and fault are so.
pub fn lines_law()
    ensures lines { (plan : Plan) (script : List ℕ) → AreLinesOf plan (lines_in script) (script_of plan script).lines }
    ensures fault { (plan : Plan) (script : List ℕ) →
        EndsWith plan (lines_in script) (script_of plan script).lines (script_of plan script).fault }
    ensures only { (plan : Plan) (script : List ℕ) (lines : List Line2) (fault : Option (ℕ × LineFault)) →
        AreLinesOf plan (lines_in script) lines → EndsWith plan (lines_in script) lines fault →
        script_of plan script ≡ record { lines = lines; fault = fault } }
{}

/// What the lines of a script are rebuilt to, or those before its first fault and its first line without a place, reads
/// back as exactly what they give each source, in whatever order the lines of the sources are, wherever they are
/// flushed, and straight or through a funnel: from the first byte on, with the same mapped sources and the same order
/// of nibbles.
pub fn rebuild_law()
    ensures { (p : RebuildPlan) (script : List ℕ) → is_sound p.plan ≡ true → IsFair p.funnel →
        ReadsAsGiven p.plan (routed_script p script).lines (rebuilt p (routed_script p script).lines) }
{}

/// So does what any lines are rebuilt to that can be put.
pub fn put_law()
    ensures { (p : RebuildPlan) (lines : List Line2) → is_sound p.plan ≡ true → IsFair p.funnel →
        CanAllBePut p.plan [] lines → are_placed p.funnel lines ≡ true → ReadsAsGiven p.plan lines (rebuilt p lines) }
{}
