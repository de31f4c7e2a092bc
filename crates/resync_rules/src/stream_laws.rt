//! The laws of a rule whose readings can begin at a pattern.

ghost use Rattle.std.specs.Prelude.{◌≡◌, List, ◌++◌, Bool, None};
ghost use Rattle.resync_rules.specs.Names.{Reason, Next, Pattern, Placed, pattern_of, stream_in};
ghost use Rattle.resync_rules.specs.Fronts.{EndsOnly, IsRest, IsRestInWords};
ghost use Rattle.resync_rules.specs.Syncing.{SpelledBy, Syncs, hunting_for};

/// Where a pattern is a synchronising word of a rule's grammar for `v`, it ends exactly where a `v` ends, in each list
/// that is spellings and then a tail.
pub fn pattern_law<S, V>()
    ensures { (why : List Placed → Reason) (rule : S → Placed → Next S V) (start : S) (p : Pattern) (v : V) →
        Syncs (SpelledBy rule start) why rule start p v → EndsOnly (SpelledBy rule start) why (pattern_of p) v }
{}

/// And with any front of a list lost, a hunt for the pattern in its rest reads what the whole reads, from the first
/// `v` on that has the units of the pattern in the rest.
pub fn rest_law<S, V>()
    ensures words { (why : List Placed → Reason) (rule : S → Placed → Next S V) (start : S) (p : Pattern) (v : V) →
        Syncs (SpelledBy rule start) why rule start p v →
        IsRestInWords (SpelledBy rule start) why (pattern_of p) v }
    ensures rest { (why : List Placed → Reason) (rule : S → Placed → Next S V) (start : S) (p : Pattern) (v : V) →
        Syncs (SpelledBy rule start) why rule start p v → (hunts : Bool) (lost rest : List Placed) →
        (stream_in p v rule start hunts (lost ++ rest)).fault ≡ None →
        IsRest (hunting_for p v rule start hunts) lost rest }
{}
