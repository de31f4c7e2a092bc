//! The laws of points, for every rule whose readings can begin at a pattern.

ghost use Rattle.std.specs.Prelude.{◌≡◌, ℕ, List, Bool, map, true};
ghost use Rattle.resync_rules.specs.Names.{Reason, Next, Pattern, Placed, stream_in, by_unit};
ghost use Rattle.resync_rules.specs.Syncing.{SpelledBy, Syncs};
ghost use Rattle.resync_rules.specs.Points.{Follows};
ghost use Rattle.resync_rules.specs.Moved.{later, later_stream};

/// Where a pattern is a synchronising word of a rule's grammar, the rest of units at rising places has given, with each
/// front of them, the values that the whole has given from the lock on.
pub fn follows_law<S, V>()
    ensures { (why : List Placed → Reason) (rule : S → Placed → Next S V) (start : S) (p : Pattern) (v : V) →
        Syncs (SpelledBy rule start) why rule start p v → (hunts : Bool) →
        Follows (stream_in p v rule start hunts) (stream_in p v rule start true) }
{}

/// The same units at later offsets give the same, at the later offsets, where the rule looks at the units alone.
pub fn moved_law<S, V>()
    ensures { (rule : S → ℕ → Next S V) (start : S) (p : Pattern) (v : V) (hunts : Bool) (by : ℕ) (u : List Placed) →
        stream_in p v (by_unit rule) start hunts (map (λ b. later by b) u)
        ≡ later_stream by (stream_in p v (by_unit rule) start hunts u) }
{}
