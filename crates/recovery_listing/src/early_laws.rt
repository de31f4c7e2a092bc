//! Laws of recovering listings up to their first fault, over their definitions alone.

ghost use Rattle.std.specs.Prelude.{◌≡◌, ◌++◌, ℕ, List, Bool, true, false};
ghost use Rattle.std.specs.List.{All};
ghost use Rattle.source_events.specs.Plan.{is_sound};
ghost use Rattle.capture_actions.specs.Filtered.{all_lines};
ghost use Rattle.capture_actions.specs.Listing as strict;
ghost use Rattle.capture_actions.specs.declared.list_plan.ListPlan.{ListPlan};
ghost use Rattle.recovery_listing.specs.Early.{early_marked};
ghost use Rattle.recovery_listing.specs.Listing.{listed};
ghost use Rattle.recovery_listing.specs.Marked.{is_marked, near_marked};

/// Before the first fault each way of reading lists the same. The listing with guesses and the one without both begin
/// with the same lines, of which none ends in ` ?` and none is that of a guess; and these are all the lines of events
/// that `show` writes without recovery.
pub fn early_law()
    ensures near { (p : ListPlan) (bytes : List ℕ) →
        (rest : List (Bool × List ℕ)) × (near_marked p bytes ≡ early_marked p bytes ++ rest) }
    ensures on { (p : ListPlan) (bytes : List ℕ) →
        (rest : List ℕ) × (listed p bytes ≡ all_lines (early_marked p bytes) ++ rest) }
    ensures unmarked { (p : ListPlan) (bytes : List ℕ) →
        All (λ line. (line.0 ≡ false) × (is_marked line.1 ≡ false)) (early_marked p bytes) }
    ensures off { (p : ListPlan) (bytes : List ℕ) → is_sound p.plan ≡ true →
        all_lines (early_marked p bytes) ≡ strict.listed p bytes }
{}
