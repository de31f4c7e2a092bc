//! Laws of the kinds of items of recovering reports, over their definitions alone.

ghost use Rattle.std.specs.Prelude.{◌≡◌, ℕ, List};
ghost use Rattle.std.specs.List.{sum_by};
ghost use Rattle.trace_values.specs.Placed.{placed};
ghost use Rattle.source_events.specs.declared.plan.Plan.{Plan};
ghost use Rattle.capture_actions.specs.KindCounts.{kind_count};
ghost use Rattle.capture_actions.specs.Words.{all_words};
ghost use Rattle.recovering_machines.specs.Hearing.{seen_in};
ghost use Rattle.recovery_report.specs.Counts.{source_counts_of};
ghost use Rattle.recovery_report.specs.Report.{report};

/// The counts of all words of a source sum to its items, which the summary has before them. No fault is among these,
/// and no guess.
pub fn sum_law()
    ensures { (plan : Plan) (bytes : List ℕ) (source : ℕ) →
        sum_by (λ word. kind_count source word (seen_in (report plan (placed bytes)))) all_words ≡
        (source_counts_of plan (placed bytes) source).items }
{}
