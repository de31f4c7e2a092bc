//! Laws of recovering reports, over their definitions alone: their order, and what they are beside strict ones.

ghost use Rattle.std.specs.Prelude.{◌≡◌, ◌∷◌, ◌++◌, [], ℕ, List, Bool, None, true, false};
ghost use Rattle.std.specs.List.{before_first, list_any};
ghost use Rattle.trace_values.specs.Placed.{Placed, byte_at};
ghost use Rattle.trace_values.specs.declared.reading_modes.FramesMode.{FramesMode};
ghost use Rattle.deformatter.specs.PortReading.{port_reading};
ghost use Rattle.deformatter.specs.Rising.{BytesRise};
ghost use Rattle.source_events.specs.declared.plan.Plan.{Plan};
ghost use Rattle.source_events.specs.Plan.{is_sound, sources_by};
ghost use Rattle.source_events.specs.Report.{stop_in};
ghost use Rattle.recovering_machines.specs.Hearing.{is_guess};
ghost use Rattle.recovery_report.specs.Counts.{is_fault};
ghost use Rattle.recovery_report.specs.Report.{report, report_with, sure_events};
ghost use Rattle.recovery_laws.specs.Order.{IsOnlyOrder, IsOrdered};
ghost use Rattle.recovery_laws.specs.Strict.{EndsAsStrict, HasAsStrict, IsStrictBefore};

/// Of bytes at rising offsets, the recovering report is the strict one up to its first fault, which is the strict
/// report's. Where the strict report has no fault both are the same, and so are all counts and the ends.
pub fn strict_law()
    ensures before { (plan : Plan) (n k : ℕ) (u : List Placed) → is_sound plan ≡ true → BytesRise n k u →
        IsStrictBefore plan u }
    ensures ends { (plan : Plan) (n k : ℕ) (u : List Placed) → is_sound plan ≡ true → BytesRise n k u →
        stop_in (sources_by plan) (port_reading plan.frames u) ≡ None → EndsAsStrict plan u }
{}

/// What all stretches of a port have, its frames and synchronisations, is what its strict reading has: of bytes without
/// a fault of the port, and of such bytes with one more, with which a fault is certain.
pub fn counts_law()
    ensures sound { (mode : FramesMode) (u : List Placed) → (port_reading mode u).fault ≡ None → HasAsStrict mode u }
    ensures broken { (mode : FramesMode) (u : List Placed) (at byte : ℕ) → (port_reading mode u).fault ≡ None →
        HasAsStrict mode (u ++ byte_at at byte ∷ []) }
{}

/// Of bytes at rising offsets, the recovering report, with guesses or without, is sorted by place. Its part of the port
/// is all that the port says, its locks and faults, and its part of each source is all that this source says, with its
/// guesses or without. No other list is so.
pub fn order_law()
    ensures ordered { (guesses : Bool) (plan : Plan) (n k : ℕ) (u : List Placed) → BytesRise n k u →
        IsOrdered guesses plan u }
    ensures only { (guesses : Bool) (plan : Plan) (n k : ℕ) (u : List Placed) → BytesRise n k u →
        IsOnlyOrder guesses plan u }
{}

/// Of bytes at rising offsets, the report with guesses is, without them, the report. Before its first fault there is no
/// guess.
pub fn guess_law()
    ensures sure { (plan : Plan) (n k : ℕ) (u : List Placed) → BytesRise n k u →
        sure_events (report_with true plan u) ≡ report plan u }
    ensures first { (plan : Plan) (n k : ℕ) (u : List Placed) → BytesRise n k u →
        list_any (λ e. is_guess e.what) (before_first (λ e. is_fault e.what) (report_with true plan u)) ≡ false }
{}
