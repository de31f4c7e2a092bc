//! Laws of the report, over its definitions alone.

ghost use Rattle.std.specs.Prelude.{◌≡◌, ◌↔◌, ℕ, List, [], ◌++◌, is_none, false, None};
ghost use Rattle.std.specs.List.{flat_map};
ghost use Rattle.trace_values.specs.declared.cell.Cell.{Cell};
ghost use Rattle.frame_grammar.specs.Runs.{HasRuns};
ghost use Rattle.frame_grammar.specs.SourceBytes.{source_units};
ghost use Rattle.trace_values.specs.Placed.{Placed, placed};
ghost use Rattle.trace_values.specs.declared.reading_modes.FramesMode.{FramesMode};
ghost use Rattle.source_events.specs.declared.packet.Packet.{Packet};
ghost use Rattle.deformatter.specs.PortReading.{port_reading, cells_of};
ghost use Rattle.deformatter.specs.Rising.{BytesRise};
ghost use Rattle.source_events.specs.declared.event.Event.{Event};
ghost use Rattle.source_events.specs.Runs.{runs_of, list_of, AreWhole};
ghost use Rattle.source_events.specs.Merge.{IsMerged};
ghost use Rattle.source_events.specs.Report.{Mapped, AreLawful, capture_events, given_in, report, runs_in, stop_in};
ghost use Rattle.source_counts.specs.Counts.{items_of};
ghost use Rattle.source_events.specs.Tails.{items_in};
ghost use Rattle.source_events.specs.declared.plan.Plan.{Plan};
ghost use Rattle.source_events.specs.Plan.{sources_by};

/// Of bytes at rising offsets, the events of the port and of all sources are one list that is sorted by place, whose
/// part of the port is what the port gives, and whose part of each source is what that source gives; and no other list
/// is so.
pub fn merged_law()
    ensures { (ss : List (Mapped Packet)) → AreLawful ss → (mode : FramesMode) (u : List Placed) (lo hi : ℕ) →
        BytesRise lo hi u → (es : List (Event Packet)) →
        IsMerged (given_in ss mode u) es ↔ (es ≡ capture_events ss mode u) }
{}

/// The same of what a plan maps: its report has no other order, and no other events.
pub fn plan_law()
    ensures { (plan : Plan) (u : List Placed) (lo hi : ℕ) → BytesRise lo hi u → (es : List (Event Packet)) →
        IsMerged (given_in (sources_by plan) plan.frames u) es ↔
        (es ≡ capture_events (sources_by plan) plan.frames u) }
{}

/// Further bytes mend no fault, and after a fault they add nothing to the report; before one they take nothing of it
/// back.
pub fn growth_law()
    ensures stays { (plan : Plan) (xs ys : List ℕ) →
        is_none (stop_in (sources_by plan) (port_reading plan.frames (placed xs))) ≡ false →
        (stop_in (sources_by plan) (port_reading plan.frames (placed (xs ++ ys))) ≡
        stop_in (sources_by plan) (port_reading plan.frames (placed xs))) ×
        (report (sources_by plan) plan.frames (placed (xs ++ ys)) ≡ report (sources_by plan) plan.frames (placed xs)) }
    ensures grows { (plan : Plan) (xs ys : List ℕ) → (given : List (Event Packet)) ×
        (report (sources_by plan) plan.frames (placed (xs ++ ys)) ≡
        report (sources_by plan) plan.frames (placed xs) ++ given) }
{}

/// Where no source is mapped and the report has no fault, a source has as many events as its frames have items of it:
/// one for each run, for each byte of the trigger source, and none of the null source.
pub fn items_law()
    ensures { (plan : Plan) (bytes : List ℕ) (x : ℕ) → sources_by plan ≡ [] →
        stop_in (sources_by plan) (port_reading plan.frames (placed bytes)) ≡ None →
        items_in x (report (sources_by plan) plan.frames (placed bytes)) ≡
        items_of x (port_reading plan.frames (placed bytes)).frames }
{}

/// The runs of a frame, one after the other, are its cells. Each is all the frame's cells of one number, and the
/// numbers rise.
pub fn runs_law()
    ensures cells { (cells : List Cell) → flat_map (λ run. run) (runs_of cells) ≡ cells }
    ensures whole { (cells : List Cell) → HasRuns cells → AreWhole 0 cells (runs_of cells) }
{}

/// What a source's machine is fed by the runs of a port's frames is the bytes of its cells, each at its offset.
pub fn list_law()
    ensures { (mode : FramesMode) (u : List Placed) (x : ℕ) →
        list_of x (runs_in (port_reading mode u)) ≡ source_units x (cells_of (port_reading mode u)) }
{}
