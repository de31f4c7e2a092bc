//! Laws of recovering reports, over their definitions alone.

ghost use Rattle.std.specs.Prelude.{◌≡◌, ℕ, List, [], ◌∷◌, ◌++◌, map, Bool, None, Some, false};
ghost use Rattle.frame_grammar.specs.Reading.{is_source};
ghost use Rattle.trace_values.specs.declared.cell.Cell.{Cell};
ghost use Rattle.trace_values.specs.declared.fault.Reason.{Reason};
ghost use Rattle.trace_values.specs.Placed.{Place, Placed, byte_at};
ghost use Rattle.trace_values.specs.Stream.{Said, Kept};
ghost use Rattle.deformatter.specs.declared.step.PortStep.{PortStep};
ghost use Rattle.trace_values.specs.declared.reading_modes.FramesMode.{FramesMode};
ghost use Rattle.deformatter.specs.Growth.{PortGrows};
ghost use Rattle.deformatter.specs.Reading.{cells_in, port_stream};
ghost use Rattle.deformatter.specs.Rising.{BytesRise};
ghost use Rattle.recovering_machines.specs.Port.{items_by, from_halfword};
ghost use Rattle.source_events.specs.declared.packet.Packet.{Packet};
ghost use Rattle.source_events.specs.declared.plan.Plan.{Plan};
ghost use Rattle.source_events.specs.declared.plan.SourceKind.{SourceKind};
ghost use Rattle.source_events.specs.Plan.{kind_of};
ghost use Rattle.source_events.specs.Runs.{id_of};
ghost use Rattle.stp_grammar.specs.declared.packet.Order.{Order};
ghost use Rattle.stretch_readings.specs.declared.heard.Heard.{Heard};
ghost use Rattle.stretch_readings.specs.declared.heard.Heard.TheVariants.{Broken};
ghost use Rattle.stretch_readings.specs.Words.{Goes, IsSettling, IsSound};
ghost use Rattle.stretch_readings.specs.Stretches.{One, Stretches, fed, from_fault, heard, parted, recovering};
ghost use Rattle.stretch_readings.specs.Stretches.{stretches};
ghost use Rattle.recovery_report.specs.Placing.{PartsBetween};
ghost use Rattle.recovery_report.specs.Port.{of_stretches, recovered};
ghost use Rattle.source_machine.specs.Units.{reads_by};
ghost use Rattle.recovery_report.specs.Report.{Part, Run, Locks, Breaks, added, parts_in, report_from};
ghost use Rattle.recovery_report.specs.Report.{stretches_of};
ghost use Rattle.recovery_report.specs.Words.{OwnRun, parts_by};

/// With one more part the report, with guesses or without, has what the part adds, and nothing is taken back.
pub fn growing_law()
    ensures { (guesses : Bool) (plan : Plan) (parts : List Part) (m : Part) →
        report_from guesses plan [] (parts ++ m ∷ []) ≡
        report_from guesses plan [] parts ++ added guesses plan parts m }
{}

/// What one more part is to a mapped source: a run of its own, a run of another one, a lock of the port, or a cut.
pub fn source_law()
    ensures own { (guesses : Bool) (plan : Plan) (kind : SourceKind) (x : ℕ) (parts : List Part) (run : List Cell) →
        kind_of plan x ≡ Some kind → id_of run ≡ Some x → OwnRun guesses plan kind x parts run }
    ensures other { (plan : Plan) (kind : SourceKind) (x : ℕ) (parts : List Part) (run : List Cell) →
        is_source x (id_of run) ≡ false →
        stretches_of plan kind x (parts ++ Run run ∷ []) ≡ stretches_of plan kind x parts }
    ensures lock { (plan : Plan) (kind : SourceKind) (x : ℕ) (parts : List Part) (skipped : ℕ) (place : Place) →
        stretches_of plan kind x (parts ++ Locks skipped place ∷ []) ≡ stretches_of plan kind x parts }
    ensures cut { (plan : Plan) (kind : SourceKind) (x : ℕ) (parts : List Part) (reason : Reason) (place : Place) →
        stretches_of plan kind x (parts ++ Breaks reason place ∷ []) ≡
        parted (reads_by plan.order kind) from_fault (stretches_of plan kind x parts) }
{}

/// What one more byte of a port with a formatter is: the parts of its step, and nothing is taken back.
pub fn port_law()
    ensures { (r : Stretches) (at byte : ℕ) (step : PortStep) (cells : List Cell) →
        (port_stream r.now.hunts r.now.units).fault ≡ None →
        PortGrows (port_stream r.now.hunts r.now.units)
        (port_stream r.now.hunts (r.now.units ++ byte_at at byte ∷ [])) at step →
        cells_in (port_stream r.now.hunts (r.now.units ++ byte_at at byte ∷ []))
        ≡ cells_in (port_stream r.now.hunts r.now.units) ++ cells →
        parts_in (of_stretches (fed items_by from_halfword r (One (byte_at at byte)))) ≡
        parts_in (of_stretches r) ++ parts_by r.now.count at step cells }
{}

/// The parts of bytes at rising offsets lie one after the other, where the bytes do.
pub fn placing_law()
    ensures { (mode : FramesMode) (n k : ℕ) (u : List Placed) → BytesRise n k u →
        PartsBetween n k (parts_in (recovered mode u)) }
{}

/// The stretches of a source's units, and those of a port's bytes, are those that `Goes` says in words.
pub fn words_law()
    ensures sources { (order : Order) (kind : SourceKind) (h : Bool) (u : List Placed) →
        let reads = reads_by order kind in let r = stretches reads from_fault h (map One u) in
        Goes reads from_fault h 0 u r.past r.now }
    ensures port { (h : Bool) (u : List Placed) → let r = stretches items_by from_halfword h (map One u) in
        Goes items_by from_halfword h 0 u r.past r.now }
{}

/// Without a fault there is one stretch, and the recovering reading is the strict one. With a fault the recovering
/// reading of a source begins with what the strict one gives, and the fault.
pub fn strict_law()
    ensures source { (order : Order) (kind : SourceKind) (h : Bool) (u : List Placed) →
        (reads_by order kind h u).fault ≡ None → stretches (reads_by order kind) from_fault h (map One u) ≡
        record { past = []; now = record { hunts = h; count = 0; units = u } } }
    ensures first { (order : Order) (kind : SourceKind) (h : Bool) (u : List Placed) (f : Place × Reason) →
        (reads_by order kind h u).fault ≡ Some f → (rest : List (Said (Heard Packet) × Place))
        × (let reads = reads_by order kind in (recovering reads from_fault h (map One u)).given ≡
        (map (heard reads from_fault 0) (reads h u).given ++ (Kept (Broken f.1), f.0) ∷ []) ++ rest) }
    ensures port { (h : Bool) (u : List Placed) → (items_by h u).fault ≡ None →
        stretches items_by from_halfword h (map One u) ≡
        record { past = []; now = record { hunts = h; count = 0; units = u } } }
{}

/// The premises of the laws of stretches hold: what is taken again has no fault, and a fault ends a reading.
pub fn sound_law()
    ensures sources { (order : Order) (kind : SourceKind) →
        IsSound (reads_by order kind) from_fault × IsSettling (reads_by order kind) }
    ensures port { IsSound items_by from_halfword × IsSettling items_by }
{}
