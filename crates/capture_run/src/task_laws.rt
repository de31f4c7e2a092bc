//! Laws of each action: what it did with its input, by its status and the clause `ran` of `run`.

ghost use Rattle.std.specs.Prelude.{◌≡◌, ◌⊎◌, ◌++◌, ℕ, List, Bool, Some};
ghost use Rattle.trace_values.specs.declared.reading_modes.FramesMode.{FramesMode};
ghost use Rattle.source_events.specs.declared.plan.Plan.{Plan};
ghost use Rattle.buffer_ring.specs.Image.{dropped, is_full, pointer};
ghost use Rattle.port_slip.specs.Segments.{realigned};
ghost use Rattle.trace_text.specs.NoteText.{buffer_line, slipped_line};
ghost use Rattle.trace_funnel.specs.declared.turns.Turns.{Turns};
ghost use Rattle.capture_actions.specs.Faulty.{IsFaulty};
ghost use Rattle.capture_actions.specs.Listing.{listing};
ghost use Rattle.capture_actions.specs.Names.{cells_of};
ghost use Rattle.capture_actions.specs.Port.{IsPortFaulty, port_of};
ghost use Rattle.capture_actions.specs.PortText.{port_text};
ghost use Rattle.capture_actions.specs.Realigned.{realign_ending, realign_text};
ghost use Rattle.capture_actions.specs.Ring.{ring_meaning};
ghost use Rattle.capture_actions.specs.Split.{bytes_of_id};
ghost use Rattle.capture_actions.specs.Unring.{in_order};
ghost use Rattle.capture_actions.specs.declared.list_plan.ListPlan.{ListPlan};
ghost use Rattle.capture_actions.specs.declared.port_text_plan.PortTextPlan.{PortTextPlan};
ghost use Rattle.capture_actions.specs.declared.split_plan.SplitPlan.{SplitPlan};
ghost use Rattle.capture_actions.specs.declared.unring_plan.UnringPlan.{UnringPlan};
ghost use Rattle.capture_exercise.specs.Summary.{exercise_summary};
ghost use Rattle.capture_words.specs.Values.{guesses_of};
ghost use Rattle.capture_words.specs.declared.job.Task.TheVariants.{Show, Split, Check, Rebuild, Exercise, Realign, Ring};
ghost use Rattle.capture_words.specs.declared.job.Task.TheVariants.{Unring, Text, Funnel, Vcd, Print};
ghost use Rattle.capture_words.specs.declared.page.Page.{Page};
ghost use Rattle.capture_words.specs.declared.recover.Recover.{Recover};
ghost use Rattle.capture_words.specs.declared.recover.Recover.TheVariants.{Off};
ghost use Rattle.recovery_listing.specs.Dump as recovering_dump;
ghost use Rattle.recovery_listing.specs.Listing as recovering;
ghost use Rattle.recovery_listing.specs.Near.{listed_with};
ghost use Rattle.recovery_listing.specs.PortText as recovering_text;
ghost use Rattle.script_rebuild.specs.Rebuilt as rebuilding;
ghost use Rattle.value_dump.specs.Vcd as dumping;
ghost use Rattle.value_dump.specs.declared.vcd_plan.VcdPlan.{VcdPlan};
ghost use Rattle.capture_run.specs.Actions.{HasDone, going_on, last_note, report_note, split_note};
ghost use Rattle.capture_run.specs.Pages.{page_text};
ghost use Rattle.capture_run.specs.Rebuilds.{funnelled, straight};
ghost use Rattle.capture_run.specs.Run.{Streams, nothing};
ghost use Rattle.capture_run.specs.Tasks.{WroteAll, WroteOnly, WroteUpTo, checked, checked_over};
ghost use Rattle.capture_run.specs.declared.status.Status.TheVariants.{CaptureFault, Done, Recovered};

/// `show` writes the whole listing; at a fault the lines before it and its own; over faults those of all that is read.
pub fn show_law()
    ensures done { (p : ListPlan) (limit : ℕ) (old new : Streams) →
        HasDone (Show p.plan p.only p.window Off) limit old new Done → WroteAll old new (listing p) nothing }
    ensures fault { (p : ListPlan) (limit : ℕ) (old new : Streams) →
        HasDone (Show p.plan p.only p.window Off) limit old new CaptureFault →
        WroteUpTo limit (IsFaulty p.plan) old new (listing p) last_note }
    ensures over { (p : ListPlan) (recover : Recover) (guesses : Bool) (limit : ℕ) (old new : Streams) →
        guesses_of recover ≡ Some guesses →
        HasDone (Show p.plan p.only p.window recover) limit old new Done
        ⊎ HasDone (Show p.plan p.only p.window recover) limit old new Recovered →
        WroteAll old new (λ b. listed_with (going_on p guesses) b ++ recovering.ending p b) nothing }
{}

/// `split` writes the bytes of one source, up to a fault of the port.
pub fn split_law()
    ensures done { (p : SplitPlan) (limit : ℕ) (old new : Streams) → HasDone (Split p.frames p.id) limit old new Done →
        WroteAll old new (λ b. bytes_of_id p.id (cells_of (port_of p.frames b))) nothing }
    ensures fault { (p : SplitPlan) (limit : ℕ) (old new : Streams) →
        HasDone (Split p.frames p.id) limit old new CaptureFault →
        WroteUpTo limit (IsPortFaulty p.frames) old new (λ b. bytes_of_id p.id (cells_of (port_of p.frames b)))
        (split_note p) }
{}

/// `check` writes the summary, with the counts of kinds or without; at a fault that of the fault; over faults that of
/// all that is read.
pub fn check_law()
    ensures done { (plan : Plan) (kinds : Bool) (limit : ℕ) (old new : Streams) →
        HasDone (Check plan Off kinds) limit old new Done → WroteAll old new (checked kinds plan) nothing }
    ensures fault { (plan : Plan) (kinds : Bool) (limit : ℕ) (old new : Streams) →
        HasDone (Check plan Off kinds) limit old new CaptureFault →
        WroteUpTo limit (IsFaulty plan) old new (checked kinds plan) last_note }
    ensures over { (plan : Plan) (recover : Recover) (guesses kinds : Bool) (limit : ℕ) (old new : Streams) →
        guesses_of recover ≡ Some guesses → HasDone (Check plan recover kinds) limit old new Done
        ⊎ HasDone (Check plan recover kinds) limit old new Recovered →
        WroteAll old new (checked_over kinds plan) nothing }
{}

/// `text` writes what software wrote to a stimulus port; over faults these are notes.
pub fn text_law()
    ensures done { (p : PortTextPlan) (limit : ℕ) (old new : Streams) →
        HasDone (Text p.plan p.port Off) limit old new Done → WroteAll old new (port_text p) nothing }
    ensures fault { (p : PortTextPlan) (limit : ℕ) (old new : Streams) →
        HasDone (Text p.plan p.port Off) limit old new CaptureFault →
        WroteUpTo limit (IsFaulty p.plan) old new (port_text p) (report_note p.plan) }
    ensures over { (p : PortTextPlan) (recover : Recover) (guesses : Bool) (limit : ℕ) (old new : Streams) →
        guesses_of recover ≡ Some guesses → HasDone (Text p.plan p.port recover) limit old new Done
        ⊎ HasDone (Text p.plan p.port recover) limit old new Recovered →
        WroteAll old new (recovering_text.port_text (going_on p guesses))
        (recovering_text.noted_text (going_on p guesses)) }
{}

/// `vcd` writes a value dump; over faults these are notes.
pub fn vcd_law()
    ensures done { (p : VcdPlan) (limit : ℕ) (old new : Streams) → HasDone (Vcd p.plan p.hz Off) limit old new Done →
        WroteAll old new (λ b. dumping.dump p b ++ dumping.ending p b) nothing }
    ensures fault { (p : VcdPlan) (limit : ℕ) (old new : Streams) →
        HasDone (Vcd p.plan p.hz Off) limit old new CaptureFault →
        WroteUpTo limit (IsFaulty p.plan) old new (λ b. dumping.dump p b ++ dumping.ending p b) (report_note p.plan) }
    ensures over { (p : VcdPlan) (recover : Recover) (guesses : Bool) (limit : ℕ) (old new : Streams) →
        guesses_of recover ≡ Some guesses → HasDone (Vcd p.plan p.hz recover) limit old new Done
        ⊎ HasDone (Vcd p.plan p.hz recover) limit old new Recovered → WroteAll old new
        (λ b. recovering_dump.dump (going_on p guesses) b ++ recovering_dump.ending (going_on p guesses) b)
        (recovering_dump.noted_dump (going_on p guesses)) }
{}

/// `rebuild` writes the capture of a script without a fault, and so does `funnel`, through a funnel.
pub fn rebuild_law()
    ensures straight { (plan : Plan) (sync half limit : ℕ) (old new : Streams) →
        HasDone (Rebuild plan sync half) limit old new Done → let p = straight plan sync half in
        WroteAll old new (λ b. rebuilding.text p b ++ rebuilding.ending p b) nothing }
    ensures funnelled { (plan : Plan) (sync half : ℕ) (turns : Turns) (limit : ℕ) (old new : Streams) →
        HasDone (Funnel plan sync half turns) limit old new Done → let p = funnelled plan sync half turns in
        WroteAll old new (λ b. rebuilding.text p b ++ rebuilding.ending p b) nothing }
{}

/// `realign` writes whole bytes again, and notes how many bits it left out.
pub fn realign_law()
    ensures { (limit : ℕ) (old new : Streams) → HasDone Realign limit old new Done →
        WroteAll old new (λ b. realign_text b ++ realign_ending b)
        (λ b. slipped_line (realigned b).skipped (realigned b).dropped (realigned b).patterns) }
{}

/// `ring` writes the image of a buffer, and notes what tells its order; `unring` writes an image's bytes in order.
pub fn ring_law()
    ensures ring { (size limit : ℕ) (old new : Streams) → HasDone (Ring size) limit old new Done →
        WroteAll old new (λ b. (ring_meaning size).text b ++ (ring_meaning size).ending b)
        (λ b. buffer_line (pointer size b) (is_full size b) (dropped size b)) }
    ensures unring { (p : UnringPlan) (limit : ℕ) (old new : Streams) →
        HasDone (Unring p.size p.pointer p.full) limit old new Done → WroteAll old new (in_order p) nothing }
{}

/// `exercise`, `help` and `version` write their texts, and read nothing.
pub fn text_alone_law()
    ensures exercise { (items lose limit : ℕ) (old new : Streams) → HasDone (Exercise items lose) limit old new Done →
        WroteOnly old new (exercise_summary items lose) }
    ensures page { (page : Page) (limit : ℕ) (old new : Streams) → HasDone (Print page) limit old new Done →
        WroteOnly old new (page_text page) }
{}
