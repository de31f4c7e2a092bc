//! Laws of recovering listings, over their definitions alone.

ghost use Rattle.std.specs.Prelude.{◌≡◌, ◌++◌, ◌&&◌, ℕ, List, Bool, None, true, false, filter, flat_map};
ghost use Rattle.std.specs.List.{All};
ghost use Rattle.trace_values.specs.Placed.{placed};
ghost use Rattle.source_events.specs.Plan.{is_sound};
ghost use Rattle.source_merge.specs.Answering.{fault_of};
ghost use Rattle.item_tap.specs.declared.choice.Choice.TheVariants.{Port};
ghost use Rattle.capture_actions.specs.Listing as strict;
ghost use Rattle.capture_actions.specs.Names.{holds, is_of};
ghost use Rattle.capture_actions.specs.PortText.{source_of, written_by};
ghost use Rattle.capture_actions.specs.declared.port_text_plan.PortTextPlan.{PortTextPlan};
ghost use Rattle.capture_actions.specs.declared.list_plan.ListPlan.{ListPlan};
ghost use Rattle.capture_actions.specs.Filtered.{unfiltered, all_lines, listed_lines};
ghost use Rattle.recovery_listing.specs.Filtered.{marked};
ghost use Rattle.recovery_listing.specs.Listing.{ending, listed};
ghost use Rattle.recovering_machines.specs.Hearing.{seen_in};
ghost use Rattle.recovery_listing.specs.Marked.{is_marked, near_marked, without_guesses};
ghost use Rattle.recovery_listing.specs.Near.{listed_with, near_listed};
ghost use Rattle.recovery_listing.specs.PortText.{port_text};
ghost use Rattle.recovery_listing.specs.declared.going_on.GoingOn.{GoingOn};
ghost use Rattle.recovery_report.specs.Report.{report_with};

/// With a choice or a window the lines of events are those of all events without those of the events that are not
/// listed; those of faults all are. What comes after them is the same.
pub fn filter_law()
    ensures all { (p : ListPlan) (bytes : List ℕ) → listed (unfiltered p) bytes ≡ all_lines (marked p bytes) }
    ensures some { (p : ListPlan) (bytes : List ℕ) → listed p bytes ≡ listed_lines (marked p bytes) }
    ensures ending { (p : ListPlan) (bytes : List ℕ) → ending (unfiltered p) bytes ≡ ending p bytes }
{}

/// The listing with guesses, line by line. Without the lines of guesses it is the listing without guesses.
pub fn guess_law()
    ensures all { (p : ListPlan) (bytes : List ℕ) → near_listed p bytes ≡ all_lines (near_marked p bytes) }
    ensures sure { (p : ListPlan) (bytes : List ℕ) →
        all_lines (without_guesses (near_marked p bytes)) ≡ listed p bytes }
{}

/// Where no guesses are said the listing with guesses is the listing.
pub fn sure_law()
    ensures { (p : ListPlan) (bytes : List ℕ) →
        listed_with (record { plan = p; guesses = false }) bytes ≡ listed p bytes }
{}

/// Of a capture without a fault each way of reading lists the same: up to a fault, over faults, and with guesses.
pub fn same_law()
    ensures { (p : ListPlan) (guesses : Bool) (bytes : List ℕ) → is_sound p.plan ≡ true →
        fault_of p.plan (placed bytes) ≡ None →
        listed_with (record { plan = p; guesses = guesses }) bytes ++ ending p bytes ≡ strict.listing p bytes }
{}

/// What `text` writes over all faults, with guesses or without, are the values of the events of its source that a
/// listing with `--only port=P` has, in order.
pub fn port_text_law()
    ensures { (p : GoingOn PortTextPlan) (bytes : List ℕ) → port_text p bytes ≡ flat_map (λ e. written_by e.what)
        (filter (λ e. is_of (source_of p.plan.plan) e.source && holds (Port p.plan.port) e)
        (seen_in (report_with p.guesses p.plan.plan (placed bytes)))) }
{}

/// Each line of a guess ends in ` ?`, and no other line does.
pub fn mark_law()
    ensures { (p : ListPlan) (bytes : List ℕ) → All (λ line. is_marked line.1 ≡ line.0) (near_marked p bytes) }
{}
