//! The laws of the exercise, and of captures that a trace buffer kept the end of, over definitions alone.

ghost use Rattle.std.specs.Prelude.{◌≡◌, ◌≤◌, ◌<◌, ℕ, List, None};
ghost use Rattle.trace_values.specs.Placed.{placed};
ghost use Rattle.capture_actions.specs.Summary.{counts_text, summary};
ghost use Rattle.capture_exercise.specs.Exercise.{exercise_plan, exercise_lines, exercise_capture, exercise_rest};
ghost use Rattle.capture_exercise.specs.declared.maker.TheConstants.{MOST_ITEMS};
ghost use Rattle.script_laws.specs.ReadBack.{ReadsAsGiven};
ghost use Rattle.source_merge.specs.Answering.{fault_of};
ghost use Rattle.capture_run.specs.Rings.{RingFollows};

use buffer_ring::laws::ring_law;
use resync_laws::laws::report_rest_law;
use source_events::Plan;

/// The capture of the exercise reads, from its first byte on, as exactly what its lines give each source. What is left
/// of it where its front is lost has no fault, by hunts at the port and at each source: so `exercise` writes the counts
/// of that, and never the line of a fault.
pub fn exercise_law()
    ensures whole { (items : ℕ) → items ≤ MOST_ITEMS →
        ReadsAsGiven exercise_plan (exercise_lines items) (placed (exercise_capture items)) }
    ensures rest { (items lost : ℕ) → items ≤ MOST_ITEMS →
        fault_of exercise_plan (placed (exercise_rest items lost)) ≡ None }
    ensures counts { (items lost : ℕ) → items ≤ MOST_ITEMS →
        summary exercise_plan (exercise_rest items lost) ≡
        counts_text exercise_plan (placed (exercise_rest items lost)) }
{}

/// Where this plan reads a whole capture without a fault, a trace buffer of any size that took it keeps a rest of it:
/// what is listed of the buffer's image in order follows the whole capture, of which as many bytes are lost as the
/// buffer overwrote.
pub fn ring_rest_law(plan: &Plan)
    ensures { (size : ℕ) (whole : List ℕ) → 0 < size → fault_of plan.now (placed whole) ≡ None →
        RingFollows plan.now size whole }
{
    ring_law();
    report_rest_law(plan);
}
