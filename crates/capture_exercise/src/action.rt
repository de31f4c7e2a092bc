//! `exercise`: what an exercise has, and what is read of it.

ghost use Rattle.std.specs.Prelude.{◌≡◌, ◌+◌, ◌≤◌, ◌++◌, [], ℕ, List, length, true};
ghost use Rattle.capture_exercise.specs.Names.{is_sound};

use crate::plans::ExercisePlan;
use capture_actions::Check;
use trace_stream::{Action, Outlet, Progress};
use trace_text::ExerciseLines;

/// The reading of what is left of an exercise's capture. It writes nothing until the end: then how many items there
/// are and how many bytes the whole capture has, and the summary of what was read.
#[derive(Drop)]
pub struct Exercise {
    lines: ExerciseLines,
    check: Check,
}

impl Exercise {
    ghost use Rattle.capture_exercise.specs.Exerciser.{Stands, plan_of, taken_by, IsLive};

    /// Nothing is read yet. The plan is sound.
    pub fn new(plan: ExercisePlan) -> Exercise
        requires sound { is_sound plan.plan ≡ true }
        ensures plan { plan_of result ≡ plan }
        ensures stands { Stands result [] }
        ensures count { taken_by result ≡ 0 }
        ensures live { IsLive result }
    {
        Exercise {
            lines: ExerciseLines {
                items: plan.items,
                capture: plan.capture,
            },
            check: Check::new(plan.plan),
        }
    }
}

impl Action for Exercise {
    ghost use Rattle.capture_exercise.specs.declared.plans.ExercisePlan.{ExercisePlan};
    ghost use Rattle.capture_exercise.specs.Summary.{exercise_meaning};
    ghost use Rattle.capture_exercise.specs.SummaryLaws.{exercise_lawful};
    ghost use Rattle.capture_exercise.specs.Exerciser.{Stands, plan_of, taken_by, IsLive};

    type Plan = ExercisePlan;

    ghost plan = { plan_of };

    ghost live = { IsLive };

    ghost taken = { taken_by };

    ghost stands = { Stands };

    ghost meaning = { exercise_meaning };

    ghost lawful = { exercise_lawful };

    #[inline]
    fn pour(&mut self, _outlet: &mut Outlet) -> bool {
        false
    }

    fn feed(&mut self, piece: &[u8], outlet: &mut Outlet, notes: &mut Outlet) -> Progress {
        self.check.feed(piece, outlet, notes)
    }

    fn finish(&mut self, outlet: &mut Outlet) {
        outlet.put(&self.lines);
        self.check.put_summary(outlet);
    }

    fn is_due(&self) -> bool {
        false
    }
}
