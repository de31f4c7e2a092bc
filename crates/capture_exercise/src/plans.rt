//! What `exercise` is asked for.

ghost use Rattle.std.specs.Prelude.{◌≡◌, ◌≤◌, ◌∷◌, [], true};
ghost use Rattle.capture_exercise.specs.Names.{is_sound};
ghost use Rattle.capture_exercise.specs.Exercise.{exercise_plan};

use source_events::{Plan, SourceIds};
use stp_grammar::packet::Order;
use trace_values::{FramesMode, PacketsMode, SourceId};

/// How many items the exercise has, how many bytes its whole capture, and how what is left of that is read.
#[derive(Drop)]
pub struct ExercisePlan {
    pub items: u32,
    pub capture: u64,
    pub plan: Plan,
}

/// The source of this number.
pub(crate) fn source_ids(number: u8) -> SourceIds
    requires { number ≤ 126 }
    ensures { result ≡ number ∷ [] }
{
    let mut ids = SourceIds::new();
    if let Some(id) = SourceId::new(number) {
        ids.push(id);
    }
    ids
}

/// How the exercise's capture is read: with a hunt at both layers, since its front may be lost. Source 1 sends ITM
/// packets and source 2 STP packets, with the most significant nibble of a number first.
pub fn exercise_plan() -> Plan
    ensures value { result ≡ exercise_plan }
    ensures sound { is_sound result ≡ true }
{
    Plan {
        frames: FramesMode::Hunt,
        packets: PacketsMode::Hunt,
        itm: source_ids(1),
        stp: source_ids(2),
        order: Order::Msn,
    }
}
