//! The exercise: a capture of a stated number of items, made as it is asked for, with which a reader of captures is
//! tried at any length, and the action `exercise`, which reads it and writes a summary.
#![tactic(auto)]

mod action;
mod lines;
mod maker;
mod plans;
mod source;
mod writing;

pub use action::Exercise;
pub use maker::{MOST_BYTES, MOST_ITEMS};
pub use plans::{ExercisePlan, exercise_plan};
pub use source::ExerciseSource;
pub use writing::write_exercise;
