//! A funnel: the bytes of several sources, passed on through one port in turns.
//!
//! In a chip a trace funnel merges the trace of several sources onto one bus: it stays with a source for a hold time,
//! and then goes on to another that waits (CoreSight Components Technical Reference Manual, Arm DDI 0314H, chapter
//! 'CoreSight Trace Funnel', its control register with the hold time and its register of priorities). That all sources
//! have one priority and come round in a given order, that a hold counts bytes, and that a queue stands before each
//! place, is this project's profile.
#![tactic(auto)]

mod funnel;
pub mod laws;
mod queue;
mod tagged;
mod turn_order;
mod turns;

pub use funnel::Funnel;
pub use tagged::Tagged;
pub use turn_order::{MOST_PLACES, TurnOrder};
pub use turns::Turns;
