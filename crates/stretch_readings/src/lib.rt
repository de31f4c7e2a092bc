//! Readings that go on after a fault: a list of units as stretches, each read by itself.
#![tactic(auto)]

mod heard;
pub mod laws;

pub use heard::Heard;
