//! Reports of captures with faults, that go on after each.
#![tactic(auto)]

pub mod laws;
