//! Laws of recovering reports: their order, and what they are beside strict ones.
#![tactic(auto)]

pub mod laws;
