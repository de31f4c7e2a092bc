//! Lost fronts under any rule: where a pattern of units tells a value, what a hunt for it in the rest of a list reads
//! against the whole, and from which point on the rest gives what the whole gives.
#![tactic(auto)]

pub mod point_laws;
pub mod stream_laws;
