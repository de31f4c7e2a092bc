//! Lost fronts: what the rest of a capture reads as, whose front is lost, against the whole. A capture often begins in
//! the middle of the stream. From each layer's first synchronisation on, its rest reads as the whole does.
#![tactic(auto)]

pub mod laws;
pub mod report_laws;
pub mod rows;
