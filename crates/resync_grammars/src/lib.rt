//! Lost fronts of a port's bytes and of a source's: where a synchronisation is, and what a hunt in the rest of them
//! reads.
#![tactic(auto)]

pub mod port_laws;
pub mod port_rows;
pub mod source_laws;
pub mod source_rows;
