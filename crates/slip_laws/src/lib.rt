//! Lost bits of a port's line: where a full synchronisation is among its bits, what is realigned of them, and what a
//! hunt then reads of it.
#![tactic(auto)]

pub mod laws;
