//! Reads the items of a source's bytes as a system trace (MIPI System Trace Protocol, version 2, 'STPv2', in this
//! project's profile of it).
#![tactic(auto)]

mod cut;
mod decoder;
mod find;
mod flat;
mod hunt;
pub mod laws;
mod nibbles;
mod numbers;
mod run;
mod take;
mod waiting;

pub use decoder::{SaidTaken, StpDecoder};
pub use flat::{PacketParts, WINDOW};
