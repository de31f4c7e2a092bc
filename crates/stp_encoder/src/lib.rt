//! Writes the items of a system trace as bytes (MIPI System Trace Protocol, version 2, 'STPv2', in this project's
//! profile of it).
#![tactic(auto)]

mod encoder;
mod fit;
mod joiner;
pub mod laws;
mod packet;
mod telling;

pub use encoder::{StpEncoder, Unfit};
