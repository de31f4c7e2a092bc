//! What reads the bytes of a mapped source, whichever protocol it has.
#![tactic(auto)]

mod machine;
mod packets;
mod units;

pub use machine::{AHEAD, SourceMachine};
pub use packets::{Finds, Told};
