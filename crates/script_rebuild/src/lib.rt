//! Scripts become captures: each line's item as the bytes of its source, those in frames, and the action `rebuild`,
//! which does it as the script's bytes come.
#![tactic(auto)]

mod bytes;
mod encoders;
pub mod laws;
mod plan;
mod rebuild;
mod version;
mod writer;

pub use plan::{RebuildPlan, ScriptFault};
pub use rebuild::Rebuild;
pub use writer::LineWriter;
