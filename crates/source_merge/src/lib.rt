//! All sources of a capture in one report, up to its first fault, as its bytes come.
#![tactic(auto)]

mod engine;
mod flow;
mod hearing;
mod up_to;

pub use engine::Engine;
pub use flow::{Fed, Flow};
