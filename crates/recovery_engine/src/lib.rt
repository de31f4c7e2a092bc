//! The reading of a capture with all its sources, which goes on after each fault.
#![tactic(auto)]

mod counts;
mod ends;
mod engine;
mod heard_counts;
mod per_source;
mod router;
mod slot;

pub use engine::{GREATEST_OFFSET, Recovery};
pub use heard_counts::HeardCounts;
pub use per_source::PerSource;
