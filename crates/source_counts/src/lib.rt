//! How much each source of a capture sent: its bytes, and its items where it carries no packets.
#![tactic(auto)]

mod counts;
mod source_counts;

pub use counts::Counts;
pub use source_counts::SourceCounts;
