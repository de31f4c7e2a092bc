//! What all sources of a capture give, in one report: the events of each source, merged by their places, up to the
//! first fault of the port or of a source.
#![tactic(auto)]

mod event;
pub mod laws;
mod packet;
mod plan;
mod port_mode;
mod run_bytes;
mod runs;
mod source_ids;
mod tails;

pub use event::{Event, Stop, What};
pub use packet::Packet;
pub use plan::{MAPPED_SOURCES, Plan, SourceKind};
pub use port_mode::PortMode;
pub use run_bytes::RunBytes;
pub use runs::run_length;
pub use source_ids::{KIND_SOURCES, SourceIds};
pub use tails::{GREATEST_COUNT, PortCounts, SourceTail, SourceTails, Tails};
