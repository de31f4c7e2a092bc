//! A value dump of one ITM source, as viewers of waveforms read it: at each local timestamp the signals that changed.
#![tactic(auto)]

mod binary;
pub mod clock_laws;
mod dump;
mod header;
pub mod laws;
mod lines;
mod signals;
mod source_dump;
mod telling;
mod values;
mod vcd;
mod vcd_plan;

pub use dump::{PACKET_ROOM, ValueDump};
pub use signals::{ASLEEP, EXCEPTION, FIRST_COMPARATOR, FIRST_PORT, LOST, PC, SIGNALS};
pub use source_dump::SourceDump;
pub use values::ALL_ROOM;
pub use vcd::Vcd;
pub use vcd_plan::VcdPlan;
