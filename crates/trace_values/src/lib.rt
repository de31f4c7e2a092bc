//! What the layers of the trace share: source IDs, faults, what a unit or a byte says, and the trait of
//! machines.
#![tactic(auto)]

mod cell;
mod fault;
pub mod laws;
mod limits;
mod machine;
mod mode;
mod next;
mod pattern;
mod reading_modes;
mod step;
mod taking;

pub use cell::{Cell, SourceId};
pub use fault::{Fault, Reason};
pub use limits::{COUNT_ROOM, ID_COUNT, NIBBLE_ROOM, PART_ROOM};
pub use machine::Machine;
pub use mode::Mode;
pub use next::Next;
pub use pattern::Pattern;
pub use reading_modes::{FramesMode, PacketsMode};
pub use step::Step;
pub use taking::{Found, TakenAtOnce};
