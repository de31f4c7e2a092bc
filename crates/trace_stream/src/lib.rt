//! The run: one loop from a source through an action to a sink, proved once for every
//! action that reads its input byte after byte.
//!
//! An action's caller opens `Buffers` and calls `serve`. What was read, what was written, why the run
//! ended and, at a fault, which last bytes the buffers keep are one table, `HasServed`.
#![tactic(auto)]

mod action;
mod buffers;
mod feeding;
mod limits;
mod outcome;
mod outlet;
mod owed;
mod pumping;
mod recent;
mod serving;

pub use action::{ACTION_ROOM, Action, Progress};
pub use buffers::Buffers;
pub use limits::GREATEST_CAPTURE;
pub use outcome::Outcome;
pub use outlet::{OUTLET_ROOM, Outlet, TEXT_ROOM, Text};
pub use owed::put_owed;
pub use recent::RECENT_ROOM;
pub use serving::serve;
