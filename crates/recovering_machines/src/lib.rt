//! The machines of a port and of a mapped source that hunt again after a fault, the source's also after a cut; and what
//! takes the events of a report.
#![tactic(auto)]

mod events;
mod found;
mod guess;
mod mapped;
mod port;
mod receiver;
mod run;
mod source;
mod strict;

pub use events::{EVENTS, Events};
pub use guess::{Answer, Guess};
pub use mapped::MappedSource;
pub use port::RecoveringPort;
pub use receiver::Receiver;
pub use source::RecoveringSource;
pub use strict::{as_read, seen, strictly};
