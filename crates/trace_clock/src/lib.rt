//! The times that timestamps tell: those of ITM timestamp packets (ARMv7-M Architecture Reference Manual, Arm DDI
//! 0403E, appendix D4 'Debug ITM and DWT Packet Protocol', section D4.2 'Packet descriptions'), and those of STP
//! packets (MIPI System Trace Protocol, version 2, in this project's profile of its timestamps).
#![tactic(auto)]

mod global;
mod gray;
pub mod laws;
mod local;
mod stamps;
mod words;

pub use global::GlobalClock;
pub use gray::{from_gray, to_gray};
pub use local::LocalClock;
pub use stamps::Stamps;
pub use words::{word_after, word_fits, word_nibbles};
