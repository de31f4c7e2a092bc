//! Reads the bytes of a trace port (CoreSight Architecture Specification, Arm IHI 0029E (version 3.0), chapter 'Trace
//! Formatter', its section on frames). A `Deformatter` takes frames apart, from the first byte on or in a hunt for a
//! full synchronisation; a `PortReader` reads in any of three modes: these two, or bare, with no formatter.
#![tactic(auto)]

mod block;
mod deformatter;
pub mod laws;
mod reader;
pub mod reading_laws;
mod resume;
mod step;
mod unfinished;

pub use block::Taken;
pub use deformatter::Deformatter;
pub use reader::PortReader;
pub use step::PortStep;
