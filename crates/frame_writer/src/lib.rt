//! Writes tagged bytes as frames (CoreSight Architecture Specification, Arm IHI 0029E (version 3.0), chapter 'Trace
//! Formatter', its section on frames).
#![tactic(auto)]

mod frame;
pub mod laws;
mod pair;
mod sure;
mod writer;

pub use sure::{SureWriter, TwoFrames};
pub use writer::FrameWriter;
