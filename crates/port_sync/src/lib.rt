//! Which byte of a trace port ends which halfword or synchronisation (CoreSight Architecture Specification, Arm IHI
//! 0029E (version 3.0), chapter 'Trace Formatter', its section on frames).
#![tactic(auto)]

mod aligner;
mod hunter;
pub mod laws;

pub use aligner::{Aligner, Half};
pub use hunter::Hunter;
