//! Realigns the bytes of a trace port whose serial line loses single bits. Each full synchronisation, 31 ones and a
//! zero with the low bit of each byte first, tells where bytes begin again (CoreSight Architecture Specification, Arm
//! IHI 0029E (version 3.0), chapter 'Trace Formatter', its section on frames). The bits from one synchronisation up to
//! the next are a segment, and its whole bytes are written; that bits are lost is this project's profile.
#![tactic(auto)]

mod byte;
pub mod laws;
mod phase;
mod slip;
mod window;

pub use slip::{Slip, Slipped};
