//! What a trace port carries: frames and synchronisations, which lists of bytes spell them, and the cells of a frame
//! (CoreSight Architecture Specification, Arm IHI 0029E (version 3.0), chapter 'Trace Formatter', its section on
//! frames).
#![tactic(auto)]

pub mod frame;
pub mod gather;
pub mod laws;
pub mod plain;
pub mod source_bytes;
mod spaced;
mod words;
