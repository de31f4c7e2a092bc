//! The packets of an ITM stream, and which lists of bytes spell them (ARMv7-M Architecture Reference Manual, Arm DDI
//! 0403E, appendix D4 'Debug ITM and DWT Packet Protocol').
#![tactic(auto)]

pub mod header;
pub mod laws;
pub mod packet;
pub mod partial;
pub mod proper;
pub mod shortest;
