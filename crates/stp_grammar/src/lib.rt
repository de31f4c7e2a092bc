//! The packets and items of a system trace (MIPI System Trace Protocol, version 2, 'STPv2', in this project's profile
//! of it), and which lists of nibbles spell them.
#![tactic(auto)]

pub mod attribution;
pub mod item;
pub mod laws;
pub mod nibble;
pub mod opcode;
pub mod packet;
pub mod partial;
pub mod proper;
pub mod said;
