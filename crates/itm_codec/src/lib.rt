//! Reads the ITM packets of a source's bytes, and writes packets as bytes (ARMv7-M Architecture Reference Manual, Arm
//! DDI 0403E, appendix D4 'Debug ITM and DWT Packet Protocol').
#![tactic(auto)]

mod cut;
mod decoder;
mod encoder;
mod front;
mod hunt;
pub mod laws;
mod lengths;
mod sync;
mod whole;

pub use decoder::{AHEAD, ItmDecoder, ItmEnd};
pub use encoder::encode;
