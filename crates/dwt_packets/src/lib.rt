//! What the hardware packets of an ITM stream mean, and the packets of such meanings (ARMv7-M Architecture Reference
//! Manual, Arm DDI 0403E, appendix D4 'Debug ITM and DWT Packet Protocol', section D4.3 'DWT use of Hardware source
//! packets').
#![tactic(auto)]

mod item;
pub mod laws;
mod naming;
mod packets;
mod proper;

pub use item::{Change, DwtItem};
pub use naming::meaning;
pub use packets::packet_of;
pub use proper::is_proper_item;
