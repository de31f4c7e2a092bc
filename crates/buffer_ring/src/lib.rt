//! The memory of an on-chip trace buffer that overwrites its oldest bytes, and its bytes in order.
//!
//! It is that of the Embedded Trace Buffer (CoreSight Components Technical Reference Manual, Arm DDI 0314H, chapter
//! 'Embedded Trace Buffer', its RAM write pointer and status registers) and of the Trace Memory Controller in circular
//! buffer mode (CoreSight Trace Memory Controller Technical Reference Manual, Arm DDI 0461B, its registers RWP and
//! STS): a pointer to the next byte, and a flag that says whether the memory was filled. That the memory begins as 00,
//! that the pointer counts bytes from the first of the memory, and that an image is the memory from its first byte on,
//! is this project's profile.
#![tactic(auto)]

mod buffer;
pub mod laws;

pub use buffer::{TraceBuffer, ordered};
