//! Numbers as words say them in decimal, alone or after a front, as in `id=5`.
#![tactic(auto)]

pub mod laws;
mod number;
mod prefix;

pub use number::{id_in, id_named, number_in, number_named};
pub use prefix::{bytes_after, text_after};
