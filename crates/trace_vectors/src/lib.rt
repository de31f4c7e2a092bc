//! The items of the exercise: a stated sequence of packets, items and bytes of four sources, with which a reader of
//! captures is tried at any length.
#![tactic(auto)]

mod made;

pub use made::{Made, item_at};
