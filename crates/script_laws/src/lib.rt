//! Laws of scripts: the text of an item reads as that item, a line that is an item is its text, and the capture that a
//! script is rebuilt to, straight or through a funnel, reads back as what the script's lines give each source.
#![tactic(auto)]

pub mod funnel_laws;
pub mod line_laws;
pub mod rebuild_laws;
