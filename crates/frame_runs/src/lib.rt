//! A whole frame of the port as what its sources sent: where its bytes are, its data in their places, and the runs of
//! its sources one after the other; and a run of one source, in a frame or in a piece of a capture with no formatter.
#![tactic(auto)]

mod bare;
mod data;
mod named;
mod pairs;
mod piece;
mod placed;
mod run;
mod split;

pub use bare::bare_source;
pub use data::data_in_place;
pub use named::{after_frame, late_ends};
pub use pairs::RunEnds;
pub use piece::PieceRun;
pub use placed::{place_frame, place_plain};
pub use run::{CellRun, Run};
pub use split::{PlacedData, RunsLeft, SplitFrame, SplitRun};
