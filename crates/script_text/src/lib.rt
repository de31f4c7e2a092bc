//! The lines of scripts: each is empty, a remark, or an item of a source, in the words of the listing.
#![tactic(auto)]

mod dwt_shapes;
mod items;
mod itm_shapes;
mod line_fault;
mod lines;
mod numbers;
mod places;
mod raw_bytes;
mod shapes;
mod stamps;
mod stp_shapes;
mod version_two;
mod words;

pub use items::Item;
pub use line_fault::LineFault;
pub use lines::{LINE_BYTES, Line, TRIGGER_SOURCE, read_into, read_line};
pub use raw_bytes::{RAW_BYTES, RawBytes};
pub use version_two::{Line2, read_line2, read_new};
