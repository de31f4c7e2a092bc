//! The texts of the command: the lines of what the sources of a capture and its port gave, of faults, of counts, those
//! at the end, and notes. Each is a `Text`, which is put into an outlet at once.
#![tactic(auto)]

mod counts;
mod digits;
mod ends;
mod faults;
mod guesses;
mod hardware;
mod items;
mod lengths;
mod lines;
mod notes;
mod place_text;
mod remark;
mod room;
mod said;
mod said_tables;
mod stp;
mod tables;

pub use counts::{
    ExerciseLines, FaultCountLine, PortCountsLines, SOURCE_COUNTS_ROOM, put_source_counts,
};
pub use digits::Digits;
pub use ends::{EndLine, PortEndLine, SourceEndLine, TAILS_ROOM, print_tails};
pub use faults::{FaultLine, print_fault};
pub use guesses::{print_guess, print_misread};
pub use lines::{EVENT_ROOM, print, put_line, put_raw_line};
pub use notes::{BufferLine, ImageLine, LastLine, LimitLine, ScriptFaultLine, SlippedLine};
pub use remark::Remark;
pub use said::put_said_line;
