//! What the command does with a capture's bytes as they come: it lists or counts what all sources sent, takes out the
//! bytes of one source or what software wrote to one of its ports, realigns those of a port whose line loses bits, or
//! makes the image of a trace buffer and puts one in order. Each is an action that `trace_stream` serves.
#![tactic(auto)]

mod check;
mod clocks;
mod filter;
mod item_word;
mod kind_check;
mod kind_counts;
pub mod kind_laws;
mod kind_lines;
pub mod laws;
mod list_plan;
mod lister;
mod plan_table;
mod port;
mod port_text;
mod port_text_plan;
mod port_values;
mod reading;
mod realign;
mod ring;
mod show;
mod source_clocks;
mod split;
mod split_plan;
mod unring;
mod unring_plan;

pub use check::{Check, SOURCE_ROOM, SUMMARY_ROOM, put_source_line};
pub use item_word::{ItemWord, WORD_COUNT, WORDS};
pub use kind_check::KindCheck;
pub use kind_counts::KindCounts;
pub use kind_lines::{KindLines, Part};
pub use list_plan::ListPlan;
pub use lister::Lister;
pub use plan_table::PlanTable;
pub use port_text::PortText;
pub use port_text_plan::PortTextPlan;
pub use port_values::PortValues;
pub use reading::CaptureReading;
pub use realign::{Realign, realign_law};
pub use ring::Ring;
pub use show::Show;
pub use source_clocks::SourceClocks;
pub use split::Split;
pub use split_plan::SplitPlan;
pub use unring::Unring;
pub use unring_plan::UnringPlan;
