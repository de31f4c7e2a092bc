//! The words of the command, read by `clap`: an action and options, and the job that they ask for.
#![tactic(auto)]

mod choices;
mod command;
mod entries;
mod ids;
mod job;
pub mod laws;
mod list;
mod option;
mod page;
mod reading;
mod recover;
mod settings;
mod usage;
mod values;

pub use job::{Job, Task};
pub use option::CommandOption;
pub use page::Page;
pub use reading::{Asked, read_words};
pub use recover::Recover;
pub use usage::{LINE_ROOM, UsageFault};
pub use values::GREATEST_LIMIT;
