//! What the command does with a capture's bytes where it goes on after each fault: it lists the faults among what all
//! sources sent, counts them too, or notes them beside the text of a stimulus port or the value dump of a source. Each
//! is an action that `trace_stream` serves: `Recovering` over an `Account` of the recovering report.
#![tactic(auto)]

mod account;
mod check;
pub mod clock_laws;
mod counting;
pub mod early_laws;
mod going_on;
mod guess_clocks;
mod heard_kinds;
pub mod kind_laws;
mod kinds;
pub mod laws;
mod lister;
mod noting;
mod recovering;
mod show;
mod text;
mod vcd;

pub use account::Account;
pub use check::{RecoveringCheck, Tally};
pub use going_on::GoingOn;
pub use heard_kinds::HeardKinds;
pub use kinds::{KindTally, RecoveringKinds};
pub use lister::RecoveringLister;
pub use noting::Noting;
pub use recovering::Recovering;
pub use show::RecoveringShow;
pub use text::RecoveringText;
pub use vcd::{RecoveringDump, RecoveringVcd};
