//! Which events of a capture are wanted: choices and lists of them, rules in general, tests that are kept beside their
//! rules, and windows between two of them.
#![tactic(auto)]

mod bounds;
mod choice;
mod choices;
mod comparator;
mod content;
pub mod laws;
mod rule;
mod tap;
mod window;

pub use bounds::Bounds;
pub use choice::{Choice, Kind, is_stamp};
pub use choices::{Choices, MOST_CHOICES};
pub use content::Content;
pub use rule::Rule;
pub use tap::{Tap, Test, TestFn};
pub use window::{ChoiceWindow, Window};
