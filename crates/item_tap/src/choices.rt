//! Lists of choices.

ghost use Rattle.std.specs.Prelude.{◌≡◌, ◌<◌, ◌≤◌, ◌++◌, ◌∷◌, [], List, length};
ghost use Rattle.item_tap.specs.Choices.{holds_any, holds_any_in};
ghost use Rattle.item_tap.specs.declared.choice.Choice.{Choice};

use crate::choice::Choice;
use crate::content::Content;
use crate::rule::Rule;
use arrayvec::ArrayVec;
use source_events::{Event, Packet};
use std::marker::Model;
use trace_values::SourceId;

/// How many choices a list has at most.
pub const MOST_CHOICES: usize = 8;

/// One to eight choices. An event is wanted that meets one of them.
#[derive(Debug, Drop)]
pub struct Choices {
    choices: ArrayVec<Choice, MOST_CHOICES>,
}

impl Model for Choices {
    ghost use Rattle.std.specs.Prelude.{◌<◌, ◌≤◌, List, length};
    ghost use Rattle.item_tap.specs.declared.choice.Choice.{Choice};
    ghost use Rattle.item_tap.specs.declared.choices.TheConstants.{MOST_CHOICES};

    ghost Value = { List Choice };

    ghost view = { λ c. c.choices.items };

    ghost invariant = { λ c. (0 < length c.choices.items) × (length c.choices.items ≤ MOST_CHOICES) };
}

impl Rule for Choices {
    ghost holds = { holds_any };
}

impl Choices {
    /// This choice alone.
    pub fn new(first: Choice) -> Choices
        ensures { result ≡ first ∷ [] }
    {
        let mut choices = ArrayVec::new();
        choices.push(first);
        Choices { choices }
    }

    /// One more, of fewer than 8.
    pub fn push(&mut self, choice: Choice)
        requires { length self.old < MOST_CHOICES }
        ensures { self.new ≡ self.old ++ choice ∷ [] }
    {
        self.choices.push(choice);
    }

    /// The choices, in order.
    pub fn as_slice(&self) -> &[Choice]
        ensures value { result.now ≡ self.now }
        ensures some { 0 < length result.now }
        ensures few { length result.now ≤ MOST_CHOICES }
    {
        self.choices.as_slice()
    }

    /// Whether one of them holds for what a source gives, or the port.
    #[inline(always)]
    pub fn hold_in(&self, source: Option<SourceId>, content: &Content) -> bool
        ensures { result ≡ holds_any_in self.now source content.now }
    {
        self.choices
            .iter()
            .any(|choice| choice.holds_in(source, content))
    }

    /// Whether one of them holds for an event.
    pub fn hold_for(&self, event: &Event<Packet>) -> bool
        ensures { result ≡ holds_any self.now event.now }
    {
        self.hold_in(event.source, &Content::of(&event.what))
    }
}
