//! Tests of events that are kept beside the rules that they answer.

ghost use Rattle.std.specs.Prelude.{◌≡◌, Bool, ⊤};
ghost use Rattle.std.specs.Fn.{FnReturnsAt};
ghost use Rattle.source_events.specs.declared.event.Event.{Event};
ghost use Rattle.source_events.specs.declared.packet.Packet.{Packet};
ghost use Rattle.item_tap.specs.Choices.{holds, holds_any};

use crate::choice::Choice;
use crate::choices::Choices;
use crate::rule::Rule;
use source_events::{Event, Packet};
use std::marker::Model;

/// A test of events: whether it may be called, and what it may answer for an event.
pub trait Test {
    ghost may_test: { Self → Type 0 };

    ghost may_answer: { Self → Event Packet → Bool → Type 0 };

    /// Its answer for an event.
    fn test(&self, event: &Event<Packet>) -> bool
        requires { may_test self.now }
        ensures { may_answer self.now event.now result };
}

/// A closure over events, as a test.
#[derive(Drop)]
pub struct TestFn<F> {
    pub test: F,
}

impl<F: Fn(&Event<Packet>) -> bool> Test for TestFn<F> {
    ghost may_test = { λ t. F.IsAlwaysCallable t.test };

    ghost may_answer = { λ t e b. FnReturnsAt F.Fn t.test e b };

    fn test(&self, event: &Event<Packet>) -> bool {
        (self.test)(event)
    }
}

/// A choice is its own test.
impl Test for Choice {
    ghost may_test = { λ c. ⊤ };

    ghost may_answer = { λ c e b. b ≡ holds c e };

    fn test(&self, event: &Event<Packet>) -> bool {
        self.holds_for(event)
    }
}

/// A list of choices is its own test.
impl Test for Choices {
    ghost may_test = { λ c. ⊤ };

    ghost may_answer = { λ c e b. b ≡ holds_any c e };

    fn test(&self, event: &Event<Packet>) -> bool {
        self.hold_for(event)
    }
}

/// A rule, and beside it a test that answers it. Contracts see the rule.
#[derive(Drop)]
pub struct Tap<R: Rule, T: Test> {
    rule: R,
    test: T,
}

impl<R: Rule, T: Test> Model for Tap<R, T> {
    ghost Value = { R };

    ghost view = { λ t. t.rule };

    ghost invariant = { λ t.
        T.may_test t.test × ((e : Event Packet) (b : Bool) → T.may_answer t.test e b → b ≡ R.holds t.rule e) };
}

impl<R: Rule, T: Test> Tap<R, T> {
    /// A rule with a test, which may be called on every event and answers whether the rule holds for it.
    pub fn new(rule: R, test: T) -> Tap<R, T>
        requires callable { T.may_test test }
        requires answers { (e : Event Packet) (b : Bool) → T.may_answer test e b → b ≡ R.holds rule e }
        ensures { result ≡ rule }
    {
        Tap { rule, test }
    }

    /// Whether the rule holds for an event.
    pub fn passes(&self, event: &Event<Packet>) -> bool
        ensures { result ≡ R.holds self.now event.now }
    {
        self.test.test(event)
    }
}
