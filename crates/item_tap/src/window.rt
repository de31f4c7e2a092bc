//! Windows over events.

ghost use Rattle.std.specs.Prelude.{◌≡◌, ◌++◌, ◌∷◌, [], ◌&&◌, ◌||◌, not, false, List};
ghost use Rattle.source_events.specs.declared.event.Event.{Event};
ghost use Rattle.source_events.specs.declared.packet.Packet.{Packet};
ghost use Rattle.item_tap.specs.Choices.{holds};
ghost use Rattle.item_tap.specs.Seen.{HasSeen, bounds_of};
ghost use Rattle.item_tap.specs.Windows.{is_open_after, passes};

use crate::bounds::Bounds;
use crate::choice::Choice;
use crate::rule::Rule;
use crate::tap::{Tap, Test};
use source_events::{Event, Packet};

/// A window over events. It opens at events for which the rule of its first tap holds, and closes after those for which
/// that of its last does.
#[derive(Drop)]
pub struct Window<R: Rule, F: Test, Q: Rule, G: Test> {
    first: Tap<R, F>,
    last: Tap<Q, G>,
    is_open: bool,
}

/// A window between two choices, which are their own tests.
pub type ChoiceWindow = Window<Choice, Choice, Choice, Choice>;

impl<R: Rule, F: Test, Q: Rule, G: Test> Window<R, F, Q, G> {
    /// A window that has seen no event. It is closed.
    pub fn new(first: Tap<R, F>, last: Tap<Q, G>) -> Window<R, F, Q, G>
        ensures first { result.first ≡ first }
        ensures last { result.last ≡ last }
        ensures closed { result.is_open ≡ false }
        ensures seen { HasSeen R.holds Q.holds result [] }
    {
        Window {
            first,
            last,
            is_open: false,
        }
    }

    /// It is open after what it saw.
    #[inline]
    pub fn is_open(&self) -> bool
        ensures { (es : List (Event Packet)) → HasSeen R.holds Q.holds self.now es →
            result ≡ is_open_after (R.holds self.now.first) (Q.holds self.now.last) es }
    {
        self.is_open
    }

    /// Takes the next event, and answers whether it passes: where the window is open, or opens with it. The event that
    /// closes the window passes too.
    #[inline]
    pub fn see(&mut self, event: &Event<Packet>) -> bool
        ensures first { self.new.first ≡ self.old.first }
        ensures last { self.new.last ≡ self.old.last }
        ensures answer { result ≡ (self.old.is_open || R.holds self.old.first event.now) }
        ensures after { self.new.is_open ≡ (result && not (Q.holds self.old.last event.now)) }
        ensures passes { (es : List (Event Packet)) → HasSeen R.holds Q.holds self.old es →
            result ≡ passes (R.holds self.old.first) (Q.holds self.old.last) es event.now }
        ensures seen { (es : List (Event Packet)) → HasSeen R.holds Q.holds self.old es →
            HasSeen R.holds Q.holds self.new (es ++ event.now ∷ []) }
    {
        let answer = self.is_open || self.first.passes(event);
        self.is_open = answer && !self.last.passes(event);
        answer
    }
}

impl Bounds {
    /// The window between the two choices. It has seen no event.
    pub fn window(self) -> ChoiceWindow
        ensures bounds { bounds_of result ≡ self }
        ensures seen { HasSeen holds holds result [] }
    {
        Window::new(
            Tap::new(self.first, self.first),
            Tap::new(self.last, self.last),
        )
    }
}
