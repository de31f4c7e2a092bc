//! Which events of a capture are listed.

ghost use Rattle.std.specs.Prelude.{◌≡◌, ◌↔◌, ◌++◌, ◌∷◌, [], List, IsTrue, not, ◌&&◌, ◌||◌, is_none, Some};
ghost use Rattle.capture_actions.specs.Names.{Event, Packet, is_item};
ghost use Rattle.capture_actions.specs.Listing.{meets, is_within, is_listed};
ghost use Rattle.capture_actions.specs.Filter.{SawAll, bounds_in, content_by, wants};
ghost use Rattle.capture_actions.specs.Guesses.{is_open};
ghost use Rattle.item_tap.specs.declared.content.Content.TheVariants.{Itm};

use item_tap::{Bounds, ChoiceWindow, Choices, Content};
use itm_grammar::packet::ItmPacket;
use source_events::{Event, Packet, What};
use trace_values::SourceId;

/// Which events are listed: those that meet one of some choices, if there are any, and are within a window, if there is
/// one.
#[derive(Drop)]
pub struct Filter {
    only: Option<Choices>,
    window: Option<ChoiceWindow>,
}

/// Whether an event meets one of the choices, if there are any, or is the notice of a lock.
#[inline]
fn meets(only: &Option<Choices>, event: &Event<Packet>) -> bool
    ensures { result ≡ (meets only.now event.now || not (is_item event.now.what)) }
{
    match only {
        None => true,
        Some(choices) => match event.what {
            What::Locked(_) => true,
            What::Packet(_) | What::Raw(_) | What::Trigger(_) => choices.hold_for(event),
        },
    }
}

/// What a source gives that has nothing more of which a choice asks.
#[derive(Clone, Copy, Drop)]
pub enum ContentKind {
    /// An item of a system trace.
    Stp,
    /// Bytes of a source that is not mapped.
    Raw,
    /// A byte of the trigger source, 125.
    Trigger,
}

/// Whether this packet of this source meets one of the choices. What a choice sees of it is made only here, and that is
/// kept out of line.
#[inline(never)]
fn hold_itm(choices: &Choices, source: SourceId, packet: ItmPacket) -> bool
    ensures { result ≡ wants (Some choices.now) (Some source) (Itm packet) }
{
    choices.hold_in(Some(source), &Content::Itm(packet))
}

/// Whether what this source gives meets one of the choices. What a choice sees of it is made only here.
#[inline(never)]
fn hold_kind(choices: &Choices, source: SourceId, kind: ContentKind) -> bool
    ensures { result ≡ wants (Some choices.now) (Some source) (content_by kind) }
{
    let content = match kind {
        ContentKind::Stp => Content::Stp,
        ContentKind::Raw => Content::Raw,
        ContentKind::Trigger => Content::Trigger,
    };
    choices.hold_in(Some(source), &content)
}

/// Whether an event meets one of the choices, if there are any.
fn is_chosen(only: &Option<Choices>, event: &Event<Packet>) -> bool
    ensures { result ≡ meets only.now event.now }
{
    match only {
        None => true,
        Some(choices) => choices.hold_for(event),
    }
}

/// Whether the window, if there is one, is open after what it saw.
fn is_open(window: &Option<ChoiceWindow>) -> bool
    ensures { (es : List (Event Packet)) → SawAll window.now es → result ≡ is_open (bounds_in window.now) es }
{
    match window {
        None => true,
        Some(window) => window.is_open(),
    }
}

impl Filter {
    ghost use Rattle.capture_actions.specs.Filter.{HasSeen};

    /// What is asked of the events, none of which is seen yet.
    pub fn new(only: Option<Choices>, bounds: Option<Bounds>) -> Filter
        ensures only { result.only ≡ only }
        ensures bounds { bounds_in result.window ≡ bounds }
        ensures seen { HasSeen result [] }
    {
        let window = match bounds {
            None => None,
            Some(bounds) => Some(bounds.window()),
        };
        Filter { only, window }
    }

    /// There is no window: what is listed can be told from what a source gives, one by one.
    #[inline(always)]
    pub fn has_no_window(&self) -> bool
        ensures { IsTrue result ↔ (self.now.window ≡ None) }
    {
        self.window.is_none()
    }

    /// Whether this packet of a source meets one of the choices, if there are any. It is what `wants` answers, and the
    /// packet is in memory only where there are.
    #[inline(always)]
    pub fn wants_itm(&self, source: SourceId, packet: &ItmPacket) -> bool
        ensures { result ≡ wants self.now.only (Some source) (Itm packet.now) }
    {
        match &self.only {
            None => true,
            Some(choices) => hold_itm(choices, source, *packet),
        }
    }

    /// Whether this, which a source gives, meets one of the choices, if there are any.
    #[inline(always)]
    pub fn wants(&self, source: SourceId, kind: ContentKind) -> bool
        ensures { result ≡ wants self.now.only (Some source) (content_by kind) }
    {
        match &self.only {
            None => true,
            Some(choices) => hold_kind(choices, source, kind),
        }
    }

    /// Whether a guess is listed: one that meets one of the choices, if there are any, while the window, if there is
    /// one, is open. The window does not see it.
    pub fn lists_guess(&self, event: &Event<Packet>) -> bool
        ensures { (es : List (Event Packet)) → HasSeen self.now es →
            result ≡ (is_open (bounds_in self.now.window) es && meets self.now.only event.now) }
    {
        is_open(&self.window) && is_chosen(&self.only, event)
    }

    /// Whether an event is within the window, which takes it, if there is one, or is the notice of a lock, which the
    /// window does not see.
    #[inline]
    fn sees(window: &mut Option<ChoiceWindow>, event: &Event<Packet>) -> bool
        ensures same { is_none window.new ≡ is_none window.old }
        ensures bounds { bounds_in window.new ≡ bounds_in window.old }
        ensures seen { (es : List (Event Packet)) → SawAll window.old es → SawAll window.new (es ++ event.now ∷ []) }
        ensures answer { (es : List (Event Packet)) → SawAll window.old es →
            result ≡ (is_within (bounds_in window.old) es event.now || not (is_item event.now.what)) }
    {
        match window {
            None => true,
            Some(window) => match event.what {
                What::Locked(_) => true,
                What::Packet(_) | What::Raw(_) | What::Trigger(_) => window.see(event),
            },
        }
    }

    /// Takes the next event, and answers whether it is listed. Notices of locks are, and the window does not see them;
    /// it sees all other events, also those that meet none of the choices.
    #[tactic(auto, using(crate::proofs::Filtering::listed_where_met))]
    #[inline(always)]
    pub fn lists(&mut self, event: &Event<Packet>) -> bool
        ensures only { self.new.only ≡ self.old.only }
        ensures bounds { bounds_in self.new.window ≡ bounds_in self.old.window }
        ensures seen { (es : List (Event Packet)) → HasSeen self.old es → HasSeen self.new (es ++ event.now ∷ []) }
        ensures answer { (es : List (Event Packet)) → HasSeen self.old es →
            result ≡ is_listed self.old.only (bounds_in self.old.window) es event.now }
    {
        let is_within = Filter::sees(&mut self.window, event);
        is_within && meets(&self.only, event)
    }
}
