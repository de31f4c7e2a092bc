//! Choices of events in words.

ghost use Rattle.std.specs.Prelude.{◌≡◌};
ghost use Rattle.std.proofs.Common.{rules};
ghost use Rattle.decimal_words.specs.Numbers.{number_after};
ghost use Rattle.capture_words.specs.Values.{kind_named, choice_named, window_named};

use crate::list::Listed;
use crate::values::u8_named;
use decimal_words::{id_named, text_after};
use item_tap::{Bounds, Choice, Choices, Kind, MOST_CHOICES};
use trace_values::SourceId;

/// The kind of events of this name.
fn kind_named(name: &str) -> Option<Kind>
    ensures { result ≡ kind_named name.now }
{
    match name {
        "itm" => Some(Kind::Itm),
        "dwt" => Some(Kind::Dwt),
        "stp" => Some(Kind::Stp),
        "raw" => Some(Kind::Raw),
        "trigger" => Some(Kind::Trigger),
        _ => None,
    }
}

/// The source, 1 to 126, whose number comes after this front of a text.
fn source_after(front: &str, text: &str) -> Option<SourceId>
    ensures { result ≡ number_after front.now 1 126 text.now }
{
    id_named(1, 126, text_after(front, text)?)
}

/// The stimulus port or the comparator, from 0 to `greatest`, whose number comes after this front of a text.
fn place_after(front: &str, greatest: u8, text: &str) -> Option<u8>
    ensures { result ≡ number_after front.now 0 greatest text.now }
{
    u8_named(0, greatest, text_after(front, text)?)
}

/// The choice of this text: a kind of events, `time`, `id=N` with N from 1 to 126, `port=N` with N from 0 to 31, or
/// `cmp=N` with N from 0 to 3.
pub fn choice_named(text: &str) -> Option<Choice>
    ensures { result ≡ choice_named text.now }
{
    if let Some(kind) = kind_named(text) {
        return Some(Choice::OfKind(kind));
    }
    if text == "time" {
        return Some(Choice::Time);
    }
    if let Some(id) = source_after("id=", text) {
        return Some(Choice::Source(id));
    }
    if let Some(port) = place_after("port=", 31, text) {
        return Some(Choice::Port(port));
    }
    Some(Choice::Comparator(place_after("cmp=", 3, text)?))
}

impl Listed for Choices {
    type Item = Choice;

    ghost named = { choice_named };

    ghost items = { λ choices. choices };

    ghost MOST = { 8 };

    const MOST: usize = MOST_CHOICES;

    ghost has_room = { Prim.search rules };

    fn item_named(text: &str) -> Option<Choice> {
        choice_named(text)
    }

    fn of(choice: Choice) -> Choices {
        Choices::new(choice)
    }

    fn count(&self) -> usize {
        self.as_slice().len()
    }

    fn add(&mut self, choice: Choice) {
        self.push(choice);
    }
}

/// The window of this text: two choices with a comma between them.
pub fn window_named(text: &str) -> Option<Bounds>
    ensures { result ≡ window_named text.now }
{
    match text.split_once(',') {
        Some((first, last)) => {
            let first = choice_named(first)?;
            let last = choice_named(last)?;
            Some(Bounds { first, last })
        }
        None => None,
    }
}
