//! Rows of `trace_funnel`.

ghost use Rattle.std.specs.Prelude.{◌≡◌, ◌≤◌, length, ◌==◌};
ghost use Rattle.std.specs.List.{list_any};
ghost use Rattle.trace_funnel.specs.Order.{are_apart};

use crate::notation::Words;
use crate::out::Out;
use arrayvec::ArrayVec;
use trace_funnel::{Funnel, MOST_PLACES, Tagged, TurnOrder};
use trace_values::SourceId;

/// Adds the source of a word, if it is one and there is room for it.
fn add_id(word: &str, order: &mut TurnOrder) {
    if let Some(id) = (Words { rest: word }).source() {
        if order.as_slice().len() < MOST_PLACES {
            order.push(id);
        }
    }
}

/// The sources `ID,ID,..`.
fn order_of(word: &str) -> TurnOrder {
    let mut order = TurnOrder::new();
    for id in word.split(',') {
        add_id(id, &mut order);
    }
    order
}

/// Whether the ID is one of these.
fn is_among(id: SourceId, ids: &[SourceId]) -> bool
    ensures { result ≡ list_any (λ x. x == id) ids.now }
{
    ids.iter().any(|other| *other == id)
}

/// Whether these IDs are from 1 to 126, and none is twice there.
fn are_apart(ids: &[SourceId]) -> bool
    ensures { result ≡ are_apart ids.now }
{
    let Some((id, rest)) = ids.split_first() else {
        return true;
    };
    if id.number() < 1 {
        return false;
    }
    if is_among(*id, rest) {
        return false;
    }
    are_apart(rest)
}

/// Writes bytes that were given.
fn put_given(given: &[Tagged], out: &mut Out) {
    for tagged in given {
        out.put_value(" ", &tagged.id.number());
        out.put(":");
        out.put_digits(&[tagged.byte]);
    }
}

/// A funnel, and how many places it has.
#[derive(Drop)]
struct Places {
    funnel: Funnel,
    count: usize,
    ghost all: { count ≤ length funnel.order },
}

impl Places {
    /// Offers a byte of this place, and writes what is given.
    fn offer(&mut self, place: usize, byte: u8, out: &mut Out) {
        if place < self.count {
            let mut given = ArrayVec::new();
            self.funnel.offer(place, byte, &mut given);
            put_given(given.as_slice(), out);
        }
    }

    /// Makes a turn, and writes what is given.
    fn turn(&mut self, out: &mut Out) {
        let mut given = ArrayVec::new();
        self.funnel.turn(&mut given);
        put_given(given.as_slice(), out);
    }

    /// Offers the bytes of `PLACE:HH..`, of which the first place is 0, or makes a turn for another word.
    fn act(&mut self, word: &str, out: &mut Out) {
        let Some((place, digits)) = word.split_once(':') else {
            return self.turn(out);
        };
        let place = Words { rest: place }.byte() as usize;
        let bytes = Words { rest: digits }.bytes(out);
        for byte in &bytes {
            self.offer(place, *byte, out);
        }
    }

    /// Writes how long each place waits.
    fn put_waited(&self, out: &mut Out) {
        out.put(" waited");
        for place in 0..self.count {
            out.put_value(" ", &self.funnel.waited(place));
        }
        out.put("\n");
    }

    /// Does what the words say, and writes for each what is given and how long each place waits then.
    fn act_all(mut self, words: &str, out: &mut Out) {
        for word in words.split(' ') {
            out.put("  gave");
            self.act(word, out);
            self.put_waited(out);
        }
    }
}

/// `acts ORDER HOLD DEPTH ACT ACT ..`: what a funnel of the sources `ID,ID,..` gives.
fn acts(mut words: Words<'_>, out: &mut Out) {
    let order = order_of(words.word());
    let (hold, depth) = (words.byte(), words.half() as usize);
    let count = order.as_slice().len();
    if count < 1
        || !are_apart(order.as_slice())
        || hold < 1
        || hold > 15
        || depth < 1
        || depth > 4096
    {
        return out.put("  ? no funnel\n");
    }
    match Funnel::new(out.alloc, order.as_array(), hold, depth) {
        Ok(funnel) => Places { funnel, count }.act_all(words.rest, out),
        Err(_) => out.fail(),
    }
}

/// Runs the row of this call.
pub fn run(call: &str, words: Words<'_>, out: &mut Out) {
    match call {
        "acts" => acts(words, out),
        _ => out.put("  ? no such call\n"),
    }
}
