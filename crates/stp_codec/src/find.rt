//! What the next bytes of a source are to an unfinished packet, found without taking one that ends: of whole frames,
//! most significant nibbles first.

ghost use Rattle.std.specs.Prelude.{◌≡◌, ◌<◌, ◌≤◌, true, length, take, [], ◌∷◌, ◌++◌, ℕ, ◌+◌, ◌*◌, List, None};
ghost use Rattle.stp_codec.specs.Wholes.{nibbles_in, Fronts};
ghost use Rattle.stp_codec.specs.declared.flat.TheConstants.{WINDOW};
ghost use Rattle.stp_codec.specs.Names.{Placed, units_of, Passes};
ghost use Rattle.stp_codec.specs.Reading.{items_in};
ghost use Rattle.stp_codec.specs.Decoder.{Stands, order_of, is_hunter, is_live, partial_of, Copies, HoldsAhead};
ghost use Rattle.stp_codec.specs.Decoder.{IsReady, Idles, Finds, Stays, held_of, skipped_by, FinishesParts};
ghost use Rattle.trace_values.specs.declared.taking.Found.TheVariants.{Ends, Waits};
ghost use Rattle.stp_codec.specs.declared.flat.PacketParts.{PacketParts};

use crate::decoder::{MANY, StpDecoder};
use crate::flat::{PacketParts, WINDOW};
use crate::run::parts_in;
use trace_values::Found;

/// The first of these bytes, as many as the decoder copies. How many they are is known where the code is built, so that
/// nothing is tested.
#[inline(always)]
fn window_in(ahead: &[u8]) -> &[u8; WINDOW]
    requires { WINDOW ≤ length ahead.now }
    ensures { result.now ≡ take WINDOW ahead.now }
{
    ahead[..WINDOW].first_chunk::<WINDOW>().unwrap()
}

/// Puts these bytes behind the first `from`. They are put one by one, from a copy, which becomes a few stores of whole
/// words: a copy of a slice asks first whether the two overlap.
#[inline(always)]
fn put_window(held: &mut [u8], from: usize, window: &[u8; WINDOW])
    requires room { from + WINDOW ≤ length held.old }
    ensures { take (from + WINDOW) held.new ≡ take from held.old ++ window.now }
{
    for index in 0..WINDOW {
        held[from + index] = window[index];
    }
}

impl StpDecoder {
    /// A packet that begins or has begun can be read as numbers. It is live.
    #[inline(always)]
    fn is_ready(&self) -> bool
        requires { is_live self.now ≡ true }
        ensures { result ≡ true → IsReady self.now }
    {
        self.first < MANY
    }

    /// Copies bytes behind those that wait.
    #[inline(always)]
    fn hold(&mut self, ahead: &[u8])
        requires ahead { WINDOW ≤ length ahead.now }
        ensures { Copies self.old self.new ahead.now }
    {
        let window = *window_in(ahead);
        put_window(&mut self.held, self.waiting, &window);
    }

    /// Lets the first `count` of these bytes wait. They are behind those that wait already, and within the packet.
    #[inline(always)]
    fn wait(&mut self, _ahead: &[u8], count: usize) -> Found<PacketParts>
        requires ready { IsReady self.old }
        requires some { 0 < count }
        requires few { self.old.waiting + count ≤ WINDOW }
        requires ahead { count ≤ length _ahead.now }
        requires held { HoldsAhead self.old _ahead.now count }
        requires fronts { Fronts (order_of self.old) (partial_of self.old) (nibbles_in (take count _ahead.now)) }
        ensures stays { Stays self.old self.new }
        ensures found { Finds self.old self.new _ahead.now count result }
    {
        self.waiting += count;
        Found::Waits
    }

    /// Finds what the first `count` of these bytes are, where no bytes wait.
    #[inline(always)]
    fn find_fresh(&mut self, ahead: &[u8], count: usize) -> Found<PacketParts>
        requires ready { IsReady self.old }
        requires settled { self.old.waiting ≡ 0 }
        requires some { 0 < count }
        requires ahead { count + WINDOW ≤ length ahead.now }
        ensures stays { Stays self.old self.new }
        ensures found { Finds self.old self.new ahead.now count result }
    {
        let Some(parts) = parts_in(self.first, ahead, 2 * count) else {
            return Found::Unknown;
        };
        if parts.nibbles <= 2 * count {
            return Found::Ends(parts);
        }
        if count >= WINDOW {
            return Found::Unknown;
        }
        self.hold(ahead);
        self.wait(ahead, count)
    }

    /// Finds what the first `count` of these bytes are, which are behind those that wait.
    #[inline(always)]
    fn find_held(&mut self, ahead: &[u8], count: usize) -> Found<PacketParts>
        requires ready { IsReady self.old }
        requires some { 0 < count }
        requires ahead { count + WINDOW ≤ length ahead.now }
        requires held { (more : ℕ) → more ≤ WINDOW → HoldsAhead self.old ahead.now more }
        ensures stays { Stays self.old self.new }
        ensures found { Finds self.old self.new ahead.now count result }
    {
        let before = 2 * self.waiting;
        let Some(parts) = parts_in(self.first, &self.held[..WINDOW], before + 2 * count) else {
            return Found::Unknown;
        };
        if parts.nibbles <= before + 2 * count {
            return Found::Ends(parts.after(before));
        }
        self.wait(ahead, count)
    }

    /// Finds what the first `count` of these bytes are, where a packet that begins or has begun can be read as numbers.
    #[inline(always)]
    fn find_ready(&mut self, ahead: &[u8], count: usize) -> Found<PacketParts>
        requires ready { IsReady self.old }
        requires some { 0 < count }
        requires ahead { count + WINDOW ≤ length ahead.now }
        ensures stays { Stays self.old self.new }
        ensures found { Finds self.old self.new ahead.now count result }
    {
        if self.waiting == 0 {
            return self.find_fresh(ahead, count);
        }
        self.hold(ahead);
        self.find_held(ahead, count)
    }

    /// Finds at once what the first `count` of these bytes are, wherever they are: they end the unfinished packet, or
    /// all of them are taken. What the bytes after them are is of no account, but there are `WINDOW` of them, more than
    /// the longest packet of a row has. It is live.
    ///
    /// A packet that ends is not taken: `end_part` does that, given the same bytes. `Unknown` says nothing of them, and
    /// it stands as before: `take_part` reads them.
    #[inline(always)]
    pub fn find_part(&mut self, ahead: &[u8], count: usize) -> Found<PacketParts>
        requires live { is_live self.old ≡ true }
        requires ahead { count + WINDOW ≤ length ahead.now }
        ensures stays { Stays self.old self.new }
        ensures ends { (parts : PacketParts) → result ≡ Ends parts →
            FinishesParts self.new ahead.now parts × (0 < parts.nibbles) × (parts.nibbles ≤ 2 * count) }
        ensures idles { (result ≡ Waits → ⊥) → Idles self.old self.new }
        ensures waits { result ≡ Waits → (0 < count) × (held_of self.new + skipped_by self.new ≤
            held_of self.old + skipped_by self.old + 2 * count) }
        ensures passes { (u front : List Placed) (last : Placed) → Stands self.old u → result ≡ Waits →
            units_of (front ++ last ∷ []) ≡ take count ahead.now →
            Passes (items_in (order_of self.old) (is_hunter self.old)) (Stands self.new) u front last None }
    {
        if count > 0 && self.is_ready() {
            self.find_ready(ahead, count)
        } else {
            Found::Unknown
        }
    }
}
