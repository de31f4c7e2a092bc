//! What counts the items of each source by the words with which their texts begin, as they come.

ghost use Rattle.std.specs.Prelude.{◌≡◌, ◌+◌, ◌*◌, ◌<◌, ◌++◌, ◌∷◌, [], ℕ, List, Some, None};
ghost use Rattle.capture_actions.specs.Names.{Event, Packet, EventFits, PacketFits};
ghost use Rattle.capture_actions.specs.Words.{word_of, number_of};
ghost use Rattle.capture_actions.specs.KindCounts.{HasCounted, number_at};

use crate::item_word::{ItemWord, WORD_COUNT};
use itm_grammar::packet::ItmPacket;
use recovering_machines::{Receiver, seen};
use source_events::{Event, Packet, SourceKind};
use stp_grammar::said::Said;
use stretch_readings::Heard;
use trace_values::{ID_COUNT, SourceId};

/// A number for each word of each source.
const NUMBERS: usize = ID_COUNT * WORD_COUNT;

/// Events that are only counted need no room: more than those of any piece.
pub(crate) const MANY: usize = 1 << 40;

/// How many items of each word each source sent, up to 2^64 - 1.
#[derive(Drop)]
pub struct KindCounts {
    numbers: [u64; NUMBERS],
}

/// The place of the number of this word of this source.
#[inline(always)]
fn place_of(id: SourceId, word: ItemWord) -> usize
    ensures place { result ≡ WORD_COUNT * id + number_of word }
    ensures within { result < NUMBERS }
{
    WORD_COUNT * usize::from(id.number()) + word.number()
}

impl KindCounts {
    /// No event came yet.
    pub fn new() -> KindCounts
        ensures { HasCounted result [] }
    {
        KindCounts {
            numbers: [0; NUMBERS],
        }
    }

    /// How many items of this word this source sent.
    pub fn of(&self, id: SourceId, word: ItemWord) -> u64
        ensures { result ≡ number_at self.now id (number_of word) }
    {
        self.numbers[place_of(id, word)]
    }

    /// Counts an item of this word of this source.
    #[inline(always)]
    pub fn add(&mut self, id: SourceId, word: ItemWord)
        ensures { (es : List (Event Packet)) (event : Event Packet) → event.source ≡ Some id →
            word_of event.what ≡ Some word → HasCounted self.old es → HasCounted self.new (es ++ event ∷ []) }
    {
        let place = place_of(id, word);
        self.numbers[place] = self.numbers[place].saturating_add(1);
    }

    /// An event of no source, or which is no item, leaves the counts as they are.
    #[inline(always)]
    pub fn pass(&self)
        ensures source { (es : List (Event Packet)) (event : Event Packet) → event.source ≡ None →
            HasCounted self.now es → HasCounted self.now (es ++ event ∷ []) }
        ensures notice { (es : List (Event Packet)) (event : Event Packet) → word_of event.what ≡ None →
            HasCounted self.now es → HasCounted self.now (es ++ event ∷ []) }
    {}

    /// Counts the next event.
    #[inline]
    fn add_event(&mut self, event: &Event<Packet>)
        requires fits { EventFits PacketFits event.now }
        ensures { (es : List (Event Packet)) → HasCounted self.old es → HasCounted self.new (es ++ event.now ∷ []) }
    {
        match (event.source, ItemWord::of_event(event)) {
            (Some(id), Some(word)) => self.add(id, word),
            _ => self.pass(),
        }
    }
}

/// Of all events only their number is kept.
impl Receiver for KindCounts {
    ghost use Rattle.capture_actions.specs.KindCounts.{gets, room};
    ghost use Rattle.capture_actions.specs.KindCountsLaws.{adds_up};
    ghost use Rattle.recovering_machines.specs.Hearing.{takes_seen};
    ghost use Rattle.recovering_machines.specs.HearingLaws.{seen_adds_up};

    type To = ();

    ghost gets = { λ old es new. takes_seen gets old es new };

    ghost room = { room };

    ghost adds_up = { seen_adds_up gets adds_up };

    ghost takes_on = { λ a b es source kind g t. t };

    #[inline(always)]
    fn give(&mut self, _to: &mut (), event: Event<Heard<Packet>>) {
        if let Some(event) = seen(event) {
            self.add_event(&event);
        }
    }

    #[inline(always)]
    fn events_left(&self, _to: &()) -> usize {
        MANY
    }

    #[inline(always)]
    fn takes_told(&self, _source: SourceId, _kind: SourceKind) -> bool {
        true
    }

    #[inline(always)]
    fn give_itm(&mut self, _to: &mut (), _at: u64, _half: u8, source: SourceId, packet: ItmPacket) {
        self.add(source, ItemWord::of_packet(&packet));
    }

    #[inline(always)]
    fn give_said(&mut self, _to: &mut (), _at: u64, _half: u8, source: SourceId, said: Said) {
        if let Some(item) = said.item() {
            self.add(source, ItemWord::of_item(&item));
        }
    }

    #[inline(always)]
    fn give_raw(&mut self, _to: &mut (), _at: u64, source: SourceId, _bytes: &[u8]) {
        self.add(source, ItemWord::Raw);
    }

    #[inline(always)]
    fn give_trigger(&mut self, _to: &mut (), _at: u64, source: SourceId, _byte: u8) {
        self.add(source, ItemWord::Trigger);
    }
}
