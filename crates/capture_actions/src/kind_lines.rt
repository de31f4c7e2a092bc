//! The lines of all sources with the kinds of their items, which are put part by part.

ghost use Rattle.std.specs.Prelude.{◌≡◌, ◌+◌, ◌*◌, ◌≤◌, ◌++◌, List, decimal, length, ℕ};
ghost use Rattle.capture_actions.specs.Names.{ID_COUNT};
ghost use Rattle.capture_actions.specs.Kinds.{kind_text, kinds_text, words_text};
ghost use Rattle.capture_actions.specs.KindCounts.{number_at};
ghost use Rattle.capture_actions.specs.Words.{all_words, number_of};

use crate::check::put_source_line;
use crate::item_word::{ItemWord, WORD_COUNT, WORDS};
use crate::kind_counts::KindCounts;
use itoa::Buffer;
use source_counts::Counts;
use source_events::Plan;
use trace_stream::{ACTION_ROOM, OUTLET_ROOM, Outlet};
use trace_values::{ID_COUNT, SourceId};

/// The most bytes of a number.
const NUMBER_ROOM: usize = 20;

/// The most bytes of the line of a kind.
const KIND_ROOM: usize = 2 * NUMBER_ROOM + 17;

/// The most bytes of the lines of the kinds of a source.
const KINDS_ROOM: usize = WORD_COUNT * KIND_ROOM;

/// The parts that are put: the lines of each source, and what comes after them.
const PARTS: u8 = ID_COUNT as u8 + 1;

/// A source of which nothing is counted.
pub(crate) const NONE: Counts = Counts { bytes: 0, items: 0 };

/// Puts a number.
fn put_number(outlet: &mut Outlet, number: u64)
    requires room { length outlet.old + NUMBER_ROOM ≤ OUTLET_ROOM }
    ensures text { outlet.new ≡ outlet.old ++ decimal number }
    ensures bound { length outlet.new ≤ length outlet.old + NUMBER_ROOM }
{
    let mut buffer = Buffer::new();
    outlet.append(buffer.format(number).as_bytes());
}

/// Puts the line of a word that occurred.
fn put_kind(outlet: &mut Outlet, id: SourceId, word: ItemWord, count: u64)
    requires room { length outlet.old + KIND_ROOM ≤ OUTLET_ROOM }
    ensures text { outlet.new ≡ outlet.old ++ kind_text id word count }
    ensures bound { length outlet.new ≤ length outlet.old + KIND_ROOM }
{
    if count != 0 {
        put_number(outlet, u64::from(id.number()));
        outlet.append(b" kind ");
        outlet.append(word.text().as_bytes());
        outlet.push(b' ');
        put_number(outlet, count);
        outlet.push(b'\n');
    }
}

/// Puts the lines of the words that occurred in this source.
fn put_words(outlet: &mut Outlet, id: SourceId, kinds: &KindCounts)
    requires room { length outlet.old + KINDS_ROOM ≤ OUTLET_ROOM }
    ensures text { outlet.new ≡
        outlet.old ++ words_text id (λ word. number_at kinds.now id (number_of word)) all_words }
    ensures bound { length outlet.new ≤ length outlet.old + KINDS_ROOM }
{
    let words = WORDS;
    for word in &words {
        put_kind(outlet, id, *word, kinds.of(id, *word));
    }
}

/// Puts the lines of the words that occurred in this source, if it is mapped.
fn put_kinds(outlet: &mut Outlet, id: SourceId, plan: &Plan, kinds: &KindCounts)
    requires room { length outlet.old + KINDS_ROOM ≤ OUTLET_ROOM }
    ensures text { outlet.new ≡
        outlet.old ++ kinds_text plan.now id (λ word. number_at kinds.now id (number_of word)) }
    ensures bound { length outlet.new ≤ length outlet.old + KINDS_ROOM }
{
    if plan.kind_of(id).is_some() {
        put_words(outlet, id, kinds);
    }
}

/// What a call has put of the lines.
#[derive(Clone, Copy, Drop)]
pub enum Part {
    /// Nothing: all is put.
    Nothing,
    /// The lines of a source.
    Source,
    /// Nothing: those of all sources are put, and what comes after them is the caller's to put now.
    Last,
}

/// How much each source sent, and how many parts are still to be put: the lines of each source, from 0 to 126, and what
/// comes after them, which is the caller's. A call puts a part.
#[derive(Drop)]
pub struct KindLines {
    counts: [Counts; ID_COUNT],
    left: u8,
    ghost few: { left ≤ ID_COUNT + 1 },
}

impl KindLines {
    ghost use Rattle.std.specs.Prelude.{get_or};
    ghost use Rattle.source_events.specs.declared.plan.Plan.{Plan};
    ghost use Rattle.trace_stream.specs.Debt.{Paid, with_debt};
    ghost use Rattle.capture_actions.specs.Kinds.{lines_by};
    ghost use Rattle.capture_actions.specs.KindLines.{PutsPart, counted_line, line_of, owed};
    ghost use Rattle.capture_actions.specs.declared.kind_counts.KindCounts.{KindCounts};

    /// Nothing is to be put.
    pub fn new() -> KindLines
        ensures { (plan : Plan) (kinds : KindCounts) (last : List ℕ) → owed plan kinds result last ≡ Paid }
    {
        KindLines {
            counts: [NONE; ID_COUNT],
            left: 0,
        }
    }

    /// All parts are to be put, of sources that sent so much.
    pub fn of(counts: [Counts; ID_COUNT]) -> KindLines
        ensures { (plan : Plan) (kinds : KindCounts) (last held : List ℕ) →
            with_debt held (owed plan kinds result last) ≡
            held ++ (lines_by (counted_line plan kinds counts) 0 ID_COUNT ++ last) }
    {
        KindLines {
            counts,
            left: PARTS,
        }
    }

    /// Puts the lines of this source.
    fn put_lines(&self, plan: &Plan, kinds: &KindCounts, outlet: &mut Outlet, id: SourceId)
        requires room { length outlet.old + ACTION_ROOM ≤ OUTLET_ROOM }
        ensures { outlet.new ≡ outlet.old ++ line_of plan.now kinds.now self.now id }
    {
        put_source_line(outlet, id, self.counts[usize::from(id.number())]);
        put_kinds(outlet, id, plan, kinds);
    }

    /// Puts the lines of the source of this number.
    fn put_source(&self, plan: &Plan, kinds: &KindCounts, outlet: &mut Outlet, number: u8)
        requires source { number ≤ 126 }
        requires room { length outlet.old + ACTION_ROOM ≤ OUTLET_ROOM }
        ensures { outlet.new ≡ outlet.old ++ line_of plan.now kinds.now self.now number }
    {
        match SourceId::new(number) {
            Some(id) => self.put_lines(plan, kinds, outlet, id),
            None => {}
        }
    }

    /// Puts the next part, with these counts of kinds, or tells that the last one is the caller's to put.
    pub fn pour(&mut self, plan: &Plan, kinds: &KindCounts, outlet: &mut Outlet) -> Part
        requires room { length outlet.old + ACTION_ROOM ≤ OUTLET_ROOM }
        ensures { PutsPart result (owed plan.now kinds.now self.old) (owed plan.now kinds.now self.new)
            outlet.old outlet.new }
    {
        if self.left == 0 {
            return Part::Nothing;
        }
        self.left -= 1;
        if self.left == 0 {
            return Part::Last;
        }
        self.put_source(plan, kinds, outlet, ID_COUNT as u8 - self.left);
        Part::Source
    }
}
