//! The words of items' texts.

ghost use Rattle.std.specs.Prelude.{◌≡◌, map};
ghost use Rattle.script_text.specs.Words.{texts};
ghost use Rattle.script_text.specs.Shapes.{seen, allows, fits as fitting, shape_named, row_seen, texts_seen};
ghost use Rattle.script_text.specs.Shapes.{rows_in, first_row, first_fitting as fitting_first, shapes_named};

use crate::dwt_shapes::DwtShape;
use crate::itm_shapes::ItmShape;
use crate::stp_shapes::StpShape;
use dwt_packets::Change;
use itm_grammar::packet::{Lateness, Size};
use stp_grammar::packet::Width;

/// A word of an item's text.
#[derive(Clone, Copy, Drop)]
pub enum Field {
    /// This very word.
    Word(&'static str),
    /// A number, or a timestamp.
    Number,
}

/// What the fixed words of an item's text tell.
#[derive(Clone, Copy, Drop)]
pub enum Shape {
    Itm(ItmShape),
    Dwt(DwtShape),
    Stp(StpShape),
    /// `raw` and bytes.
    Raw,
}

impl Field {
    /// Whether it may be this word: where a word is fixed, it is that one.
    fn allows(&self, word: &[u8]) -> bool
        ensures { result ≡ allows (seen self.now) word.now }
    {
        match self {
            Field::Word(fixed) => fixed.as_bytes() == word,
            Field::Number => true,
        }
    }
}

/// Whether these are as many words, each of which may be there.
fn fits(fields: &[Field], words: &[&[u8]]) -> bool
    ensures { result ≡ fitting (map seen fields.now) (texts words.now) }
{
    match fields {
        [] => words.is_empty(),
        [field, fields @ ..] => match words {
            [] => false,
            [word, words @ ..] => field.allows(word) && fits(fields, words),
        },
    }
}

/// What a text may be after its first word: its shape, and its words.
type Row = (Shape, &'static [Field]);

/// The first word of texts, and what they may be after it.
type Texts = (&'static str, &'static [Row]);

macro_rules! field {
    (_) => {
        Field::Number
    };
    ($word:literal) => {
        Field::Word($word)
    };
}

macro_rules! texts {
    ($($first:literal: $($shape:expr => [$($field:tt)*]),+;)*) => {
        [$(($first, &[$(($shape, &[$(field!($field)),*])),+])),*]
    };
}

/// The texts of items by their first words, with `_` for a number or a timestamp.
static TEXTS: [Texts; 23] = texts! {
    "sync": Shape::Itm(ItmShape::Sync) => [];
    "overflow": Shape::Itm(ItmShape::Overflow) => [];
    "port":
        Shape::Itm(ItmShape::Software(Size::One)) => [_ "u8" _],
        Shape::Itm(ItmShape::Software(Size::Two)) => [_ "u16" _],
        Shape::Itm(ItmShape::Software(Size::Four)) => [_ "u32" _];
    "local":
        Shape::Itm(ItmShape::Local(Lateness::Exact)) => ["exact" _],
        Shape::Itm(ItmShape::Local(Lateness::StampLate)) => ["stamp-late" _],
        Shape::Itm(ItmShape::Local(Lateness::PacketLate)) => ["packet-late" _],
        Shape::Itm(ItmShape::Local(Lateness::BothLate)) => ["both-late" _];
    "global1": Shape::Itm(ItmShape::GlobalFirst) => [_ _ _ _];
    "global2":
        Shape::Itm(ItmShape::GlobalSecond(false)) => ["48" _],
        Shape::Itm(ItmShape::GlobalSecond(true)) => ["64" _];
    "ext":
        Shape::Itm(ItmShape::Extension(false)) => ["itm" _],
        Shape::Itm(ItmShape::Extension(true)) => ["dwt" _];
    "counters": Shape::Dwt(DwtShape::Counters) => [_];
    "exception":
        Shape::Dwt(DwtShape::Exception(Change::Enter)) => [_ "enter"],
        Shape::Dwt(DwtShape::Exception(Change::Exit)) => [_ "exit"],
        Shape::Dwt(DwtShape::Exception(Change::Return)) => [_ "return"];
    "pc": Shape::Dwt(DwtShape::Sample) => [_];
    "asleep": Shape::Dwt(DwtShape::Asleep) => [];
    "cmp":
        Shape::Dwt(DwtShape::MatchPc) => [_ "pc" _],
        Shape::Dwt(DwtShape::MatchAddress) => [_ "addr" _],
        Shape::Dwt(DwtShape::Read(Size::One)) => [_ "read" "u8" _],
        Shape::Dwt(DwtShape::Read(Size::Two)) => [_ "read" "u16" _],
        Shape::Dwt(DwtShape::Read(Size::Four)) => [_ "read" "u32" _],
        Shape::Dwt(DwtShape::Written(Size::One)) => [_ "write" "u8" _],
        Shape::Dwt(DwtShape::Written(Size::Two)) => [_ "write" "u16" _],
        Shape::Dwt(DwtShape::Written(Size::Four)) => [_ "write" "u32" _];
    "hw":
        Shape::Dwt(DwtShape::Other(Size::One)) => [_ "u8" _],
        Shape::Dwt(DwtShape::Other(Size::Two)) => [_ "u16" _],
        Shape::Dwt(DwtShape::Other(Size::Four)) => [_ "u32" _];
    "async": Shape::Stp(StpShape::Async) => [];
    "version": Shape::Stp(StpShape::Version) => [_];
    "merr": Shape::Stp(StpShape::MasterError) => [_ _ _];
    "gerr": Shape::Stp(StpShape::GlobalError) => [_];
    "data":
        Shape::Stp(StpShape::Datum(Width::Four, false)) => [_ _ "u4" _ "-" _],
        Shape::Stp(StpShape::Datum(Width::Four, true)) => [_ _ "u4" _ "m" _],
        Shape::Stp(StpShape::Datum(Width::Eight, false)) => [_ _ "u8" _ "-" _],
        Shape::Stp(StpShape::Datum(Width::Eight, true)) => [_ _ "u8" _ "m" _],
        Shape::Stp(StpShape::Datum(Width::Sixteen, false)) => [_ _ "u16" _ "-" _],
        Shape::Stp(StpShape::Datum(Width::Sixteen, true)) => [_ _ "u16" _ "m" _],
        Shape::Stp(StpShape::Datum(Width::ThirtyTwo, false)) => [_ _ "u32" _ "-" _],
        Shape::Stp(StpShape::Datum(Width::ThirtyTwo, true)) => [_ _ "u32" _ "m" _],
        Shape::Stp(StpShape::Datum(Width::SixtyFour, false)) => [_ _ "u64" _ "-" _],
        Shape::Stp(StpShape::Datum(Width::SixtyFour, true)) => [_ _ "u64" _ "m" _];
    "flag": Shape::Stp(StpShape::Flag) => [_ _ _];
    "trig": Shape::Stp(StpShape::Trigger) => [_ _];
    "freq": Shape::Stp(StpShape::Frequency) => [_ _];
    "nullts": Shape::Stp(StpShape::NullStamp) => [_];
    "raw": Shape::Raw => [_];
};

/// What texts may be after this first word.
fn rows_in(all: &[Texts], word: &[u8]) -> &'static [Row]
    ensures { map row_seen result.now ≡ rows_in (map texts_seen all.now) word.now }
{
    for texts in all {
        let (first, rows) = *texts;
        if word == first.as_bytes() {
            return rows;
        }
    }
    &[]
}

/// The shape of the first of these rows that such words have, after the first word.
fn first_fitting(rows: &[Row], words: &[&[u8]]) -> Option<Shape>
    ensures { result ≡ first_row (map row_seen rows.now) (texts words.now) }
{
    for row in rows {
        let (shape, fields) = *row;
        if fits(fields, words) {
            return Some(shape);
        }
    }
    None
}

/// The shape of the item of this word and of these after it.
fn shape_after(word: &[u8], words: &[&[u8]]) -> Option<Shape>
    ensures { result ≡ fitting_first (shapes_named word.now) (texts words.now) }
{
    first_fitting(rows_in(&TEXTS, word), words)
}

/// The shape of the item of these words.
#[tactic(auto, unfolding(crate::specs::Shapes::shape_named))]
pub fn shape_of(words: &[&[u8]]) -> Option<Shape>
    ensures { result ≡ shape_named (texts words.now) }
{
    match words {
        [] => None,
        [word, words @ ..] => shape_after(word, words),
    }
}
