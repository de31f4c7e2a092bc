//! The lines of scripts (this project's profile).

ghost use Rattle.std.specs.Prelude.{◌≡◌, Err, IfOk, OnErr, OnOk};
ghost use Rattle.script_text.specs.Names.{kind_of};
ghost use Rattle.script_text.specs.Words.{texts};
ghost use Rattle.script_text.specs.Lines.{taken_by, line_of_shape, line_of_words as line_in, line_of};
ghost use Rattle.script_text.specs.Lines.{by_words, line_of_words, answer};
ghost use Rattle.script_text.specs.Said.{IsSaid};

use crate::dwt_shapes::dwt_of;
use crate::items::Item;
use crate::itm_shapes::itm_of;
use crate::line_fault::LineFault;
use crate::raw_bytes::raw_of;
use crate::shapes::{Shape, shape_of};
use crate::stp_shapes::stp_of;
use crate::words::{Words, put_words};
use decimal_words::id_in;
use source_events::{Plan, SourceKind};
use trace_values::SourceId;

/// A line of a script.
#[derive(Debug, Drop)]
pub enum Line {
    /// An empty line, or a remark: it begins with `#`.
    Nothing,
    /// An item of this source, 1 to 126.
    Of { id: SourceId, item: Item },
}

/// The most bytes of a line, without its line feed.
pub const LINE_BYTES: usize = 256;

/// The source that is never raw: its bytes are triggers.
pub const TRIGGER_SOURCE: u8 = 125;

/// Whether an item is one that its source can have, by what the source sends; bytes are of a source that is not mapped.
#[inline(always)]
fn takes(kind: Option<SourceKind>, id: SourceId, item: &Item) -> Result<(), LineFault>
    ensures { taken_by kind id item.now ≡ answer result (Line.Of id item.now) }
{
    match item {
        Item::Itm(_) | Item::Dwt(_) => match kind {
            Some(SourceKind::Itm) => Ok(()),
            Some(SourceKind::Stp) => Err(LineFault::Mixed),
            None => Err(LineFault::Unmapped),
        },
        Item::Stp(_) => match kind {
            Some(SourceKind::Stp) => Ok(()),
            Some(SourceKind::Itm) => Err(LineFault::Mixed),
            None => Err(LineFault::Unmapped),
        },
        Item::Raw(_) if kind.is_some() || id.number() == TRIGGER_SOURCE => Err(LineFault::Mixed),
        Item::Raw(_) => Ok(()),
    }
}

/// The item of a source, where the source is one for it. At a fault `said` is as before.
#[inline(always)]
fn take_item(
    kind: Option<SourceKind>,
    id: SourceId,
    item: Item,
    said: &mut Line,
) -> Result<(), LineFault>
    ensures value { taken_by kind id item ≡ answer result said.new }
    ensures same { OnErr result (said.new ≡ said.old) }
{
    takes(kind, id, &item)?;
    *said = Line::Of { id, item };
    Ok(())
}

/// The item of this shape and of these words, where its source is one for it. At a fault `said` is as before.
fn read_shape(
    shape: Shape,
    kind: Option<SourceKind>,
    id: SourceId,
    words: &[&[u8]],
    said: &mut Line,
) -> Result<(), LineFault>
    ensures value { line_of_shape kind id shape (texts words.now) ≡ answer result said.new }
    ensures same { OnErr result (said.new ≡ said.old) }
{
    match shape {
        Shape::Itm(shape) => {
            let packet = itm_of(shape, words).ok_or(LineFault::BadNumber)?;
            take_item(kind, id, Item::Itm(packet), said)
        }
        Shape::Dwt(shape) => {
            let packet = dwt_of(shape, words).ok_or(LineFault::BadNumber)?;
            take_item(kind, id, Item::Dwt(packet), said)
        }
        Shape::Stp(shape) => {
            let item = stp_of(shape, words).ok_or(LineFault::BadNumber)?;
            take_item(kind, id, Item::Stp(item), said)
        }
        Shape::Raw => {
            let bytes = raw_of(words).ok_or(LineFault::BadNumber)?;
            take_item(kind, id, Item::Raw(bytes), said)
        }
    }
}

/// What the words of a line say.
#[tactic(auto, unfolding(crate::specs::Lines::line_of_words))]
fn read_words(plan: &Plan, words: &[&[u8]], said: &mut Line) -> Result<(), LineFault>
    ensures value { line_in plan.now (texts words.now) ≡ answer result said.new }
    ensures same { OnErr result (said.new ≡ said.old) }
{
    match words {
        [] => Err(LineFault::BadLine),
        [id, words @ ..] => {
            let shape = shape_of(words).ok_or(LineFault::BadLine)?;
            let id = id_in(1, 126, id).ok_or(LineFault::BadId)?;
            read_shape(shape, plan.kind_of(id), id, words, said)
        }
    }
}

/// What a line of words says, which are printable and between single spaces. At a fault `said` is as before.
#[inline(never)]
fn read_printable(line: &[u8], plan: &Plan, said: &mut Line) -> Result<(), LineFault>
    ensures value { by_words (line_of_words plan.now) line.now ≡ answer result said.new }
    ensures said { OnOk result (IsSaid plan.now said.new) }
    ensures same { OnErr result (said.new ≡ said.old) }
{
    let mut words = Words::new();
    if !put_words(line, &mut words) {
        return Err(LineFault::BadLine);
    }
    read_words(plan, words.as_slice(), said)
}

/// What a line, without its line feed, says, or its first fault. What is mapped is by the plan alone, whose modes make
/// no difference.
pub fn read_line(line: &[u8], plan: &Plan) -> Result<Line, LineFault>
    ensures value { result ≡ line_of plan.now line.now }
    ensures said { IfOk result (IsSaid plan.now) }
{
    let mut said = Line::Nothing;
    match read_into(line, plan, &mut said) {
        Ok(()) => Ok(said),
        Err(fault) => Err(fault),
    }
}

/// The same, where what the line says is put in the place of another line, which stays at a fault. A line has room for
/// many bytes, and so is not handed on from call to call.
#[inline(never)]
#[tactic(auto, unfolding(crate::specs::Lines::line_of))]
pub fn read_into(line: &[u8], plan: &Plan, said: &mut Line) -> Result<(), LineFault>
    ensures value { line_of plan.now line.now ≡ answer result said.new }
    ensures said { OnOk result (IsSaid plan.now said.new) }
    ensures same { OnErr result (said.new ≡ said.old) }
{
    if line.len() > LINE_BYTES {
        return Err(LineFault::LongLine);
    }
    match line {
        [] | [b'#', ..] => {
            *said = Line::Nothing;
            return Ok(());
        }
        _ => {}
    }
    read_printable(line, plan, said)
}
