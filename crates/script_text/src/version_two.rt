//! The lines of scripts of version 2 (this project's profile): those of version 1, `flush`, and `125 trigger hh`.

ghost use Rattle.std.specs.Prelude.{◌≡◌, Err, IfOk};
ghost use Rattle.script_text.specs.Names.{Plan};
ghost use Rattle.script_text.specs.Words.{texts};
ghost use Rattle.script_text.specs.Lines.{line_of};
ghost use Rattle.script_text.specs.VersionTwo.{is_trigger, line2_of, trigger_of, IsSaid2, IsNew};

use crate::line_fault::LineFault;
use crate::lines::{Line, TRIGGER_SOURCE, read_line};
use crate::numbers::byte_at;
use crate::words::{Words, put_words, word_of};
use decimal_words::id_in;
use source_events::Plan;

/// A line of a script of version 2.
#[derive(Drop)]
pub enum Line2 {
    /// A line that version 1 has too.
    One(Line),
    /// `flush`: a segment ends.
    Flush,
    /// `125 trigger hh`: this byte of the trigger source, 125.
    Trigger(u8),
}

/// Whether these are the words of a trigger: an ID, `trigger`, and one more.
fn is_trigger(words: &[&[u8]]) -> bool
    ensures { result ≡ is_trigger (texts words.now) }
{
    words.len() == 3 && "trigger".as_bytes() == word_of(words, 1)
}

/// What the words of a trigger say, a byte of the trigger source; other words are those of no line.
#[tactic(auto, unfolding(crate::specs::VersionTwo::trigger_said))]
fn read_trigger(words: &[&[u8]]) -> Result<Line2, LineFault>
    ensures value { result ≡ trigger_of (texts words.now) }
    ensures new { IfOk result IsNew }
{
    if !is_trigger(words) {
        return Err(LineFault::BadLine);
    }
    let id = id_in(1, 126, word_of(words, 0)).ok_or(LineFault::BadId)?;
    let byte = byte_at(words, 2).ok_or(LineFault::BadNumber)?;
    if id.number() == TRIGGER_SOURCE {
        Ok(Line2::Trigger(byte))
    } else {
        Err(LineFault::Mixed)
    }
}

/// What a line says whose words are those of no line of version 1: `Flush` or a `Trigger`.
///
/// # Errors
///
/// Those that `read_line2` has for such a line.
pub fn read_new(line: &[u8]) -> Result<Line2, LineFault>
    ensures value { (plan : Plan) → line_of plan line.now ≡ Err LineFault.BadLine → result ≡ line2_of plan line.now }
    ensures new { IfOk result IsNew }
{
    if "flush".as_bytes() == line {
        return Ok(Line2::Flush);
    }
    let mut words = Words::new();
    if !put_words(line, &mut words) {
        return Err(LineFault::BadLine);
    }
    read_trigger(words.as_slice())
}

/// What a line of a script of version 2, without its line feed, says, or its first fault. What is mapped is by the plan
/// alone, whose modes make no difference. The first line of such a script, `trace-script 2`, is none of these.
///
/// # Errors
///
/// Those of `read_line`, in the same order, where `trigger` is one more item word: `LongLine` for over 256 bytes;
/// `BadLine` for other words than `flush` or those of an item after an ID; `BadId`; `BadNumber`, also where a trigger
/// has not exactly two hexadecimal digits; `Unmapped`, never of a trigger; `Mixed`, also of a trigger of another source
/// than 125.
pub fn read_line2(line: &[u8], plan: &Plan) -> Result<Line2, LineFault>
    ensures value { result ≡ line2_of plan.now line.now }
    ensures said { IfOk result (IsSaid2 plan.now) }
{
    match read_line(line, plan) {
        Ok(said) => Ok(Line2::One(said)),
        Err(fault) => match fault {
            LineFault::BadLine => read_new(line),
            _ => Err(fault),
        },
    }
}
