//! The writer of lines.

ghost use Rattle.std.specs.Prelude.{◌<◌, All};

use crate::bytes::{item_fits, put_item};
use crate::encoders::{Encoders, encoders_for, put_kept};
use port_formatter::Formatter;
use script_text::{Line, Line2, LineFault, TRIGGER_SOURCE};
use source_events::SourceIds;
use stp_grammar::packet::Order;
use trace_stream::Outlet;
use trace_values::SourceId;

/// Writes the lines of a script as a capture: the bytes of each item as bytes of its source, by a formatter, whose
/// segments its flushes end and which keeps what has become sure of the capture until it is given. A nibble of a system
/// trace is kept until the rest of its byte is known.
#[derive(Drop)]
pub struct LineWriter {
    /// In which order the nibbles of numbers of a system trace are written.
    order: Order,
    encoders: Encoders,
    formatter: Formatter,
    ghost named: { All (λ e. 0 < e.id) encoders.items },
}

ghost use Rattle.std.specs.Prelude.{◌≡◌, ◌≤◌, ◌+◌, ◌++◌, ◌∷◌, [], ℕ, List, length, true, false, None};
ghost use Rattle.std.specs.Result.{IfOk, IfErr, OnErr};
ghost use Rattle.script_rebuild.specs.Names.{has_place, Unrouted};
ghost use Rattle.port_formatter.specs.Formatter as formatters;

/// The trigger source, where it has a place.
fn trigger_source(formatter: &Formatter) -> Result<SourceId, LineFault>
    ensures ok { IfOk result (λ id. (id ≡ 125) × (has_place (formatters.turns_of formatter.now) 125 ≡ true)) }
    ensures err { IfErr result (λ fault. (fault ≡ Unrouted)
        × (has_place (formatters.turns_of formatter.now) 125 ≡ false)) }
{
    match SourceId::new(TRIGGER_SOURCE) {
        Some(id) if formatter.takes(id) => Ok(id),
        _ => Err(LineFault::Unrouted),
    }
}

impl LineWriter {
    ghost use Rattle.script_rebuild.specs.Names.{Port, no_segments, Line2, One, Flush, Trigger, Paid};
    ghost use Rattle.script_rebuild.specs.Names.{Pours, OUTLET_ROOM, ACTION_ROOM};
    ghost use Rattle.port_formatter.specs.declared.straight.TheConstants.{KEPT_ROOM};
    ghost use Rattle.script_rebuild.specs.Routed.{puttable, line_if};
    ghost use Rattle.script_rebuild.specs.Script.{in_order};
    ghost use Rattle.script_rebuild.specs.PutLine.{PutsAfter, Flushes};
    ghost use Rattle.script_rebuild.specs.Spending.{CanSpend, Spends};
    ghost use Rattle.script_rebuild.specs.Writer.{stp_of, order_of, turns_of, kept_by, count_of, debt_of, HasRoom};
    ghost use Rattle.script_rebuild.specs.Writer.{CanBePut, CanBePut2, HasSources, Stands};

    /// A writer of no line, over a formatter that was given nothing. The items of system traces are those of the
    /// sources `stp`, and their numbers are written in this order of their nibbles.
    pub fn new(stp: &SourceIds, order: Order, formatter: Formatter) -> LineWriter
        ensures fresh { (port : Port) → formatters.Stands formatter port no_segments → Stands result port [] }
        ensures stp { stp_of result ≡ in_order stp.now }
        ensures order { order_of result ≡ order }
        ensures formatter { result.formatter ≡ formatter }
    {
        LineWriter {
            order,
            encoders: encoders_for(stp, order),
            formatter,
        }
    }

    /// Whether a line can be put after the lines before it, by its first fault if it can't.
    ///
    /// # Errors
    ///
    /// As of `put`.
    pub fn fits(&self, line: &Line2) -> Result<(), LineFault>
        requires { CanBePut2 (stp_of self.now) line.now }
        ensures { (port : Port) (lines : List Line2) → Stands self.now port lines →
            puttable (turns_of self.now) lines line.now ≡ line_if result line.now }
    {
        match line {
            Line2::One(Line::Of { id, item }) => {
                item_fits(&self.encoders, &self.formatter, *id, item)
            }
            Line2::One(Line::Nothing) | Line2::Flush => Ok(()),
            Line2::Trigger(_) => {
                let _source = trigger_source(&self.formatter)?;
                Ok(())
            }
        }
    }

    /// Puts a line of version 1, and keeps what has become sure of the capture: all frames of ended segments, and of
    /// the unfinished one all but the last that is begun.
    ///
    /// # Errors
    ///
    /// `Unfit` exactly where the line is an item of a system trace that can't be written after the lines before, and
    /// else `Unrouted` exactly where a funnel is before the port and has no place for the line's source: then the
    /// writer is as before.
    #[inline(always)]
    pub fn put(&mut self, line: &Line) -> Result<(), LineFault>
        requires said { CanBePut (stp_of self.old) line.now }
        requires room { CanSpend 200 self.old.formatter }
        ensures sources { HasSources self.old self.new }
        ensures puts { (port : Port) (lines : List Line2) → Stands self.old port lines →
            PutsAfter self.old self.new port lines (One line.now) result }
        ensures same { OnErr result (self.new ≡ self.old) }
        ensures spent { Spends 200 self.old.formatter self.new.formatter }
    {
        match line {
            Line::Nothing => Ok(()),
            Line::Of { id, item } => put_item(&mut self.encoders, &mut self.formatter, *id, item),
        }
    }

    /// Puts a line of either version, as `put` does. Apart, so that lines of version 1 need no room for it.
    ///
    /// # Errors
    ///
    /// As of `put`: a flush can always be put, and a trigger where its source, 125, has a place.
    #[inline(never)]
    pub fn put2(&mut self, line: &Line2) -> Result<(), LineFault>
        requires said { CanBePut2 (stp_of self.old) line.now }
        requires room { CanSpend 200 self.old.formatter }
        ensures sources { HasSources self.old self.new }
        ensures puts { (port : Port) (lines : List Line2) → Stands self.old port lines →
            PutsAfter self.old self.new port lines line.now result }
        ensures same { OnErr result (self.new ≡ self.old) }
        ensures spent { Spends 200 self.old.formatter self.new.formatter }
    {
        match line {
            Line2::One(line) => self.put(line),
            Line2::Flush => {
                self.flush();
                Ok(())
            }
            Line2::Trigger(byte) => {
                let id = trigger_source(&self.formatter)?;
                self.formatter.put_all(id, &[*byte]);
                Ok(())
            }
        }
    }

    /// Ends the segment: puts the nibbles that are kept of system traces, each with a NULL above it, in increasing
    /// order of their sources' IDs, and keeps what has become sure. Then all that is written so far is sure: so this
    /// gives the rest of the capture, once the lines are at their end.
    pub fn flush(&mut self)
        requires room { CanSpend 23 self.old.formatter }
        ensures sources { HasSources self.old self.new }
        ensures puts { (port : Port) (lines : List Line2) → Stands self.old port lines →
            Flushes self.old self.new port lines }
        ensures spent { Spends 23 self.old.formatter self.new.formatter }
    {
        self.encoders = put_kept(&self.encoders, &mut self.formatter);
        self.formatter.flush();
    }

    /// Moves what is kept to the outlet, as far as a call may put, and answers whether something was kept.
    #[inline(always)]
    pub fn give(&mut self, outlet: &mut Outlet) -> bool
        requires room { length outlet.old + ACTION_ROOM ≤ OUTLET_ROOM }
        ensures sources { HasSources self.old self.new }
        ensures turns { turns_of self.new ≡ turns_of self.old }
        ensures count { count_of self.new ≡ count_of self.old }
        ensures stands { (port : Port) (lines : List Line2) → Stands self.old port lines → Stands self.new port lines }
        ensures poured { Pours (debt_of self.old) (debt_of self.new) outlet.old outlet.new result }
        ensures room { (more : ℕ) → HasRoom self.old more → HasRoom self.new more }
    {
        self.formatter.give(outlet)
    }

    /// What is kept, from the first byte on, in two parts: without a funnel all is in the first.
    pub fn kept(&self) -> (&[u8], &[u8])
        ensures parts { result.0.now ++ result.1.now ≡ kept_by self.now }
        ensures one { turns_of self.now ≡ None → result.1.now ≡ [] }
        ensures few { turns_of self.now ≡ None → length result.0.now ≤ KEPT_ROOM }
    {
        self.formatter.kept()
    }

    /// Drops what is kept.
    pub fn forget(&mut self)
        ensures sources { HasSources self.old self.new }
        ensures turns { turns_of self.new ≡ turns_of self.old }
        ensures count { count_of self.new ≡ count_of self.old }
        ensures kept { kept_by self.new ≡ [] }
        ensures stands { (port : Port) (lines : List Line2) → Stands self.old port lines → Stands self.new port lines }
    {
        self.formatter.forget();
    }
}
