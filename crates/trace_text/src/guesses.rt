//! The lines of guesses: those of events and of faults, with a mark before their end.

ghost use Rattle.std.specs.Prelude.{◌≡◌, ◌+◌, ◌≤◌, ◌++◌, length};
ghost use Rattle.source_events.specs.Report.{stop_of};
ghost use Rattle.trace_text.specs.FaultText.{fault_line};
ghost use Rattle.trace_text.specs.Lengths.{IsShortLine};
ghost use Rattle.trace_text.specs.LineText.{doubted, event_line};
ghost use Rattle.trace_text.specs.Printable.{IsPrintable};

use crate::digits::Digits;
use crate::faults::FaultLine;
use crate::lengths::{short_event, short_remark, short_stop};
use crate::lines::{EVENT_ROOM, EventLine};
use crate::remark::Remark;
use crate::room::put_bytes;
use source_events::{Event, Packet, Stop};
use trace_stream::{OUTLET_ROOM, Outlet, TEXT_ROOM, Text};

/// A line with the mark of a guess.
#[derive(Drop)]
struct DoubtedLine<'a, T: Text> {
    line: &'a T,
}

impl<T: Text> Text for DoubtedLine<'_, T> {
    ghost fits = { λ l. T.fits l.line.now × IsShortLine (T.text l.line.now) };

    ghost text = { λ l. doubted (T.text l.line.now) };

    /// The mark takes the place of the line's last byte, and that byte comes after it.
    fn put(&self, room: &mut [u8], from: usize) -> usize {
        let end = self.line.put(room, from);
        put_bytes(room, end - 1, b" ?\n")
    }
}

/// Puts the line of an event that is a guess, as `print` puts that of one that is sure, with the mark of a guess.
pub fn print_guess(
    outlet: &mut Outlet,
    digits: &mut Digits,
    event: &Event<Packet>,
    stp: bool,
    remark: Remark,
)
    requires printable { IsPrintable event.now remark }
    requires room { length outlet.old + TEXT_ROOM ≤ OUTLET_ROOM }
    ensures line { outlet.new ≡ outlet.old ++ doubted (event_line stp event.now remark) }
    ensures bound { length outlet.new ≤ length outlet.old + EVENT_ROOM }
{
    short_event(event);
    short_remark(remark);
    digits.keep_event(event);
    let line = EventLine {
        digits,
        event,
        stp,
        remark,
    };
    outlet.put(&DoubtedLine { line: &line });
}

/// Puts the line of a fault of a guess, with the mark of a guess; `stp` says that its source is an STP source.
pub fn print_misread(outlet: &mut Outlet, stop: &Stop, stp: bool)
    requires room { length outlet.old + TEXT_ROOM ≤ OUTLET_ROOM }
    ensures line { outlet.new ≡ outlet.old ++ doubted (fault_line stp (stop_of stop.now)) }
    ensures bound { length outlet.new ≤ length outlet.old + EVENT_ROOM }
{
    short_stop(stop);
    let line = FaultLine { stop: *stop, stp };
    outlet.put(&DoubtedLine { line: &line });
}
