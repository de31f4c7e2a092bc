//! The line of a fault.

ghost use Rattle.std.specs.Prelude.{◌≡◌, ◌+◌, ◌≤◌, ◌++◌, length, codes, decimal};
ghost use Rattle.trace_values.specs.Faults.{number_of, name_of};
ghost use Rattle.source_events.specs.Report.{stop_of};
ghost use Rattle.trace_text.specs.FaultText.{fault_line};
ghost use Rattle.trace_text.specs.Puts.{Puts};

use crate::lengths::short_stop;
use crate::lines::{EVENT_ROOM, put_half, put_source};
use crate::room::{PART_ROOM, put_byte, put_count, put_short, put_slice};
use source_events::Stop;
use trace_stream::{OUTLET_ROOM, Outlet, TEXT_ROOM, Text};
use trace_values::Reason;

/// The line of a fault of the port, `fault AT port R NAME`, or of a source, `fault AT ID R NAME`, with `AT.H` for an
/// STP source.
#[derive(Clone, Copy)]
pub struct FaultLine {
    pub stop: Stop,
    /// Its source is an STP source.
    pub stp: bool,
}

/// Puts the reason's number and name, and the line's end: `R NAME`.
fn put_reason(room: &mut [u8], from: usize, reason: Reason) -> usize
    requires room { from + PART_ROOM ≤ length room.old }
    ensures { Puts room.old room.new from result PART_ROOM
        (decimal (number_of reason) ++ (codes " " ++ (name_of reason ++ codes "\n"))) }
{
    let from = put_short(room, from, reason.number());
    let from = put_byte(room, from, b' ');
    let from = put_slice(room, from, reason.name().as_bytes());
    put_byte(room, from, b'\n')
}

impl Text for FaultLine {
    ghost text = { λ l. fault_line l.stp (stop_of l.stop) };

    fn put(&self, room: &mut [u8], from: usize) -> usize {
        let fault = self.stop.fault;
        let from = put_count(room, from, b"fault ", fault.at);
        let from = put_half(room, from, self.stp, fault.half);
        let from = put_source(room, from, self.stop.source);
        put_reason(room, from, fault.reason)
    }
}

/// Puts the line of a fault; `stp` says that its source is an STP source.
pub fn print_fault(outlet: &mut Outlet, stop: &Stop, stp: bool)
    requires room { length outlet.old + TEXT_ROOM ≤ OUTLET_ROOM }
    ensures line { outlet.new ≡ outlet.old ++ fault_line stp (stop_of stop.now) }
    ensures bound { length outlet.new ≤ length outlet.old + EVENT_ROOM }
{
    short_stop(stop);
    outlet.put(&FaultLine { stop: *stop, stp });
}
