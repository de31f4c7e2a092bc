//! How long the parts of a line are, by their types: for proofs alone. Nothing is done here when the program runs.

ghost use Rattle.source_events.specs.Report.{stop_of};
ghost use Rattle.trace_text.specs.Lengths.{HasDigits, IsShortWhat, IsShortSource, IsShortRemark, IsShort};
ghost use Rattle.trace_text.specs.Lengths.{IsShortFault};

use crate::remark::Remark;
use source_events::{Event, Packet, Stop, What};
use trace_values::SourceId;

/// A number of 64 bits has at most 20 digits.
#[inline(always)]
pub(crate) fn few_digits(number: u64)
    ensures { HasDigits 20 number }
{
    let _number = number;
}

/// One of 8 bits at most 3.
#[inline(always)]
pub(crate) fn few_half_digits(half: u8)
    ensures { HasDigits 3 half }
{
    let _half = half;
}

/// And that of a source at most 3.
#[inline(always)]
pub(crate) fn few_id_digits(id: SourceId)
    ensures { HasDigits 3 id }
{
    let _number = id.number();
}

#[inline(always)]
fn short_what(what: &What<Packet>)
    ensures { IsShortWhat what.now }
{
    match what {
        What::Locked(skipped) => few_digits(*skipped),
        What::Raw(bytes) => {
            let _bytes = bytes.as_slice();
        }
        What::Packet(_) | What::Trigger(_) => {}
    }
}

#[inline(always)]
fn short_source(source: Option<SourceId>)
    ensures { IsShortSource source }
{
    match source {
        None => {}
        Some(id) => few_id_digits(id),
    }
}

#[inline(always)]
pub(crate) fn short_remark(remark: Remark)
    ensures { IsShortRemark remark }
{
    match remark {
        Remark::None | Remark::Time(None) => {}
        Remark::Clock(ticks) => few_digits(ticks),
        Remark::Time(Some(time)) => few_digits(time),
    }
}

/// All parts of an event.
#[inline(always)]
pub(crate) fn short_event(event: &Event<Packet>)
    ensures { IsShort event.now }
{
    few_digits(event.at);
    few_half_digits(event.half);
    short_source(event.source);
    short_what(&event.what);
}

/// All parts of a fault.
#[inline(always)]
pub(crate) fn short_stop(stop: &Stop)
    ensures { IsShortFault (stop_of stop.now) }
{
    few_digits(stop.fault.at);
    few_half_digits(stop.fault.half);
    short_source(stop.source);
}
