//! Events of a report that goes on after faults, beside those of one that ends at the first.

ghost use Rattle.std.specs.Prelude.{◌≡◌, ◌∷◌, [], None, IfSome};
ghost use Rattle.source_events.specs.Fitting.{EventFits, PacketFits};
ghost use Rattle.recovering_machines.specs.Hearing.{HeardFits, as_read, as_read_what, as_strict, seen_in};

use source_events::{Event, Packet, What};
use stretch_readings::Heard;
use trace_values::Reason;

/// What an event is in a report that ends at its first fault, or the reason of that fault.
#[inline(always)]
pub fn strictly(what: What<Heard<Packet>>) -> Result<What<Packet>, Reason>
    ensures { result ≡ as_strict what }
{
    match what {
        What::Locked(skipped) => Ok(What::Locked(skipped)),
        What::Packet(Heard::Read(packet)) | What::Packet(Heard::Guessed(packet)) => {
            Ok(What::Packet(packet))
        }
        What::Packet(Heard::Broken(reason)) | What::Packet(Heard::Misread(reason)) => Err(reason),
        What::Raw(bytes) => Ok(What::Raw(bytes)),
        What::Trigger(byte) => Ok(What::Trigger(byte)),
    }
}

/// The event there; None of a fault.
#[inline(always)]
pub fn seen(event: Event<Heard<Packet>>) -> Option<Event<Packet>>
    requires fits { HeardFits event }
    ensures some { IfSome result (λ e. seen_in (event ∷ []) ≡ e ∷ []) }
    ensures none { result ≡ None → seen_in (event ∷ []) ≡ [] }
    ensures fits { IfSome result (EventFits PacketFits) }
{
    let (at, half, source) = (event.at, event.half, event.source);
    match strictly(event.what) {
        Ok(what) => Some(Event {
            at,
            half,
            source,
            what,
        }),
        Err(_) => None,
    }
}

/// What this is in a report that goes on.
#[inline(always)]
fn what_read(what: What<Packet>) -> What<Heard<Packet>>
    ensures { result ≡ as_read_what what }
{
    match what {
        What::Locked(skipped) => What::Locked(skipped),
        What::Packet(packet) => What::Packet(Heard::Read(packet)),
        What::Raw(bytes) => What::Raw(bytes),
        What::Trigger(byte) => What::Trigger(byte),
    }
}

/// An event of a report without a fault, in one that goes on.
#[inline(always)]
pub fn as_read(event: Event<Packet>) -> Event<Heard<Packet>>
    requires fits { EventFits PacketFits event }
    ensures event { result ≡ as_read event }
    ensures fits { HeardFits result }
{
    let (at, half, source) = (event.at, event.half, event.source);
    Event {
        at,
        half,
        source,
        what: what_read(event.what),
    }
}
