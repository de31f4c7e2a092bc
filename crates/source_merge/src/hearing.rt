//! What the engine that goes on after faults gives up to the first one.

ghost use Rattle.std.specs.Prelude.{◌≡◌, ◌≢◌, ◌+◌, ◌*◌, ◌<◌, ◌≤◌, ℕ, None, Some, length, false};
ghost use Rattle.trace_values.specs.declared.reading_modes.FramesMode.TheVariants.{Bare};
ghost use Rattle.source_events.specs.declared.event.Stop.{Stop};
ghost use Rattle.recovery_engine.specs.Engine as recovering;
ghost use Rattle.recovery_engine.specs.PerSource.{total_of};
ghost use Rattle.recovery_engine.specs.declared.engine.TheConstants.{GREATEST_OFFSET};
ghost use Rattle.source_merge.specs.Counting as counting;
ghost use Rattle.recovering_machines.specs.Hearing.{takes_read};
ghost use Rattle.source_merge.specs.Hearing.{Hears, most_of as most};

use crate::up_to::UpTo;
use recovering_machines::Receiver;
use recovery_engine::{PerSource, Recovery};
use source_events::{Plan, Stop};
use trace_values::FramesMode;

/// How many events a byte gives at most, that ends a frame.
const FRAME_EVENTS: usize = 30;

/// How many events come of a piece of this length at most: with a formatter those of one frame.
#[inline(always)]
fn most_of(frames: FramesMode, length: usize) -> usize
    requires { length ≤ GREATEST_OFFSET + 1 }
    ensures { result ≡ most frames length }
{
    match frames {
        FramesMode::Bare => (2 * length).max(FRAME_EVENTS),
        FramesMode::Hunt | FramesMode::Aligned => FRAME_EVENTS,
    }
}

/// Takes bytes from the front of a piece, as the engine does that goes on after faults, and gives a receiver what comes
/// up to the first fault, which is kept.
#[inline(always)]
pub fn hear_front<V: Receiver>(
    recovery: &mut Recovery,
    items: &mut PerSource,
    at: u64,
    piece: &[u8],
    stop: &mut Option<Stop>,
    out: &mut V,
    to: &mut V::To,
) -> usize
    requires some { 0 < length piece.now }
    requires offsets { (recovering.next_of recovery.old ≤ at) × (at + length piece.now ≤ GREATEST_OFFSET + 1) }
    requires sure { recovering.guesses_of recovery.old ≡ false }
    requires going { stop.old ≡ None }
    requires room { 30 ≤ V.room (out.old, to.old) }
    requires few { total_of items.old ≤ 30 * (GREATEST_OFFSET + 1) }
    ensures { Hears (takes_read V.gets) V.room at piece.now result ((recovery.old, items.old), (out.old, to.old))
        ((recovery.new, items.new), (out.new, to.new)) stop.new }
{
    let most = most_of(recovery.plan().frames, piece.len());
    let left = out.events_left(to).min(most);
    let mut up_to = UpTo {
        receiver: out,
        items,
        left,
        stop,
    };
    recovery.take(at, piece, &mut up_to, to)
}

/// How many of the bytes that were taken, the first of which is at this offset, the report is read with: with no
/// formatter those up to the fault's byte.
#[inline(always)]
pub fn read_of(frames: FramesMode, at: u64, taken: usize, stop: &Option<Stop>) -> usize
    requires { 0 < taken }
    ensures bytes { (0 < result) × (result ≤ taken) }
    ensures framed { frames ≢ Bare → result ≡ taken }
    ensures going { stop.now ≡ None → result ≡ taken }
    ensures stops { (s : Stop) (k : ℕ) → frames ≡ Bare → stop.now ≡ Some s → s.fault.at ≡ at + k → k < taken →
        result ≡ k + 1 }
{
    match (frames, stop) {
        (FramesMode::Bare, Some(stop)) => {
            (stop.fault.at.saturating_sub(at) as usize).min(taken - 1) + 1
        }
        _ => taken,
    }
}

/// No source is mapped.
#[inline(always)]
pub fn maps_none(plan: &Plan) -> bool
    ensures { result ≡ counting.maps_none plan.now }
{
    plan.itm.as_slice().is_empty() && plan.stp.as_slice().is_empty()
}
