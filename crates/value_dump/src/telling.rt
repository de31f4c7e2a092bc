//! What packets tell of signals.

ghost use Rattle.std.specs.Prelude.{◌≡◌, ◌+◌, ◌*◌, ◌≤◌, ◌<◌, ℕ};
ghost use Rattle.value_dump.specs.Names.{Exception, IsInRange, IsProper, Sample};
ghost use Rattle.value_dump.specs.Signals.{last_told, told_by_item};
ghost use Rattle.value_dump.specs.Telling.{value_next};
ghost use Rattle.value_dump.specs.Values.{latest_of, owed_by, stamped_of};
ghost use Rattle.value_dump.specs.declared.values.TheConstants.{LINE_ROOM};

use crate::signals::{ASLEEP, EXCEPTION, FIRST_COMPARATOR, FIRST_PORT, PC};
use crate::values::SignalValues;
use dwt_packets::{Change, DwtItem, meaning};
use itm_grammar::packet::ItmPacket;

/// Takes what the processor did at an exception.
fn tell_exception(values: &mut SignalValues, number: u16, change: Change)
    ensures latest { (other : ℕ) → latest_of values.new other ≡
        last_told other (latest_of values.old other) (told_by_item (Exception number change)) }
    ensures stamped { values.new.stamped ≡ values.old.stamped }
    ensures owed { owed_by values.new ≤ owed_by values.old + LINE_ROOM }
{
    match change {
        Change::Enter | Change::Return => values.set(EXCEPTION, u32::from(number)),
        Change::Exit => {}
    }
}

/// Takes a sample of the program counter: the processor is awake.
fn tell_sample(values: &mut SignalValues, pc: u32)
    ensures latest { (other : ℕ) → latest_of values.new other ≡
        last_told other (latest_of values.old other) (told_by_item (Sample pc)) }
    ensures stamped { values.new.stamped ≡ values.old.stamped }
    ensures owed { owed_by values.new ≤ owed_by values.old + 2 * LINE_ROOM }
{
    values.set(PC, pc);
    values.set(ASLEEP, 0);
}

/// Takes what a hardware packet means.
fn tell_item(values: &mut SignalValues, item: &DwtItem)
    requires { IsInRange item.now }
    ensures latest { (other : ℕ) → latest_of values.new other ≡
        last_told other (latest_of values.old other) (told_by_item item.now) }
    ensures stamped { values.new.stamped ≡ values.old.stamped }
    ensures owed { owed_by values.new ≤ owed_by values.old + 2 * LINE_ROOM }
{
    match *item {
        DwtItem::Exception { number, change } => tell_exception(values, number, change),
        DwtItem::Sample { pc } => tell_sample(values, pc),
        DwtItem::Asleep => values.set(ASLEEP, 1),
        DwtItem::Read {
            comparator,
            value,
            ..
        }
        | DwtItem::Written {
            comparator,
            value,
            ..
        } => values.set(FIRST_COMPARATOR + comparator as usize, value),
        DwtItem::Counters(_)
        | DwtItem::MatchPc { .. }
        | DwtItem::MatchAddress { .. }
        | DwtItem::Other { .. } => {}
    }
}

/// Takes a packet, whose numbers are in their ranges.
pub(crate) fn tell(values: &mut SignalValues, packet: &ItmPacket)
    requires { IsProper packet.now }
    ensures latest { (number : ℕ) → latest_of values.new number ≡
        value_next packet.now number (stamped_of values.old number) (latest_of values.old number) }
    ensures stamped { values.new.stamped ≡ values.old.stamped }
    ensures owed { owed_by values.new ≤ owed_by values.old + 2 * LINE_ROOM }
{
    match *packet {
        ItmPacket::Software { port, value, .. } => values.set(FIRST_PORT + port as usize, value),
        ItmPacket::Hardware { disc, size, value } => tell_item(values, &meaning(disc, size, value)),
        ItmPacket::Overflow => values.lose(),
        ItmPacket::Sync
        | ItmPacket::Local { .. }
        | ItmPacket::GlobalFirst { .. }
        | ItmPacket::GlobalSecond { .. }
        | ItmPacket::Extension { .. } => {}
    }
}
