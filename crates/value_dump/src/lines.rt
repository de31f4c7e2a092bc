//! The lines of a value dump.

ghost use Rattle.std.specs.Prelude.{◌≡◌, ◌+◌, ◌≤◌, ◌<◌, ◌++◌, ◌∷◌, length, codes, decimal};
ghost use Rattle.std.specs.Option.{ForSome};
ghost use Rattle.value_dump.specs.Lines.{lines_with, nanoseconds, time_line, value_line};
ghost use Rattle.value_dump.specs.Names.{OUTLET_ROOM};
ghost use Rattle.value_dump.specs.Signals.{is_bit};
ghost use Rattle.value_dump.specs.declared.signals.TheConstants.{SIGNALS};

use crate::binary::put_binary;
use crate::signals::{ASLEEP, LOST};
use itoa::Buffer;
use trace_stream::Outlet;

/// The code of the first signal.
const FIRST_CODE: u8 = b'!';

/// These ticks in nanoseconds, rounded down, by a clock of so many Hz; with no such clock one tick is one nanosecond.
pub(crate) fn nanoseconds(hz: Option<u64>, ticks: u64) -> u128
    requires some { ForSome hz (λ n. 0 < n) }
    ensures { result ≡ nanoseconds hz ticks }
{
    match hz {
        None => u128::from(ticks),
        Some(hz) => u128::from(ticks) * 1_000_000_000 / u128::from(hz),
    }
}

/// Puts the line of a time.
pub(crate) fn put_time(outlet: &mut Outlet, time: u128)
    requires room { length outlet.old + length (time_line time) ≤ OUTLET_ROOM }
    ensures { outlet.new ≡ outlet.old ++ time_line time }
{
    let mut buffer = Buffer::new();
    outlet.push(b'#');
    outlet.append(buffer.format(time).as_bytes());
    outlet.push(b'\n');
}

/// The signal has one bit.
fn is_bit(number: usize) -> bool
    ensures { result ≡ is_bit number }
{
    number == ASLEEP || number == LOST
}

/// Puts the line of the value of a signal.
pub(crate) fn put_value(outlet: &mut Outlet, number: usize, value: u32)
    requires signal { number < SIGNALS }
    requires room { length outlet.old + length (value_line number value) ≤ OUTLET_ROOM }
    ensures { outlet.new ≡ outlet.old ++ value_line number value }
{
    if is_bit(number) {
        put_binary(outlet, value);
    } else {
        outlet.push(b'b');
        put_binary(outlet, value);
        outlet.push(b' ');
    }
    outlet.push(FIRST_CODE + number as u8);
    outlet.push(b'\n');
}

/// Puts the line of the value of a signal, and before it that of the time if it was not put.
pub(crate) fn put_line(outlet: &mut Outlet, number: usize, value: u32, time: u128, is_timed: bool)
    requires signal { number < SIGNALS }
    requires room { length outlet.old + length (lines_with is_timed time (value_line number value)) ≤ OUTLET_ROOM }
    ensures { outlet.new ≡ outlet.old ++ lines_with is_timed time (value_line number value) }
{
    if !is_timed {
        put_time(outlet, time);
    }
    put_value(outlet, number, value);
}
