//! The items of a system trace: what its packets say, each with what those before it make of it.

use crate::packet::Width;

/// An item's timestamp. What it is depends on the version of the protocol that the trace named last.
#[derive(Clone, Copy, Debug, PartialEq, Eq, Drop)]
pub enum Stamp {
    /// The item has no timestamp.
    None,
    /// Under version 3 a time.
    Natural(u64),
    /// Under version 4 a time, which the trace has as a Gray number.
    Gray(u64),
    /// Under another version, or before the trace has named one, the size, 0 to 14, and the word as they are. What
    /// time they tell is unknown.
    Raw { size: u8, word: u64 },
}

/// Where an item is from: the number of the master that wrote it, and of the channel that it wrote to. A number is
/// absent as long as the trace has not told it.
#[derive(Clone, Copy, Debug, PartialEq, Eq, Drop)]
pub struct Place {
    pub master: Option<u16>,
    pub channel: Option<u16>,
}

/// An item.
#[derive(Clone, Copy, Debug, PartialEq, Eq, Drop)]
pub enum StpItem {
    /// ASYNC, the synchronisation packet.
    Async,
    /// VERSION: the version of the protocol, 0 to 15.
    Version(u8),
    /// MERR: an error of this place's master.
    MasterError {
        place: Place,
        code: u8,
    },
    /// GERR: an error of no master.
    GlobalError {
        code: u8,
    },
    /// D4, D8, D16, D32 and D64 of all forms: what was written. The value fits its width.
    Datum {
        place: Place,
        width: Width,
        value: u64,
        marked: bool,
        stamp: Stamp,
    },
    /// FLAG and FLAG_TS.
    Flag {
        place: Place,
        stamp: Stamp,
    },
    /// TRIG and TRIG_TS.
    Trigger {
        code: u8,
        stamp: Stamp,
    },
    /// FREQ and FREQ_TS: how often the timestamps' clock ticks a second.
    Frequency {
        hertz: u32,
        stamp: Stamp,
    },
    /// NULL_TS: a timestamp alone.
    NullStamp {
        stamp: Stamp,
    },
}
