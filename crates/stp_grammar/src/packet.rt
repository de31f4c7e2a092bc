//! The packets of a system trace (MIPI System Trace Protocol, version 2, 'STPv2').
//!
//! Which packets there are, and their opcodes, payloads and timestamps, are this project's profile of it.

/// How many bits a datum has: 4, 8, 16, 32 or 64.
#[derive(Clone, Copy, Debug, PartialEq, Eq, Drop)]
pub enum Width {
    Four,
    Eight,
    Sixteen,
    ThirtyTwo,
    SixtyFour,
}

/// The order of the nibbles of a payload and of a timestamp's word. The nibbles of opcodes and of ASYNC, and a
/// timestamp's size nibble before its word, are the same in both.
#[derive(Clone, Copy, Debug, PartialEq, Eq, Drop)]
pub enum Order {
    /// The most significant nibble comes first.
    Msn,
    /// The least significant nibble comes first.
    Lsn,
}

/// A row of the table of opcodes, which has 35. A marked datum has a name that ends in M, and a packet with a
/// timestamp one that ends in TS.
#[derive(Clone, Copy, Debug, PartialEq, Eq, Drop)]
pub enum Row {
    /// NULL: nothing, which fills a byte.
    Null,
    /// M8: the low 8 bits of the master.
    Master8,
    /// MERR: an error of the master in force.
    MasterError,
    /// C8: the low 8 bits of the channel.
    Channel8,
    /// D4, D8, D16, D32 and D64, each also with TS, M and MTS.
    Datum {
        width: Width,
        marked: bool,
        stamped: bool,
    },
    /// FLAG and FLAG_TS.
    Flag {
        stamped: bool,
    },
    /// M16: the master.
    Master16,
    /// GERR: an error of no master.
    GlobalError,
    /// C16: the channel.
    Channel16,
    /// VERSION: the version of the protocol.
    Version,
    /// NULL_TS: a timestamp alone.
    NullStamp,
    /// TRIG and TRIG_TS.
    Trigger {
        stamped: bool,
    },
    /// FREQ and FREQ_TS: how often the timestamps' clock ticks a second.
    Frequency {
        stamped: bool,
    },
}

/// A packet.
#[derive(Clone, Copy, Debug, PartialEq, Eq, Drop)]
pub enum StpPacket {
    /// ASYNC, the synchronisation packet: at least 21 nibbles F, then 0.
    Async,
    /// A packet without a timestamp: its row, and the number that its payload makes, 0 where it has none.
    Plain {
        row: Row,
        payload: u64,
    },
    /// A packet with a timestamp: its row, the number that its payload makes, the timestamp's size, 0 to 14, and its
    /// word.
    Stamped {
        row: Row,
        payload: u64,
        size: u8,
        word: u64,
    },
}
