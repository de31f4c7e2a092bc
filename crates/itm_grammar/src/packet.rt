//! The packets (ARMv7-M Architecture Reference Manual, Arm DDI 0403E, appendix D4 'Debug ITM and DWT Packet Protocol',
//! section D4.2 'Packet descriptions').

/// How many bytes a source packet's value has (the manual's SS).
#[derive(Clone, Copy, Debug, PartialEq, Eq, Drop)]
pub enum Size {
    One,
    Two,
    Four,
}

impl Size {
    ghost use Rattle.std.specs.Prelude.{◌≡◌, ◌≤◌};
    ghost use Rattle.itm_grammar.specs.Spelling.{byte_count};

    /// How many bytes that is.
    pub fn byte_count(self) -> u8
        ensures count { result ≡ byte_count self }
        ensures few { result ≤ 4 }
    {
        match self {
            Size::One => 1,
            Size::Two => 2,
            Size::Four => 4,
        }
    }
}

/// What a local timestamp was late by (the manual's TC): it is exact, the timestamp itself was delayed, the packet that
/// it belongs to was delayed, or both were.
#[derive(Clone, Copy, Debug, PartialEq, Eq, Drop)]
pub enum Lateness {
    Exact,
    StampLate,
    PacketLate,
    BothLate,
}

/// An ITM packet.
#[derive(Clone, Copy, Debug, PartialEq, Eq, Drop)]
pub enum ItmPacket {
    /// The synchronisation packet: at least five bytes 00, then 80.
    Sync,
    /// The overflow packet: packets were lost.
    Overflow,
    /// An instrumentation packet: what was written to a stimulus port, 0 to 31. The value fits its size.
    Software {
        port: u8,
        size: Size,
        value: u32,
    },
    /// A hardware source packet of the DWT: its discriminator (the manual's discriminator ID), 0 to 31, and its
    /// payload, which fits its size.
    Hardware {
        disc: u8,
        size: Size,
        value: u32,
    },
    /// A local timestamp (LTS1 or LTS2): the time since the one before, in ticks, under 2^28.
    Local {
        lateness: Lateness,
        delta: u32,
    },
    /// A first global timestamp (GTS1): the time's low bits in this many payload bytes, 1 to 4, which hold 7, 14, 21
    /// or 26 of them. With four bytes it says also whether the clock's ratio changed (ClkCh), and whether the high
    /// bits did (Wrap).
    GlobalFirst {
        len: u8,
        value: u32,
        change: bool,
        wrap: bool,
    },
    /// A second global timestamp (GTS2): the time's bits from bit 26 on, under 2^22, or under 2^38 where it is wide.
    GlobalSecond {
        wide: bool,
        value: u64,
    },
    /// An extension packet, of the ITM or of the DWT (the manual's SH), with this value (EX).
    Extension {
        dwt: bool,
        value: u32,
    },
}
