//! How a port or a source was read, as the lines at the end say it.

ghost use Rattle.std.specs.Prelude.{◌≡◌};
ghost use Rattle.source_events.specs.Tails.{port_mode, packets_mode};

use trace_values::{FramesMode, PacketsMode};

/// How a port or a source was read, up to the end of the capture.
#[derive(Clone, Copy, Debug, PartialEq, Eq, Drop)]
pub enum PortMode {
    /// There is no formatter: each byte is one of source 1.
    Bare,
    /// Its reading began with its first byte.
    Aligned,
    /// Its synchronisation was hunted, and came.
    Locked,
    /// Its synchronisation is hunted, and has not come.
    Hunting,
}

impl PortMode {
    /// That of a port read so, which has locked or not.
    pub fn of_port(frames: FramesMode, locked: bool) -> PortMode
        ensures { result ≡ port_mode frames locked }
    {
        match frames {
            FramesMode::Bare => PortMode::Bare,
            FramesMode::Aligned => PortMode::Aligned,
            FramesMode::Hunt => {
                if locked {
                    PortMode::Locked
                } else {
                    PortMode::Hunting
                }
            }
        }
    }

    /// That of a source whose packets are read so, which has locked or not.
    pub fn of_packets(packets: PacketsMode, locked: bool) -> PortMode
        ensures { result ≡ packets_mode packets locked }
    {
        match packets {
            PacketsMode::Aligned => PortMode::Aligned,
            PacketsMode::Hunt => PortMode::of_port(FramesMode::Hunt, locked),
        }
    }
}
