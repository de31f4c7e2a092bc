//! Where the reading of a capture begins: of a port, and of its sources.

ghost use Rattle.std.specs.Prelude.{◌≡◌};
ghost use Rattle.trace_values.specs.ReadingModes.{frames_named, packets_named};

/// Where the reading of a port's bytes begins, or that there is no formatter.
#[derive(Clone, Copy, Debug, PartialEq, Eq, Drop)]
pub enum FramesMode {
    /// At the first full synchronisation; the bytes before it are skipped.
    Hunt,
    /// At the first byte, which begins a frame or a synchronisation.
    Aligned,
    /// No frames are around the bytes: each byte is one of source 1.
    Bare,
}

impl FramesMode {
    /// The mode of this name: `hunt`, `aligned` or `bare`.
    pub fn named(name: &str) -> Option<FramesMode>
        ensures { result ≡ frames_named name.now }
    {
        match name {
            "hunt" => Some(FramesMode::Hunt),
            "aligned" => Some(FramesMode::Aligned),
            "bare" => Some(FramesMode::Bare),
            _ => None,
        }
    }
}

/// Where the reading of a source's packets begins.
#[derive(Clone, Copy, Debug, PartialEq, Eq, Drop)]
pub enum PacketsMode {
    /// At its first synchronisation packet; the bytes before it are skipped.
    Hunt,
    /// At its first byte, which begins a packet.
    Aligned,
}

impl PacketsMode {
    /// The mode of this name: `hunt` or `aligned`.
    pub fn named(name: &str) -> Option<PacketsMode>
        ensures { result ≡ packets_named name.now }
    {
        match name {
            "hunt" => Some(PacketsMode::Hunt),
            "aligned" => Some(PacketsMode::Aligned),
            _ => None,
        }
    }
}
