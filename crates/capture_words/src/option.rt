//! The options of the command.

ghost use Rattle.std.specs.Prelude.{◌≡◌, ◌≤◌, length};
ghost use Rattle.capture_words.specs.Command.{option_name};

/// An option of the command, in the order in which their values are looked at.
#[derive(Clone, Copy, Drop)]
pub enum CommandOption {
    /// `--frames`: where the reading of a port begins, or that no frames are around the bytes.
    Frames,
    /// `--packets`: where the reading of a source begins.
    Packets,
    /// `--itm`: the sources that send ITM packets.
    Itm,
    /// `--stp`: the sources that send STP packets.
    Stp,
    /// `--stp-order`: the order of the nibbles of an STP value.
    StpOrder,
    /// `--id`: the source whose bytes are taken.
    Id,
    /// `--only`: which events are listed.
    Only,
    /// `--window`: from which event to which the listing goes.
    Window,
    /// `--sync`: before how many frames a full synchronisation is written.
    Sync,
    /// `--half`: how many half synchronisations are written in each gap of a frame.
    Half,
    /// `--limit`: how many bytes of the input are read at most.
    Limit,
    /// `--items`: how many items are made.
    Items,
    /// `--lose`: how many bytes are lost of the front of what is made.
    Lose,
    /// `--recover`: whether reading goes on after a fault.
    Recover,
    /// `--size`: how many bytes a trace buffer has.
    Size,
    /// `--pointer`: where a trace buffer would have put its next byte.
    Pointer,
    /// `--full`: whether a trace buffer has taken as many bytes as it has, or more.
    Full,
    /// `--order`: the sources of a funnel in the order of their turns.
    Order,
    /// `--hold`: how many bytes a source of a funnel gives in its turn at most.
    Hold,
    /// `--depth`: how many bytes each queue of a funnel has at most.
    Depth,
    /// `--port`: the stimulus port whose text is written.
    Port,
    /// `--hz`: how many ticks of the local timestamps there are in a second.
    Hz,
    /// `--kinds`: whether the items of each kind are counted.
    Kinds,
}

/// The options, in that order.
pub(crate) const ALL_OPTIONS: [CommandOption; 23] = [
    CommandOption::Frames,
    CommandOption::Packets,
    CommandOption::Itm,
    CommandOption::Stp,
    CommandOption::StpOrder,
    CommandOption::Id,
    CommandOption::Only,
    CommandOption::Window,
    CommandOption::Sync,
    CommandOption::Half,
    CommandOption::Limit,
    CommandOption::Items,
    CommandOption::Lose,
    CommandOption::Recover,
    CommandOption::Size,
    CommandOption::Pointer,
    CommandOption::Full,
    CommandOption::Order,
    CommandOption::Hold,
    CommandOption::Depth,
    CommandOption::Port,
    CommandOption::Hz,
    CommandOption::Kinds,
];

impl CommandOption {
    /// The name of the option, after the two dashes, and what `--help` says of it. `{n}` ends a line there.
    pub(crate) fn texts<'a>(self) -> (&'a str, &'a str)
        ensures { result.0.now ≡ option_name self }
    {
        match self {
            CommandOption::Frames => (
                "frames",
                "Where frames begin: hunt (default), aligned (at byte 0) or bare (no frames)",
            ),
            CommandOption::Packets => (
                "packets",
                "Where packets begin: hunt (default) or aligned (at a source's first byte)",
            ),
            CommandOption::Itm => ("itm", "ITM sources: up to eight IDs, 1 to 111, as in 1,2"),
            CommandOption::Stp => ("stp", "STP sources: up to eight IDs, 1 to 111, as in 1,2"),
            CommandOption::StpOrder => (
                "stp-order",
                "Which nibble of an STP value comes first: msn (default) or lsn",
            ),
            CommandOption::Id => ("id", "split: source to write, 0 to 126"),
            CommandOption::Only => (
                "only",
                "show: events to list, up to eight of itm, dwt, stp, raw,{n}trigger, time, id=N, port=N and cmp=N, \
                as in dwt,time",
            ),
            CommandOption::Window => (
                "window",
                "show: list from one event to another, as in port=1,port=2",
            ),
            CommandOption::Sync => (
                "sync",
                "Frames for each full synchronisation: 0 (write none) to 1000000, default 64",
            ),
            CommandOption::Half => (
                "half",
                "Half synchronisations in each gap of a frame: 0 (default) to 8",
            ),
            CommandOption::Limit => (
                "limit",
                "Stop after this many bytes: 1 to 68719476736 (default)",
            ),
            CommandOption::Items => ("items", "Items to make: 1 to 1000000, default 12000"),
            CommandOption::Lose => ("lose", "Bytes to lose at the front: 0 (default) to 1000000"),
            CommandOption::Recover => (
                "recover",
                "Go on after a fault: off (default), on, or near (also list guesses)",
            ),
            CommandOption::Size => ("size", "Bytes of the buffer: 16 to 16777216"),
            CommandOption::Pointer => (
                "pointer",
                "unring: where the next byte would go, 0 (default) to 16777215",
            ),
            CommandOption::Full => (
                "full",
                "unring: whether the whole buffer was written, 0 (default) or 1",
            ),
            CommandOption::Order => (
                "order",
                "funnel: sources in the order of their turns, 1 to 16 IDs, 1 to 126",
            ),
            CommandOption::Hold => (
                "hold",
                "funnel: bytes that a source gives in a turn at most, 1 to 15, default 4",
            ),
            CommandOption::Depth => (
                "depth",
                "funnel: bytes in a queue at most, 1 to 4096, default 256",
            ),
            CommandOption::Port => ("port", "text: stimulus port to write, 0 (default) to 31"),
            CommandOption::Hz => (
                "hz",
                "vcd: ticks in a second, 1 to 1000000000000; without it a tick is 1 ns",
            ),
            CommandOption::Kinds => (
                "kinds",
                "check: also count items by kind, off (default) or on",
            ),
        }
    }

    /// The heading of `--help` under which the option stands.
    pub(crate) fn heading<'a>(self) -> &'a str {
        match self {
            CommandOption::Frames
            | CommandOption::Packets
            | CommandOption::Itm
            | CommandOption::Stp
            | CommandOption::StpOrder
            | CommandOption::Limit
            | CommandOption::Recover => "Input",
            CommandOption::Id
            | CommandOption::Only
            | CommandOption::Window
            | CommandOption::Port
            | CommandOption::Hz
            | CommandOption::Kinds => "Output",
            CommandOption::Sync
            | CommandOption::Half
            | CommandOption::Order
            | CommandOption::Hold
            | CommandOption::Depth => "rebuild and funnel",
            CommandOption::Items | CommandOption::Lose => "exercise",
            CommandOption::Size | CommandOption::Pointer | CommandOption::Full => "ring and unring",
        }
    }

    /// The name of the option, after the two dashes, at the lifetime of the command that takes it.
    #[tactic(auto, using(crate::proofs::Lines::short_name))]
    pub fn name<'a>(self) -> &'a str
        ensures name { result.now ≡ option_name self }
        ensures short { length result.now ≤ 9 }
    {
        self.texts().0
    }
}
