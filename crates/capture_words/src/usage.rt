//! Faults of the words that are the command's own, and their lines.

ghost use Rattle.std.specs.Prelude.{◌≡◌, ◌≤◌, ◌+◌, ◌++◌, codes, decimal, length};
ghost use Rattle.capture_words.specs.Texts.{usage_line};

use crate::option::CommandOption;
use arrayvec::ArrayString;
use itoa::Buffer;
use trace_values::SourceId;

/// How many bytes the line of a fault has at most: as many as that of a bad value of `--stp-order`.
pub const LINE_ROOM: usize = 32;

/// Why words that `clap` takes are no job. The first that holds is the fault, in this order.
#[derive(Clone, Copy, Drop)]
pub enum UsageFault {
    /// The action is none of the command's.
    UnknownAction,
    /// The value of this option isn't one of its own; the first such option.
    BadValue(CommandOption),
    /// The action is `split`, and `--id` is absent.
    SplitNeedsId,
    /// The action reads mapped sources, and this is the first ID that stands earlier already, of those of `--itm` and
    /// then those of `--stp`.
    MappedTwice(SourceId),
    /// The action is `ring`, and `--size` is absent.
    RingNeedsSize,
    /// The action is `unring`, and `--size` is absent.
    UnringNeedsSize,
    /// The action is `unring`, and the write pointer isn't under the size.
    PointerNotUnderSize,
    /// The action is `text`, and `--itm` is absent.
    TextNeedsItm,
    /// The action is `text`, and `--itm` has more than one ID.
    TextReadsOneSource,
    /// The action is `vcd`, and `--itm` is absent.
    VcdNeedsItm,
    /// The action is `vcd`, and `--itm` has more than one ID.
    VcdReadsOneSource,
    /// The action is `funnel`, and `--order` is absent.
    FunnelNeedsOrder,
    /// The action is `funnel`, and this is the first ID of `--order` that stands there earlier already.
    OrderedTwice(SourceId),
}

/// The text of these parts, one after another.
fn joined(first: &str, second: &str, third: &str) -> ArrayString<LINE_ROOM>
    requires { length first.now + length second.now + length third.now ≤ LINE_ROOM }
    ensures { result.bytes ≡ first.now ++ second.now ++ third.now }
{
    let mut text = ArrayString::new();
    let _ = text.try_push_str(first);
    let _ = text.try_push_str(second);
    let _ = text.try_push_str(third);
    text
}

/// The line of an ID with a fault.
fn id_line(id: SourceId, fault: &str) -> ArrayString<LINE_ROOM>
    requires { length fault.now ≤ 20 }
    ensures { result.bytes ≡ codes "usage: " ++ decimal id ++ fault.now }
{
    let mut number = Buffer::new();
    joined("usage: ", number.format(id.number()), fault)
}

impl UsageFault {
    /// The line of the fault, with its line feed.
    pub fn line(&self) -> ArrayString<LINE_ROOM>
        ensures { result.bytes ≡ usage_line self.now }
    {
        match self {
            UsageFault::UnknownAction => joined("usage: unknown action\n", "", ""),
            UsageFault::BadValue(option) => joined("usage: bad value of --", option.name(), "\n"),
            UsageFault::SplitNeedsId => joined("usage: split needs --id\n", "", ""),
            UsageFault::MappedTwice(id) => id_line(*id, " is mapped twice\n"),
            UsageFault::RingNeedsSize => joined("usage: ring needs --size\n", "", ""),
            UsageFault::UnringNeedsSize => joined("usage: unring needs --size\n", "", ""),
            UsageFault::PointerNotUnderSize => joined("usage: pointer isn't under size\n", "", ""),
            UsageFault::TextNeedsItm => joined("usage: text needs --itm\n", "", ""),
            UsageFault::TextReadsOneSource => joined("usage: text reads one source\n", "", ""),
            UsageFault::VcdNeedsItm => joined("usage: vcd needs --itm\n", "", ""),
            UsageFault::VcdReadsOneSource => joined("usage: vcd reads one source\n", "", ""),
            UsageFault::FunnelNeedsOrder => joined("usage: funnel needs --order\n", "", ""),
            UsageFault::OrderedTwice(id) => id_line(*id, " is ordered twice\n"),
        }
    }
}
