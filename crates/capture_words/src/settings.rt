//! What all options say.

ghost use Rattle.std.specs.Prelude.{◌≡◌, Some, None, true, false, option_map};
ghost use Rattle.clap.specs.Words.{rows_of, found_of, first_of};
ghost use Rattle.capture_words.specs.Command.{option_name};
ghost use Rattle.capture_words.specs.Settings.{defaults, said, given, settings_in};

use crate::choices::window_named;
use crate::list::list_named;
use crate::option::{ALL_OPTIONS, CommandOption};
use crate::recover::Recover;
use crate::usage::UsageFault;
use crate::values::{
    GREATEST_LIMIT, bit_named, order_named, switch_named, text_of, u8_named, u32_named,
};
use clap::ArgMatches;
use decimal_words::{id_named, number_named};
use item_tap::{Bounds, Choices};
use source_events::{Plan, SourceIds};
use stp_grammar::packet::Order;
use trace_funnel::TurnOrder;
use trace_values::{FramesMode, PacketsMode, SourceId};

/// What the options say, each with its default where it is absent.
#[derive(Drop)]
pub struct Settings {
    /// How a capture is read; an ID may be mapped twice.
    pub plan: Plan,
    /// The source whose bytes are taken.
    pub id: Option<SourceId>,
    /// Which events are listed.
    pub only: Option<Choices>,
    /// From which event to which the listing goes.
    pub window: Option<Bounds>,
    /// How many frames are written for each full synchronisation, or 0 for none.
    pub sync: u32,
    /// How many half synchronisations are written in each gap of a frame.
    pub half: u8,
    /// How many bytes are read at most.
    pub limit: u64,
    /// How many items are made.
    pub items: u32,
    /// How many bytes are lost of the front of what is made.
    pub lose: u32,
    /// Whether reading goes on after a fault.
    pub recover: Recover,
    /// How many bytes a trace buffer has.
    pub size: Option<u32>,
    /// Where a trace buffer would have put its next byte.
    pub pointer: u32,
    /// Whether a trace buffer has taken as many bytes as it has, or more.
    pub full: bool,
    /// The sources of a funnel in the order of their turns; an ID may stand twice.
    pub order: Option<TurnOrder>,
    /// How many bytes a source of a funnel gives in its turn at most.
    pub hold: u8,
    /// How many bytes each queue of a funnel has at most.
    pub depth: u32,
    /// The stimulus port whose bytes are written.
    pub port: u8,
    /// How many ticks of the local timestamps there are in a second.
    pub hz: Option<u64>,
    /// Whether the items of each kind are counted.
    pub kinds: bool,
}

/// Puts what a text names in its place. It tells whether the text names anything.
fn put<T: Drop>(place: &mut T, named: Option<T>) -> bool
    ensures some { result ≡ true → named ≡ Some place.new }
    ensures none { result ≡ false → named ≡ None }
{
    match named {
        Some(value) => {
            *place = value;
            true
        }
        None => false,
    }
}

/// What a text names, for a setting that may be absent.
fn present<T: Drop>(named: Option<T>) -> Option<Option<T>>
    ensures { result ≡ option_map Some named }
{
    match named {
        Some(value) => Some(Some(value)),
        None => None,
    }
}

impl Settings {
    /// The settings where no option is given.
    fn defaults() -> Settings
        ensures { result ≡ defaults }
    {
        Settings {
            plan: Plan {
                frames: FramesMode::Hunt,
                packets: PacketsMode::Hunt,
                itm: SourceIds::new(),
                stp: SourceIds::new(),
                order: Order::Msn,
            },
            id: None,
            only: None,
            window: None,
            sync: 64,
            half: 0,
            limit: GREATEST_LIMIT,
            items: 12_000,
            lose: 0,
            recover: Recover::Off,
            size: None,
            pointer: 0,
            full: false,
            order: None,
            hold: 4,
            depth: 256,
            port: 0,
            hz: None,
            kinds: false,
        }
    }

    /// Takes the setting that the text of an option names. It tells whether the text names one.
    fn say(&mut self, option: CommandOption, text: &str) -> bool
        ensures some { result ≡ true → said self.old option text.now ≡ Some self.new }
        ensures none { result ≡ false → said self.old option text.now ≡ None }
    {
        match option {
            CommandOption::Frames => put(&mut self.plan.frames, FramesMode::named(text)),
            CommandOption::Packets => put(&mut self.plan.packets, PacketsMode::named(text)),
            CommandOption::Itm => put(&mut self.plan.itm, list_named(text)),
            CommandOption::Stp => put(&mut self.plan.stp, list_named(text)),
            CommandOption::StpOrder => put(&mut self.plan.order, order_named(text)),
            CommandOption::Id => put(&mut self.id, present(id_named(0, 126, text))),
            CommandOption::Only => put(&mut self.only, present(list_named(text))),
            CommandOption::Window => put(&mut self.window, present(window_named(text))),
            CommandOption::Sync => put(&mut self.sync, u32_named(0, 1_000_000, text)),
            CommandOption::Half => put(&mut self.half, u8_named(0, 8, text)),
            CommandOption::Limit => put(&mut self.limit, number_named(1, GREATEST_LIMIT, text)),
            CommandOption::Items => put(&mut self.items, u32_named(1, 1_000_000, text)),
            CommandOption::Lose => put(&mut self.lose, u32_named(0, 1_000_000, text)),
            CommandOption::Recover => put(&mut self.recover, Recover::named(text)),
            CommandOption::Size => put(&mut self.size, present(u32_named(16, 1 << 24, text))),
            CommandOption::Pointer => put(&mut self.pointer, u32_named(0, (1 << 24) - 1, text)),
            CommandOption::Full => put(&mut self.full, bit_named(text)),
            CommandOption::Order => put(&mut self.order, present(list_named(text))),
            CommandOption::Hold => put(&mut self.hold, u8_named(1, 15, text)),
            CommandOption::Depth => put(&mut self.depth, u32_named(1, 4096, text)),
            CommandOption::Port => put(&mut self.port, u8_named(0, 31, text)),
            CommandOption::Hz => put(
                &mut self.hz,
                present(number_named(1, 1_000_000_000_000, text)),
            ),
            CommandOption::Kinds => put(&mut self.kinds, switch_named(text)),
        }
    }

    /// Takes the setting of an option, if it is given. It tells whether its text, if there is one, names a setting.
    fn take(&mut self, option: CommandOption, matches: &ArgMatches<'_>) -> bool
        ensures some { result ≡ true →
            given self.old option (first_of (option_name option) (rows_of (found_of matches.now))) ≡ Some self.new }
        ensures none { result ≡ false →
            given self.old option (first_of (option_name option) (rows_of (found_of matches.now))) ≡ None }
    {
        match text_of(matches, option) {
            Some(text) => self.say(option, text),
            None => true,
        }
    }
}

/// What the options say, or the first whose text names no setting.
pub fn settings_in(matches: &ArgMatches<'_>) -> Result<Settings, UsageFault>
    ensures { result ≡ settings_in (rows_of (found_of matches.now)) }
{
    let mut settings = Settings::defaults();
    for option in ALL_OPTIONS {
        if !settings.take(option, matches) {
            return Err(UsageFault::BadValue(option));
        }
    }
    Ok(settings)
}
