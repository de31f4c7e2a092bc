//! What the texts of the action and of the options say.

ghost use Rattle.std.specs.Prelude.{◌≡◌, option_map};
ghost use Rattle.clap.specs.Words.{rows_of, found_of, first_of};
ghost use Rattle.decimal_words.specs.Numbers.{number_named};
ghost use Rattle.capture_words.specs.Command.{option_name};
ghost use Rattle.capture_words.specs.Values.{action_named, order_named, bit_named, switch_named, action_in};

use crate::option::CommandOption;
use crate::page::Page;
use crate::usage::UsageFault;
use clap::ArgMatches;
use decimal_words::number_named;
use stp_grammar::packet::Order;

/// The greatest limit, and the limit where none is given: how many bytes of a capture are read at most.
pub const GREATEST_LIMIT: u64 = 1 << 36;

/// The action that a word names.
#[derive(Clone, Copy, Drop)]
pub enum ActionName {
    /// `show`
    Show,
    /// `split`
    Split,
    /// `check`
    Check,
    /// `rebuild`
    Rebuild,
    /// `exercise`
    Exercise,
    /// `realign`
    Realign,
    /// `ring`
    Ring,
    /// `unring`
    Unring,
    /// `text`
    Text,
    /// `funnel`
    Funnel,
    /// `vcd`
    Vcd,
    /// `help` or `version`
    Print(Page),
}

impl ActionName {
    /// The action of this name.
    fn named(name: &str) -> Option<ActionName>
        ensures { result ≡ action_named name.now }
    {
        match name {
            "show" => Some(ActionName::Show),
            "split" => Some(ActionName::Split),
            "check" => Some(ActionName::Check),
            "rebuild" => Some(ActionName::Rebuild),
            "exercise" => Some(ActionName::Exercise),
            "realign" => Some(ActionName::Realign),
            "ring" => Some(ActionName::Ring),
            "unring" => Some(ActionName::Unring),
            "text" => Some(ActionName::Text),
            "funnel" => Some(ActionName::Funnel),
            "vcd" => Some(ActionName::Vcd),
            "help" => Some(ActionName::Print(Page::Help)),
            "version" => Some(ActionName::Print(Page::Version)),
            _ => None,
        }
    }
}

/// The order of nibbles of this name: `msn` or `lsn`.
pub fn order_named(name: &str) -> Option<Order>
    ensures { result ≡ order_named name.now }
{
    match name {
        "msn" => Some(Order::Msn),
        "lsn" => Some(Order::Lsn),
        _ => None,
    }
}

/// The bit of this name: `0` or `1`.
pub fn bit_named(name: &str) -> Option<bool>
    ensures { result ≡ bit_named name.now }
{
    match name {
        "0" => Some(false),
        "1" => Some(true),
        _ => None,
    }
}

/// What a switch of this name says: `off` or `on`.
pub fn switch_named(name: &str) -> Option<bool>
    ensures { result ≡ switch_named name.now }
{
    match name {
        "off" => Some(false),
        "on" => Some(true),
        _ => None,
    }
}

/// The number from `least` to `greatest` that a text is in decimal.
pub fn u32_named(least: u32, greatest: u32, text: &str) -> Option<u32>
    ensures { result ≡ number_named least greatest text.now }
{
    Some(number_named(u64::from(least), u64::from(greatest), text)? as u32)
}

/// The same of a byte.
pub fn u8_named(least: u8, greatest: u8, text: &str) -> Option<u8>
    ensures { result ≡ number_named least greatest text.now }
{
    Some(number_named(u64::from(least), u64::from(greatest), text)? as u8)
}

/// The text of the entry of this name, if there is one.
fn text_named<'a>(matches: &ArgMatches<'a>, name: &str) -> Option<&'a str>
    ensures { option_map (λ s. s.now) result ≡ first_of name.now (rows_of (found_of matches.now)) }
{
    matches.get_str(name)
}

/// The text of an option, if it is given.
pub fn text_of<'a>(matches: &ArgMatches<'a>, option: CommandOption) -> Option<&'a str>
    ensures { option_map (λ s. s.now) result ≡ first_of (option_name option) (rows_of (found_of matches.now)) }
{
    text_named(matches, option.name())
}

/// The action: `show`, `split`, `check`, `rebuild`, `exercise`, `realign`, `ring`, `unring`, `text`, `funnel`, `vcd`,
/// `help` or `version`.
pub fn action_in(matches: &ArgMatches<'_>) -> Result<ActionName, UsageFault>
    ensures { result ≡ action_in (rows_of (found_of matches.now)) }
{
    match text_named(matches, "action") {
        None => Err(UsageFault::UnknownAction),
        Some(text) => ActionName::named(text).ok_or(UsageFault::UnknownAction),
    }
}
