//! The command as `clap` is told of it.

ghost use Rattle.std.specs.Prelude.{◌≡◌, IfOk, codes};
ghost use Rattle.clap.specs.Words.{app_of, with_rule, new_app};
ghost use Rattle.capture_words.specs.Command.{trace_app, option_rule, action_rule};

use crate::option::{ALL_OPTIONS, CommandOption};
use clap::{Arg, ArgAction, Command};
use std::alloc::{AllocError, Global};

/// What `--help` says below the options.
const CAPTURE_HELP: &str =
    "Input is standard input, as in: lipparoy check < CAPTURE{n}`lipparoy help` says what each action does.";

/// What `--help` says of the action.
const ACTION_HELP: &str =
    "show, split, check, text, vcd, rebuild, funnel, realign, ring, unring, exercise,{n}help or version";

/// The command with this option besides. It takes one value, and is given once at most.
fn with_option<'a>(
    alloc: Global,
    command: Command<'a>,
    option: CommandOption,
) -> Result<Command<'a>, AllocError>
    ensures { IfOk result (λ c. app_of c ≡ with_rule (app_of command.entry) (option_rule option)) }
{
    let (name, help) = option.texts();
    let arg = Arg::new(alloc, name)
        .long(name)
        .help(help)
        .help_heading(option.heading())
        .action(ArgAction::Set);
    command.arg(arg)
}

/// The command with its action alone.
fn with_action<'a>(alloc: Global) -> Result<Command<'a>, AllocError>
    ensures { IfOk result (λ c. app_of c ≡ with_rule (new_app (codes "lipparoy")) action_rule) }
{
    let action = Arg::new(alloc, "action")
        .help(ACTION_HELP)
        .required(true)
        .action(ArgAction::Set);
    Command::new(alloc, "lipparoy")
        .after_help(CAPTURE_HELP)
        .arg(action)
}

/// The command, with its action and its options.
pub fn trace_command<'a>(alloc: Global) -> Result<Command<'a>, AllocError>
    ensures { IfOk result (λ c. app_of c ≡ trace_app) }
{
    let mut command = with_action(alloc)?;
    for option in ALL_OPTIONS {
        command = with_option(alloc, command, option)?;
    }
    Ok(command)
}
