//! The command for `clap`, made from the option table.
ghost use Rattle.std.specs.Prelude.{◌≡◌, IfOk, false};
ghost use Rattle.clap.specs.Simple.{app_of, with_rule};
ghost use Rattle.clap.specs.Walk.{rule_of};
ghost use Rattle.pv_words.specs.Command.{action_of, bare_app, files_rule, option_rule, rule_named, with_options, words_app};

use crate::option::{OptionName, all_options};
use clap::{Arg, ArgAction, Command};
use std::alloc::{AllocError, Global};

/// Returns the command by which `clap` reads the arguments after the name of the tool.
pub(crate) fn command<'a>(alloc: Global) -> Result<Command<'a>, AllocError>
    ensures { IfOk result (λ c. app_of c ≡ words_app) }
{
    let options = all_options();
    let command = with_options(bare_command(alloc), alloc, options.as_slice())?;
    with_arg(command, files_arg(alloc))
}

/// Returns a command without options, where no argument is the name of the program, and there is no help and no
/// version.
fn bare_command<'a>(alloc: Global) -> Command<'a>
    ensures { app_of result ≡ bare_app }
{
    Command::new(alloc, "provision")
        .no_binary_name(true)
        .disable_help_flag(true)
        .disable_version_flag(true)
}

/// Adds the options at the end of a command.
fn with_options<'a>(
    command: Command<'a>,
    alloc: Global,
    options: &[OptionName],
) -> Result<Command<'a>, AllocError>
    ensures { IfOk result (λ c. app_of c ≡ with_options (app_of command.entry) options.now) }
{
    let mut command = command;
    for option in options {
        command = with_arg(command, option_arg(alloc, *option))?;
    }
    Ok(command)
}

/// Adds one option, or the file arguments, at the end of a command.
fn with_arg<'a>(command: Command<'a>, arg: Arg<'a>) -> Result<Command<'a>, AllocError>
    requires { arg.global ≡ false }
    ensures { IfOk result (λ c. app_of c ≡ with_rule (app_of command.entry) (rule_of arg.entry)) }
{
    command.arg(arg)
}

/// Returns an option of the table for `clap`. It is given once with one value, or is a flag.
fn option_arg<'a>(alloc: Global, option: OptionName) -> Arg<'a>
    ensures rule { rule_of result ≡ option_rule option }
    ensures local { result.global ≡ false }
{
    named_arg(alloc, option.name(), action_of(option))
}

/// Returns an option with this name for `clap`.
fn named_arg<'a>(alloc: Global, name: &'a str, action: ArgAction) -> Arg<'a>
    ensures rule { rule_of result ≡ rule_named name.entry.now action }
    ensures local { result.global ≡ false }
{
    Arg::new(alloc, name).long(name).action(action)
}

/// Returns what a use of an option does: it sets its value, or its flag.
fn action_of(option: OptionName) -> ArgAction
    ensures { result ≡ action_of option }
{
    if option.takes_value() {
        ArgAction::Set
    } else {
        ArgAction::SetTrue
    }
}

/// Returns the file arguments for `clap`.
fn files_arg<'a>(alloc: Global) -> Arg<'a>
    ensures rule { rule_of result ≡ files_rule }
    ensures local { result.global ≡ false }
{
    Arg::new(alloc, "files").action(ArgAction::Append)
}
