//! The commands that are passed to `clap`.
ghost use Rattle.std.specs.Prelude.{◌≡◌, IfOk, false};
ghost use Rattle.clap.specs.Simple.{app_of, with_rule};
ghost use Rattle.clap.specs.Walk.{rule_of};
ghost use Rattle.plugin_options.specs.Options.{bare_command, command_of, value_rule};
ghost use Rattle.plugin_options.specs.OptionWords.{rows_of_options, rule_of_word};

use crate::option_row::OptionRow;
use crate::option_word::OptionWord;
use crate::takes::Takes;
use clap::{Arg, ArgAction, Command};
use std::alloc::{AllocError, Global};

/// A command without options, help and version, whose words do not begin with the name of a
/// program.
pub fn new_command<'a>(alloc: Global) -> Command<'a>
    ensures { app_of result ≡ bare_command }
{
    Command::new(alloc, "tsp")
        .no_binary_name(true)
        .disable_help_flag(true)
}

// The argument of `clap` for an option.
fn argument<'a>(alloc: Global, option: OptionWord<'a>) -> Arg<'a>
    ensures rule { rule_of result ≡ rule_of_word option.entry }
    ensures own { result.global ≡ false }
{
    match option {
        OptionWord::Flag(name) => Arg::new(alloc, name).long(name).action(ArgAction::SetTrue),
        OptionWord::Value(name, _) => Arg::new(alloc, name).long(name).action(ArgAction::Set),
        OptionWord::Operand(name, _) => Arg::new(alloc, name).action(ArgAction::Set),
        OptionWord::Operands(name, _) => Arg::new(alloc, name).action(ArgAction::Append),
    }
}

// Adds an option.
fn with_option<'a>(
    alloc: Global,
    command: Command<'a>,
    option: OptionWord<'a>,
) -> Result<Command<'a>, AllocError>
    ensures { IfOk result (λ c. app_of c ≡ with_rule (app_of command.entry) (rule_of_word option.entry)) }
{
    command.arg(argument(alloc, option))
}

/// Adds an option `--name value`.
pub fn with_value<'a>(
    alloc: Global,
    command: Command<'a>,
    name: &'a str,
) -> Result<Command<'a>, AllocError>
    ensures { IfOk result (λ c. app_of c ≡ with_rule (app_of command.entry) (value_rule name.entry.now)) }
{
    with_option(alloc, command, OptionWord::Value(name, Takes::Text))
}

/// The command of a table of options.
pub fn command_with<'a>(alloc: Global, options: &[OptionRow<'a>]) -> Result<Command<'a>, AllocError>
    ensures { IfOk result (λ c. app_of c ≡ command_of (rows_of_options options.entry.now)) }
{
    let mut command = new_command(alloc);
    for option in options {
        command = with_option(alloc, command, option.word)?;
    }
    Ok(command)
}
