//! What commands are built by.

ghost use Rattle.std.specs.Prelude.{◌≡◌, IfOk, false};
ghost use Rattle.clap.specs.Words.{App, app_of, new_app, with_rule, with_subcommand};
ghost use Rattle.clap.specs.declared.builder.command.Command.TheViews.{out-Command};
ghost use Rattle.commandline.specs.CommandLine.{program};
ghost use Rattle.commandline.specs.Tables.{app_of_command, rule_of_word, with_commands};

use crate::tables::{HELP, Subcommand, VERSION};
use crate::words::{Word, argument};
use clap::Command;
use std::alloc::{AllocError, Global};

/// The line with these commands more.
pub(crate) fn extended<'a>(
    alloc: Global,
    begun: Command<'a>,
    commands: &[Subcommand],
) -> Result<Command<'a>, AllocError>
    requires local { (out-Command begun).has_globals ≡ false }
    ensures shape { (line : App) → app_of begun.entry ≡ line
        → IfOk result (λ c. app_of c ≡ with_commands line commands.now) }
    ensures local { IfOk result (λ c. (out-Command c).has_globals ≡ false) }
{
    let mut line = begun;
    for command in commands {
        line = beside(line, command_of(alloc, *command))?;
    }
    Ok(line)
}

/// The program with no command, of which one must be given.
pub(crate) fn program<'a>(alloc: Global) -> Command<'a>
    ensures shape { app_of result ≡ program }
    ensures local { (out-Command result).has_globals ≡ false }
{
    let about = "Checks and runs Instruction List programs for DALI-2 lighting buses";
    Command::new(alloc, "dalictl")
        .about(about)
        .override_help(HELP)
        .version(VERSION)
        .subcommand_required(true)
}

/// The command with its words.
pub(crate) fn command_of<'a>(
    alloc: Global,
    description: Subcommand,
) -> Result<Command<'a>, AllocError>
    ensures shape { IfOk result (λ c. app_of c ≡ app_of_command description) }
    ensures local { IfOk result (λ c. (out-Command c).has_globals ≡ false) }
{
    let mut command = named(alloc, description);
    for word in description.words {
        command = added(command, alloc, *word)?;
    }
    Ok(command)
}

/// The command with no arguments.
fn named<'a>(alloc: Global, description: Subcommand) -> Command<'a>
    ensures shape { app_of result ≡ new_app description.name.now }
    ensures local { (out-Command result).has_globals ≡ false }
{
    Command::new(alloc, description.name)
        .about(description.about)
        .override_usage(description.usage)
        .after_help(description.end)
}

/// The command with one word more.
fn added<'a>(command: Command<'a>, alloc: Global, word: Word) -> Result<Command<'a>, AllocError>
    requires local { (out-Command command).has_globals ≡ false }
    ensures shape { IfOk result
        (λ c. app_of c ≡ with_rule (app_of command.entry) (rule_of_word word)) }
    ensures local { IfOk result (λ c. (out-Command c).has_globals ≡ false) }
{
    command.arg(argument(alloc, word))
}

/// The command over one subcommand more, unless there was no memory for that.
fn beside<'a>(
    command: Command<'a>,
    subcommand: Result<Command<'a>, AllocError>,
) -> Result<Command<'a>, AllocError>
    requires local { (out-Command command).has_globals ≡ false }
    requires subcommand_local { IfOk subcommand (λ c. (out-Command c).has_globals ≡ false) }
    ensures shape { (line added : App) → app_of command.entry ≡ line
        → IfOk subcommand.entry (λ c. app_of c ≡ added)
        → IfOk result (λ c. app_of c ≡ with_subcommand line added.top) }
    ensures local { IfOk result (λ c. (out-Command c).has_globals ≡ false) }
{
    match subcommand {
        Ok(subcommand) => command.subcommand(subcommand),
        Err(error) => Err(error),
    }
}
