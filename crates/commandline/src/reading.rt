//! The command line, read with `clap`.

ghost use Rattle.std.specs.Prelude.{◌≡◌, ◌⊎◌, IfErr, IfOk, false, map, string_bytes};
ghost use Rattle.clap.specs.Words.{app_of, found_of, kind_of, rows_of};
ghost use Rattle.clap.specs.declared.builder.command.Command.TheViews.{out-Command};
ghost use Rattle.commandline.specs.Invocations.{IsOfCommand};
ghost use Rattle.commandline.specs.CommandLine.{AreTaken, HasWrongValue, IsAtFault, IsConflicting};
ghost use Rattle.commandline.specs.CommandLine.{IsInvocation, IsLacking, command_line};
ghost use Rattle.commandline.specs.CommandLine.{desk_line, tool_line, trying_line};

use crate::builders::{extended, program};
use crate::checks::{is_conflicting, is_lacking, writes_over_input};
use crate::invocations::Invocation;
use crate::messages::{conflict, lack, overwriting, wrong_word};
use crate::readers::invocation_of;
use crate::tables::{AT_LINE, DESK, LAST, TRYING};
use clap::error::ErrorKind;
use clap::{ArgMatches, Command, Error};
use std::alloc::{AllocError, Global};

/// The invocation that the words spell, of which the first is the program's name.
///
/// # Errors
///
/// What `clap` says of words that spell none, and the help or the version where it is asked for; or
/// that a binding or JSON is asked for beside a code file, or a binding is named twice; or a text
/// without its binding or its scenario, no code file, or what is written beside a building without
/// its file; or that the code file would be written over the text or the binding; or that a word
/// names no line, or a bus or a path that another one names; or that a word says nothing that is
/// expected, or is one too many; or that a name that is watched is one too many.
pub fn read<'a>(alloc: Global, words: &'a [String]) -> Result<Invocation<'a>, Error>
    // Exactly the words that the command line takes are taken, unless memory is refused,
    ensures taken { AreTaken (map (λ word. string_bytes word) words.entry.now) result }
    // and the invocation is the one that they spell.
    ensures invocation { IfOk result
        (IsInvocation (map (λ word. string_bytes word) words.entry.now)) }
{
    let mut matches = command(alloc)?.try_get_matches_from(words)?;
    match matches.remove_subcommand() {
        Some((name, found)) => invocation(alloc, name, &found),
        None => unreachable!(),
    }
}

/// The invocation of what was found under a command's name.
///
/// # Errors
///
/// Those of [`read`] that `clap` does not find.
fn invocation<'a>(
    alloc: Global,
    name: &str,
    found: &ArgMatches<'a>,
) -> Result<Invocation<'a>, Error>
    ensures taken { IfOk result (λ _. ¬ IsConflicting name.now (rows_of (found_of found.now))
        × ¬ IsLacking name.now (rows_of (found_of found.now))
        × ¬ HasWrongValue name.now (rows_of (found_of found.now))) }
    ensures refused { IfErr result (λ error. (kind_of error ≡ ErrorKind.OutOfMemory)
        ⊎ IsAtFault (kind_of error) name.now (rows_of (found_of found.now))) }
    ensures invocation { IfOk result
        (IsOfCommand name.now (rows_of (found_of found.now))) }
{
    if is_conflicting(name, found) {
        return Err(conflict(alloc, name, found)?);
    }
    if is_lacking(name, found) {
        return Err(lack(alloc, name, found)?);
    }
    if writes_over_input(name, found) {
        return Err(overwriting(alloc, found)?);
    }
    match invocation_of(name, found) {
        Ok(invocation) => Ok(invocation),
        Err(fault) => Err(wrong_word(alloc, name, fault)?),
    }
}

/// The line with all its commands.
fn command<'a>(alloc: Global) -> Result<Command<'a>, AllocError>
    ensures { IfOk result (λ c. app_of c ≡ command_line) }
{
    let line = at_line(alloc)?;
    extended(alloc, line, &LAST)
}

/// The line with the commands up to those at one line.
fn at_line<'a>(alloc: Global) -> Result<Command<'a>, AllocError>
    ensures shape { IfOk result (λ c. app_of c ≡ tool_line) }
    ensures local { IfOk result (λ c. (out-Command c).has_globals ≡ false) }
{
    let line = trying(alloc)?;
    extended(alloc, line, &AT_LINE)
}

/// The line with the commands up to those that try a text out.
fn trying<'a>(alloc: Global) -> Result<Command<'a>, AllocError>
    ensures shape { IfOk result (λ c. app_of c ≡ trying_line) }
    ensures local { IfOk result (λ c. (out-Command c).has_globals ≡ false) }
{
    let line = at_desk(alloc)?;
    extended(alloc, line, &TRYING)
}

/// The line with the commands at the desk.
fn at_desk<'a>(alloc: Global) -> Result<Command<'a>, AllocError>
    ensures shape { IfOk result (λ c. app_of c ≡ desk_line) }
    ensures local { IfOk result (λ c. (out-Command c).has_globals ≡ false) }
{
    let line = program(alloc);
    extended(alloc, line, &DESK)
}
