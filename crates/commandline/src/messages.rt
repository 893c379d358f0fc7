//! The faults that `clap` does not find, in its words.

ghost use Rattle.std.specs.Prelude.{◌≡◌, IfOk};
ghost use Rattle.clap.specs.Words.{kind_of};

use crate::builders::command_of;
use crate::checks::{asks_beside_code, has_no_status, is_given, is_play_name};
use crate::expected_words::ExpectedFault;
use crate::line_words::LineWordFault;
use crate::tables::{
    ASK, BLINK, CHECK, CODE, EXPLAIN, LIST, LISTEN, LIVE, LOOK, NOTES, PLAY, PROBE, RUN, STEP,
    Subcommand,
};
use crate::text_words::code_words_in;
use crate::watched_names::WatchedFault;
use crate::word_fault::WordFault;
use clap::error::ErrorKind;
use clap::{ArgMatches, Error};
use std::alloc::{AllocError, Global};

/// The fault of one thing that is given beside another one: a binding or JSON beside a code file,
/// or a binding beside another one.
pub(crate) fn conflict(alloc: Global, name: &str, found: &ArgMatches) -> Result<Error, AllocError>
    ensures { IfOk result (λ error. kind_of error ≡ ErrorKind.ArgumentConflict) }
{
    let (argument, other) = if !asks_beside_code(name, found) {
        (last_word(name), "--bind <FILE>")
    } else if is_given(found, "bind") {
        ("--code", "--bind <FILE>")
    } else if is_given(found, "BIND") {
        ("--code", "[BIND]")
    } else {
        ("--code", "--json")
    };
    let message = format!(in alloc; "the argument '{argument}' cannot be used with '{other}'")?;
    command_of(alloc, text_command(name))?.error(ErrorKind::ArgumentConflict, message.as_str())
}

/// The word that has no place beside `--bind`, under the command's name.
fn last_word(name: &str) -> &'static str {
    if is_play_name(name) || name == "explain" {
        return "[SCENARIO]";
    }
    if name == "step" || name == "list" {
        return "[TASK]";
    }
    if name == "code" {
        return "[OUT]";
    }
    "[BIND]"
}

/// The command of this name among those that take a text and a binding.
fn text_command(name: &str) -> Subcommand {
    if is_play_name(name) {
        return play_command(name);
    }
    if name == "explain" {
        return EXPLAIN;
    }
    if name == "step" {
        return STEP;
    }
    if name == "list" {
        return LIST;
    }
    if name == "code" {
        return CODE;
    }
    if name == "notes" {
        return NOTES;
    }
    CHECK
}

/// The command of this name among those that ask for a scenario.
fn play_command(name: &str) -> Subcommand {
    if name == "look" {
        return LOOK;
    }
    if name == "run" {
        return RUN;
    }
    PLAY
}

/// The fault of files that are not named.
pub(crate) fn lack(alloc: Global, name: &str, found: &ArgMatches) -> Result<Error, AllocError>
    ensures { IfOk result (λ error. kind_of error ≡ ErrorKind.MissingRequiredArgument) }
{
    let (command, arguments) = if is_play_name(name) {
        (play_command(name), play_files_that_lack(found))
    } else if name == "code" {
        (CODE, "<OUT>")
    } else if name == "live" {
        (LIVE, file_that_lacks(found))
    } else {
        (PROBE, "<BIND>")
    };
    let message = format!(in alloc;
        "the following required arguments were not provided:\n  {arguments}"
    )?;
    command_of(alloc, command)?.error(ErrorKind::MissingRequiredArgument, message.as_str())
}

/// The file that lacks beside a building.
fn file_that_lacks(found: &ArgMatches) -> &'static str {
    if has_no_status(found) {
        return "--status <FILE>";
    }
    "--log <FILE>"
}

/// The files that lack where a scenario is asked for.
fn play_files_that_lack(found: &ArgMatches) -> &'static str {
    if is_given(found, "bind") {
        return "<SCENARIO>";
    }
    if is_given(found, "BIND") {
        return "<SCENARIO> or --bind <FILE>";
    }
    "<BIND>\n  <SCENARIO>"
}

/// The fault of a code file that would be written over the text or the binding.
pub(crate) fn overwriting(alloc: Global, found: &ArgMatches) -> Result<Error, AllocError>
    ensures { IfOk result (λ error. kind_of error ≡ ErrorKind.ValueValidation) }
{
    let words = code_words_in(found);
    let out = words.to;
    let input = if words.files.text == out {
        "the text"
    } else {
        "the binding"
    };
    let message = format!(in alloc; "invalid value '{out}' for '<OUT>': this file is {input}")?;
    command_of(alloc, CODE)?.error(ErrorKind::ValueValidation, message.as_str())
}

/// The fault of a word under the command's name.
pub(crate) fn wrong_word(alloc: Global, name: &str, fault: WordFault) -> Result<Error, AllocError>
    ensures { IfOk result (λ error. kind_of error ≡ ErrorKind.ValueValidation) }
{
    match fault {
        WordFault::Line(fault) => no_line(alloc, name, fault),
        WordFault::Expected(fault) => unexpected(alloc, fault),
        WordFault::Watched(fault) => watched(alloc, name, fault),
    }
}

/// The fault of a word that says nothing that is expected, or of one too many.
fn unexpected(alloc: Global, fault: ExpectedFault) -> Result<Error, AllocError>
    ensures { IfOk result (λ error. kind_of error ≡ ErrorKind.ValueValidation) }
{
    let (word, reason) = match fault {
        ExpectedFault::NoPair(word) => (word, "not NAME=VALUE"),
        ExpectedFault::TooMany(word) => (word, "16 are given before it, which is the most"),
    };
    let message = format!(in alloc;
        "invalid value '{word}' for '--expect <NAME=VALUE>': {reason}"
    )?;
    command_of(alloc, PLAY)?.error(ErrorKind::ValueValidation, message.as_str())
}

/// The fault of a name that is watched and is one too many, under the command's name.
fn watched(alloc: Global, name: &str, fault: WatchedFault) -> Result<Error, AllocError>
    ensures { IfOk result (λ error. kind_of error ≡ ErrorKind.ValueValidation) }
{
    let word = fault.name;
    let message = format!(in alloc;
        "invalid value '{word}' for '--watch <NAME>': 16 are given before it, which is the most"
    )?;
    command_of(alloc, play_command(name))?.error(ErrorKind::ValueValidation, message.as_str())
}

/// The fault of a word that names no line, or a second one of a bus or of a path, under the
/// command's name.
fn no_line(alloc: Global, name: &str, fault: LineWordFault) -> Result<Error, AllocError>
    ensures { IfOk result (λ error. kind_of error ≡ ErrorKind.ValueValidation) }
{
    let (word, reason) = match fault {
        LineWordFault::NoLine(word) if name == "live" => {
            (word, "not B=PATH or B=FROM,TO with B in 0..63")
        }
        LineWordFault::NoLine(word) => (word, "not PATH or FROM,TO"),
        LineWordFault::Again(word) => (word, "another line has this bus"),
        LineWordFault::Shared(word) => (word, "another line has this path"),
    };
    let value = if name == "live" { "B=PATH" } else { "PATH" };
    let message = format!(in alloc; "invalid value '{word}' for '--line <{value}>': {reason}")?;
    command_of(alloc, line_command(name))?.error(ErrorKind::ValueValidation, message.as_str())
}

/// The command of this name among those that take a line.
fn line_command(name: &str) -> Subcommand {
    if name == "probe" {
        return PROBE;
    }
    if name == "listen" {
        return LISTEN;
    }
    if name == "blink" {
        return BLINK;
    }
    if name == "ask" {
        return ASK;
    }
    LIVE
}
