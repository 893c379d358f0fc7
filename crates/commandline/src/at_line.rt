//! The readers of what `clap` found under a command at one line.

ghost use Rattle.std.specs.Prelude.{◌≡◌, MatchOption, MatchResult, codes};
ghost use Rattle.clap.specs.Words.{found_of, one_of, rows_of};
ghost use Rattle.commandline.specs.Invocations.{AreAgainst, AreRequestWords, IsByte, IsLine};
ghost use Rattle.commandline.specs.Invocations.{IsLineName, IsListenEnd, IsOfLineFault, IsOfTool};
ghost use Rattle.commandline.specs.Invocations.{line_word};
ghost use Rattle.commandline.specs.LineWords.{IsNoPath};

use crate::line_words::{LineWordFault, paths_in};
use crate::questions::word_in;
use crate::readers::{flag_in, given_number_in, patience_in, text_in};
use crate::tools::{GivenListenEnd, GivenRequest, Tool};
use clap::ArgMatches;
use commandoptions::{LineWord, LiveFiles};

/// What is done at one line by what was found under a command's name, where it is that of a command
/// at one line, or the fault of its word for the line.
pub(crate) fn at_line<'a>(
    name: &str,
    found: &ArgMatches<'a>,
) -> Option<Result<Tool<'a>, LineWordFault<'a>>>
    ensures { MatchOption result (¬ IsLineName name.now)
        (λ made. MatchResult made (IsOfTool name.now (rows_of (found_of found.now)))
        (IsOfLineFault name.now (rows_of (found_of found.now)))) }
{
    if name == "probe" {
        return Some(probe_in(found));
    }
    if name == "listen" {
        return Some(listen_in(found));
    }
    if name == "blink" {
        return Some(blink_in(found));
    }
    if name == "ask" {
        return Some(request_in(found));
    }
    None
}

/// What is asked by what was found under `probe`.
fn probe_in<'a>(found: &ArgMatches<'a>) -> Result<Tool<'a>, LineWordFault<'a>>
    ensures { MatchResult result (IsOfTool (codes "probe") (rows_of (found_of found.now)))
        (IsOfLineFault (codes "probe") (rows_of (found_of found.now))) }
{
    let line = line_in(found)?;
    Ok(Tool::Probe {
        line,
        patience: patience_in(found),
        against: against_in(found),
        record: word_in(found, "record"),
        is_json: flag_in(found, "json"),
    })
}

/// What is asked by what was found under `listen`.
fn listen_in<'a>(found: &ArgMatches<'a>) -> Result<Tool<'a>, LineWordFault<'a>>
    ensures { MatchResult result (IsOfTool (codes "listen") (rows_of (found_of found.now)))
        (IsOfLineFault (codes "listen") (rows_of (found_of found.now))) }
{
    let line = line_in(found)?;
    Ok(Tool::Listen {
        line,
        patience: patience_in(found),
        binding: word_in(found, "bind"),
        record: word_in(found, "record"),
        end: listen_end_in(found),
    })
}

/// What is asked by what was found under `blink`.
fn blink_in<'a>(found: &ArgMatches<'a>) -> Result<Tool<'a>, LineWordFault<'a>>
    ensures { MatchResult result (IsOfTool (codes "blink") (rows_of (found_of found.now)))
        (IsOfLineFault (codes "blink") (rows_of (found_of found.now))) }
{
    let line = line_in(found)?;
    Ok(Tool::Blink {
        line,
        patience: patience_in(found),
        address: byte_in(found, "ADR"),
    })
}

/// What is asked by what was found under `ask`.
fn request_in<'a>(found: &ArgMatches<'a>) -> Result<Tool<'a>, LineWordFault<'a>>
    ensures { MatchResult result (IsOfTool (codes "ask") (rows_of (found_of found.now)))
        (IsOfLineFault (codes "ask") (rows_of (found_of found.now))) }
{
    let line = line_in(found)?;
    Ok(Tool::Request {
        line,
        patience: patience_in(found),
        words: request_words_in(found),
    })
}

/// The line that is named.
fn line_in<'a>(found: &ArgMatches<'a>) -> Result<LineWord<'a>, LineWordFault<'a>>
    ensures { MatchResult result (IsLine (rows_of (found_of found.now)))
        (IsNoPath (line_word (rows_of (found_of found.now)))) }
{
    let word = text_in(found, "line");
    let Some((from, to)) = paths_in(word) else {
        return Err(LineWordFault::NoLine(word));
    };
    Ok(LineWord {
        bus: byte_in(found, "bus"),
        from,
        to,
    })
}

/// The files that the line is compared with, where both are given.
fn against_in<'a>(found: &ArgMatches<'a>) -> Option<LiveFiles<'a>>
    ensures { AreAgainst (rows_of (found_of found.now)) result }
{
    let text = word_in(found, "TEXT")?;
    let binding = word_in(found, "BIND")?;
    Some(LiveFiles { text, binding })
}

/// When listening ends.
fn listen_end_in<'a>(found: &ArgMatches<'a>) -> GivenListenEnd<'a>
    ensures { IsListenEnd (rows_of (found_of found.now)) result }
{
    GivenListenEnd {
        seconds: given_number_in(found, "for"),
        stop: word_in(found, "stop"),
    }
}

/// The request that is asked for.
fn request_words_in<'a>(found: &ArgMatches<'a>) -> GivenRequest<'a>
    ensures { AreRequestWords (rows_of (found_of found.now)) result }
{
    GivenRequest {
        request: text_in(found, "REQUEST"),
        address: byte_in(found, "ADR"),
        value: given_number_in(found, "VALUE"),
        second_value: given_number_in(found, "VALUE2"),
    }
}

/// The byte that was given, or without one 0.
fn byte_in(found: &ArgMatches, id: &str) -> u8
    ensures { IsByte (one_of id.now (rows_of (found_of found.now))) result }
{
    found.get_one::<u8>(id).unwrap_or(0)
}
