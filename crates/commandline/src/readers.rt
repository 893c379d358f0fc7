//! The readers of what `clap` found.

ghost use Rattle.std.specs.Prelude.{◌≡◌, MatchResult, codes};
ghost use Rattle.clap.specs.Words.{first_of, found_of, one_of, rows_of};
ghost use Rattle.commandline.specs.Invocations.{AreLiveFiles, AreLiveOptions};
ghost use Rattle.commandline.specs.Invocations.{ArePlayFiles, IsBeside, IsFlag, IsGivenNumber};
ghost use Rattle.commandline.specs.Invocations.{IsInquiryName, IsLineName, IsNumber, IsOfCommand};
ghost use Rattle.commandline.specs.Invocations.{IsOfFault, IsPatience, IsRunSize, line_words};
ghost use Rattle.commandline.specs.TextWords.{given};
ghost use Rattle.commandline.specs.LineWords.{AreLines, IsFirstFault};

use crate::at_line::at_line;
use crate::invocations::Invocation;
use crate::line_words::{LineWordFault, LineWords, lines_of};
use crate::questions::{Question, question_of, word_in};
use crate::shows::{event_in, frame_words_in, look_in, play_in};
use crate::text_words::{code_words_in, files_in, task_words_in};
use crate::word_fault::WordFault;
use arrayvec::ArrayVec;
use clap::ArgMatches;
use commandoptions::{Beside, Inquiry, LiveFiles, LiveOptions, PlayFiles, RunSize};

/// The invocation of what was found under a command's name.
///
/// # Errors
///
/// A word for a line names none, or a bus or a path that a word before it names; or a word for what
/// is expected is not one, or is one too many; or a name that is watched is one too many.
pub fn invocation_of<'a>(
    name: &str,
    found: &ArgMatches<'a>,
) -> Result<Invocation<'a>, WordFault<'a>>
    ensures { MatchResult result (IsOfCommand name.now (rows_of (found_of found.now)))
        (IsOfFault name.now (rows_of (found_of found.now))) }
{
    if name == "live" {
        return Ok(live_in(found)?);
    }
    if name == "play" {
        return play_in(found);
    }
    if name == "look" {
        return Ok(look_in(found)?);
    }
    match at_line(name, found) {
        Some(made) => Ok(Invocation::Tool(made?)),
        None => Ok(without_lists(name, found)),
    }
}

/// The invocation of what was found under the name of a command that takes no words for lines, and
/// none for what is expected or watched.
fn without_lists<'a>(name: &str, found: &ArgMatches<'a>) -> Invocation<'a>
    requires building { ¬ (name.now ≡ codes "live") }
    requires play { ¬ (name.now ≡ codes "play") }
    requires look { ¬ (name.now ≡ codes "look") }
    requires line { ¬ IsLineName name.now }
    ensures { IsOfCommand name.now (rows_of (found_of found.now)) result }
{
    if name == "run" {
        return Invocation::Run {
            files: play_files_in(found),
            size: run_size_in(found),
        };
    }
    if name == "code" {
        let words = code_words_in(found);
        return Invocation::Code {
            files: words.files,
            task: words.task,
            to: words.to,
        };
    }
    if name == "frame" {
        return Invocation::Frame {
            words: frame_words_in(found),
        };
    }
    if name == "event" {
        return event_in(found);
    }
    match question_of(name, found) {
        Some((files, question)) => Invocation::Tell { files, question },
        None => inquiry_of(name, found),
    }
}

/// What is asked of a text, or of a code file, by what was found under the name of another command.
fn inquiry_of<'a>(name: &str, found: &ArgMatches<'a>) -> Invocation<'a>
    requires { IsInquiryName name.now }
    ensures { IsOfCommand name.now (rows_of (found_of found.now)) result }
{
    if name == "check" {
        return check_in(found);
    }
    let words = task_words_in(found);
    Invocation::Ask(Inquiry::Step {
        files: words.files,
        task: words.task,
        scans: number_in(found, "scans", 1),
        every: number_in(found, "every", 100),
    })
}

/// What is asked by what was found under `check`.
fn check_in<'a>(found: &ArgMatches<'a>) -> Invocation<'a>
    ensures { IsOfCommand (codes "check") (rows_of (found_of found.now)) result }
{
    if flag_in(found, "code") {
        return Invocation::CheckCode {
            path: text_in(found, "TEXT"),
        };
    }
    let files = files_in(found);
    if flag_in(found, "json") {
        return Invocation::Tell {
            files,
            question: Question::Sizes,
        };
    }
    Invocation::Ask(Inquiry::Check { files })
}

/// What is asked by what was found under `live`.
fn live_in<'a>(found: &ArgMatches<'a>) -> Result<Invocation<'a>, LineWordFault<'a>>
    ensures { MatchResult result (IsOfCommand (codes "live") (rows_of (found_of found.now)))
        (IsFirstFault (line_words (rows_of (found_of found.now)))) }
{
    let lines = lines_in(found)?;
    Ok(Invocation::Live {
        files: live_files_in(found),
        lines,
        options: live_options_in(found),
    })
}

/// The lines of buses that are named.
fn lines_in<'a>(found: &ArgMatches<'a>) -> Result<LineWords<'a>, LineWordFault<'a>>
    ensures { MatchResult result
        (λ lines. AreLines (line_words (rows_of (found_of found.now))) lines.items)
        (IsFirstFault (line_words (rows_of (found_of found.now)))) }
{
    match found.get_strs("line") {
        Some(words) => lines_of(words),
        None => Ok(ArrayVec::new()),
    }
}

/// The files that are named for a building.
fn live_files_in<'a>(found: &ArgMatches<'a>) -> LiveFiles<'a>
    ensures { AreLiveFiles (rows_of (found_of found.now)) result }
{
    LiveFiles {
        text: text_in(found, "TEXT"),
        binding: text_in(found, "BIND"),
    }
}

/// How a building is run.
fn live_options_in<'a>(found: &ArgMatches<'a>) -> LiveOptions<'a>
    ensures { AreLiveOptions (rows_of (found_of found.now)) result }
{
    LiveOptions {
        period: given_number_in(found, "period"),
        seconds: given_number_in(found, "for"),
        stop: word_in(found, "stop"),
        size: run_size_in(found),
        ends_on_down: flag_in(found, "end-on-down"),
        patience: patience_in(found),
        beside: beside_in(found),
    }
}

/// The milliseconds that all answers of a transaction may take, or without that option 1,000.
pub(crate) fn patience_in(found: &ArgMatches) -> u32
    ensures { IsPatience (rows_of (found_of found.now)) result }
{
    number_in(found, "patience", 1_000)
}

/// What is written beside a building.
fn beside_in<'a>(found: &ArgMatches<'a>) -> Beside<'a>
    ensures { IsBeside (rows_of (found_of found.now)) result }
{
    Beside {
        log: word_in(found, "log"),
        log_size: number_in(found, "log-size", 16_000_000),
        record: word_in(found, "record"),
        status: word_in(found, "status"),
        is_json: flag_in(found, "json"),
        keep: word_in(found, "keep"),
    }
}

/// The files that are named for a scenario that is played, run or looked at.
pub(crate) fn play_files_in<'a>(found: &ArgMatches<'a>) -> PlayFiles<'a>
    ensures { ArePlayFiles (rows_of (found_of found.now)) result }
{
    let (binding, scenario) = match word_in(found, "bind") {
        Some(binding) => (binding, text_in(found, "BIND")),
        None => (text_in(found, "BIND"), text_in(found, "SCENARIO")),
    };
    PlayFiles {
        text: text_in(found, "TEXT"),
        binding,
        scenario,
        keep: word_in(found, "keep"),
    }
}

/// Whether a flag was given.
pub(crate) fn flag_in(found: &ArgMatches, id: &str) -> bool
    ensures { IsFlag (one_of id.now (rows_of (found_of found.now))) result }
{
    found.get_flag(id)
}

/// How large a run may become: the numbers that were given, or without one its default.
fn run_size_in(found: &ArgMatches) -> RunSize
    ensures { IsRunSize (rows_of (found_of found.now)) result }
{
    RunSize {
        limit: number_in(found, "limit", 100_000),
        workers: number_in(found, "workers", 2),
    }
}

/// The text that was given, or none.
pub(crate) fn text_in<'a>(found: &ArgMatches<'a>, id: &str) -> &'a str
    ensures { result.now ≡ given (first_of id.now (rows_of (found_of found.now))) }
{
    match found.get_str(id) {
        Some(text) => text,
        None => "",
    }
}

/// The number that was given, or without one the default.
pub(crate) fn number_in(found: &ArgMatches, id: &str, default: u32) -> u32
    ensures { IsNumber default (one_of id.now (rows_of (found_of found.now))) result }
{
    match found.get_one::<u32>(id) {
        Some(number) => number,
        None => default,
    }
}

/// The number that was given, where one was.
pub(crate) fn given_number_in(found: &ArgMatches, id: &str) -> Option<u32>
    ensures { IsGivenNumber (one_of id.now (rows_of (found_of found.now))) result }
{
    found.get_one::<u32>(id)
}
