//! The readers of what `clap` found under the commands that play a scenario, and under those that
//! put frames and events in words.

ghost use Rattle.std.specs.Prelude.{◌≡◌, MatchResult, codes};
ghost use Rattle.clap.specs.Words.{found_of, rows_of};
ghost use Rattle.commandline.specs.ExpectedWords.{AreExpected, IsFirstUnexpected};
ghost use Rattle.commandline.specs.Invocations.{AreFrameWords, AreLookOptions};
ghost use Rattle.commandline.specs.Invocations.{IsOfCommand, IsOfFault, expected_words};
ghost use Rattle.commandline.specs.Invocations.{watched_words};
ghost use Rattle.commandline.specs.WatchedNames.{AreWatched, IsSeventeenth};

use crate::expected_words::{ExpectedFault, ExpectedWords, expected_of};
use crate::invocations::{GivenFrames, Invocation, LookOptions, PlayShows};
use crate::questions::word_in;
use crate::readers::{flag_in, given_number_in, number_in, play_files_in, text_in};
use crate::watched_names::{WatchedFault, WatchedNames, watched_of};
use crate::word_fault::WordFault;
use arrayvec::ArrayVec;
use clap::ArgMatches;

/// What is asked by what was found under `play`.
pub(crate) fn play_in<'a>(found: &ArgMatches<'a>) -> Result<Invocation<'a>, WordFault<'a>>
    ensures { MatchResult result (IsOfCommand (codes "play") (rows_of (found_of found.now)))
        (IsOfFault (codes "play") (rows_of (found_of found.now))) }
{
    let expects = expected_in(found)?;
    let watches = watched_in(found)?;
    Ok(Invocation::Play {
        files: play_files_in(found),
        limit: number_in(found, "limit", 100_000),
        shows: PlayShows {
            names: flag_in(found, "names"),
            is_brief: flag_in(found, "brief"),
            expects,
            watches,
        },
    })
}

/// What is expected at the play's end.
fn expected_in<'a>(found: &ArgMatches<'a>) -> Result<ExpectedWords<'a>, ExpectedFault<'a>>
    ensures { MatchResult result
        (λ expected. AreExpected (expected_words (rows_of (found_of found.now))) expected.items)
        (IsFirstUnexpected (expected_words (rows_of (found_of found.now)))) }
{
    match found.get_strs("expect") {
        Some(words) => expected_of(words),
        None => Ok(ArrayVec::new()),
    }
}

/// The variables that are watched.
fn watched_in<'a>(found: &ArgMatches<'a>) -> Result<WatchedNames<'a>, WatchedFault<'a>>
    ensures { MatchResult result
        (λ watched. AreWatched (watched_words (rows_of (found_of found.now))) watched.items)
        (IsSeventeenth (watched_words (rows_of (found_of found.now)))) }
{
    match found.get_strs("watch") {
        Some(words) => watched_of(words),
        None => Ok(ArrayVec::new()),
    }
}

/// What is asked by what was found under `look`.
pub(crate) fn look_in<'a>(found: &ArgMatches<'a>) -> Result<Invocation<'a>, WatchedFault<'a>>
    ensures { MatchResult result (IsOfCommand (codes "look") (rows_of (found_of found.now)))
        (IsSeventeenth (watched_words (rows_of (found_of found.now)))) }
{
    let watches = watched_in(found)?;
    Ok(Invocation::Look {
        files: play_files_in(found),
        options: look_options_in(found),
        watches,
    })
}

/// What of the scenario the picture shows, and where it goes.
fn look_options_in<'a>(found: &ArgMatches<'a>) -> LookOptions<'a>
    ensures { AreLookOptions (rows_of (found_of found.now)) result }
{
    LookOptions {
        is_text: flag_in(found, "text"),
        to: word_in(found, "out"),
        bus: given_number_in(found, "bus"),
        from: given_number_in(found, "from"),
        until: given_number_in(found, "to"),
    }
}

/// The words for frames.
pub(crate) fn frame_words_in<'a>(found: &ArgMatches<'a>) -> GivenFrames<'a>
    ensures { AreFrameWords (rows_of (found_of found.now)) result }
{
    GivenFrames {
        first: text_in(found, "HEX"),
        others: [
            word_in(found, "HEX2"),
            word_in(found, "HEX3"),
            word_in(found, "HEX4"),
        ],
    }
}

/// What is asked by what was found under `event`.
pub(crate) fn event_in<'a>(found: &ArgMatches<'a>) -> Invocation<'a>
    ensures { IsOfCommand (codes "event") (rows_of (found_of found.now)) result }
{
    Invocation::EventLine {
        binding: text_in(found, "BIND"),
        source: text_in(found, "B.K"),
        information: number_in(found, "INFORMATION", 0),
    }
}
