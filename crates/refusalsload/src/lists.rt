//! Words of the command line that name lines, and those that say what is expected.

ghost use Rattle.std.specs.Prelude.{◌≡◌, ◌<◌, ◌≤◌, ◌↔◌, IfSome, IsTrue, Some, codes, false, length, true};
ghost use Rattle.std.specs.List.{All};
ghost use Rattle.clap.specs.Words.{first_of, found_of, rows_of};
ghost use Rattle.commandline.specs.ExpectedWords.{IsExpectedWord};
ghost use Rattle.commandline.specs.Invocations.{expected_words, line_words};
ghost use Rattle.commandline.specs.LineWords.{HasPath, IsLineWord, SharePath};
ghost use Rattle.commandoptions.specs.declared.expected_word.ExpectedWord.{ExpectedWord as Expected};
ghost use Rattle.commandoptions.specs.declared.line_word.LineWord.{LineWord as Line};

use clap::ArgMatches;
use commandline::{ExpectedFault, Invocation, LineWordFault, Tool, WordFault, invocation_of};
use commandoptions::LineWord;

/// `an_expected_name_may_be_empty`: a word that begins with `=` was taken.
pub fn expected_name_has_bytes(found: &ArgMatches<'_>) -> Option<usize>
    ensures { IfSome result (λ bytes. 0 < bytes) }
{
    match invocation_of("play", found) {
        Ok(Invocation::Play { shows, .. }) => match shows.expects.as_slice().first() {
            Some(first) => Some(first.name.len()),
            None => None,
        },
        _ => None,
    }
}

/// `a_word_that_says_nothing_expected_is_one_too_many`: of up to 16 words one was too many.
pub fn none_of_16_words_is_one_too_many(found: &ArgMatches<'_>) -> bool
    requires { length (expected_words (rows_of (found_of found.now))) ≤ 16 }
    ensures { result ≡ false }
{
    matches!(
        invocation_of("play", found),
        Err(WordFault::Expected(ExpectedFault::TooMany(_)))
    )
}

/// `a_seventeenth_word_says_nothing_expected`: of words that each say what is expected one was said
/// to say nothing.
pub fn word_that_says_what_is_expected_is_a_pair(found: &ArgMatches<'_>) -> bool
    requires { All (λ word. (expected : Expected) × IsExpectedWord word expected)
        (expected_words (rows_of (found_of found.now))) }
    ensures { result ≡ false }
{
    matches!(
        invocation_of("play", found),
        Err(WordFault::Expected(ExpectedFault::NoPair(_)))
    )
}

/// `a_word_that_names_no_line_is_passed_over`: of two words for lines one was left out.
pub fn each_of_two_words_names_a_line(found: &ArgMatches<'_>) -> Option<usize>
    requires { length (line_words (rows_of (found_of found.now))) ≡ 2 }
    ensures { IfSome result (λ lines. lines ≡ 2) }
{
    match invocation_of("live", found) {
        Ok(Invocation::Live { lines, .. }) => Some(lines.len()),
        _ => None,
    }
}

/// `buses_of_lines_count_from_1`: `63=PATH` named bus 64.
pub fn bus_of_a_line_is_below_64(found: &ArgMatches<'_>) -> Option<u8>
    ensures { IfSome result (λ bus. bus < 64) }
{
    match invocation_of("live", found) {
        Ok(Invocation::Live { lines, .. }) => match lines.as_slice().first() {
            Some(first) => Some(first.bus),
            None => None,
        },
        _ => None,
    }
}

/// `from_and_to_are_exchanged`: of `a,b` the second path was read.
pub fn first_path_is_read<'a>(found: &ArgMatches<'a>) -> Option<&'a str>
    requires { first_of (codes "line") (rows_of (found_of found.now)) ≡ Some (codes "a,b") }
    ensures { IfSome result (λ from. from.now ≡ codes "a") }
{
    match invocation_of("blink", found) {
        Ok(Invocation::Tool(Tool::Blink { line, .. })) => Some(line.from),
        _ => None,
    }
}

/// `a_path_may_have_a_comma`: of `a,b,c` all behind the first comma was one path.
pub fn written_path_has_no_comma(found: &ArgMatches<'_>) -> bool
    ensures { result ≡ false }
{
    match invocation_of("blink", found) {
        Ok(Invocation::Tool(Tool::Blink { line, .. })) => match line.to {
            Some(to) => to.as_bytes().contains(&b','),
            None => false,
        },
        _ => false,
    }
}

/// `two_lines_have_one_path`, `two_lines_may_write_one_path`,
/// `a_path_is_read_by_one_line_and_written_by_another`: two lines with one path were taken.
pub fn two_lines_share_no_path(found: &ArgMatches<'_>) -> bool
    ensures { result ≡ false }
{
    match invocation_of("live", found) {
        Ok(Invocation::Live { lines, .. }) => {
            let lines = lines.as_slice();
            lines.len() == 2 && share(&lines[0], &lines[1])
        }
        _ => false,
    }
}

/// Whether a path is of both lines.
fn share(one: &LineWord, other: &LineWord) -> bool
    ensures { IsTrue result ↔ SharePath one.now other.now }
{
    has_path(one, other.from)
        || match other.to {
            Some(to) => has_path(one, to),
            None => false,
        }
}

/// Whether a path is one of the line's.
fn has_path(line: &LineWord, path: &str) -> bool
    ensures { IsTrue result ↔ HasPath line.now path.now }
{
    line.from == path
        || match line.to {
            Some(to) => to == path,
            None => false,
        }
}

/// `a_second_line_of_a_bus_has_its_path`: of words that all name bus 1 one was said to share a path
/// with that of another bus.
pub fn second_line_of_a_bus_names_it_again(found: &ArgMatches<'_>) -> bool
    requires { All (λ word. (line : Line) → IsLineWord word line → line.bus ≡ 1)
        (line_words (rows_of (found_of found.now))) }
    ensures { result ≡ false }
{
    matches!(
        invocation_of("live", found),
        Err(WordFault::Line(LineWordFault::Shared(_)))
    )
}
