//! Whether what `clap` found is at fault.

ghost use Rattle.std.specs.Prelude.{◌≡◌, ◌↔◌, IsSome, IsTrue, Some, codes};
ghost use Rattle.clap.specs.Words.{first_of, found_of, one_of, rows_of};
ghost use Rattle.commandline.specs.CommandLine.{AsksBesideCode, AsksOfText, HasLastWord};
ghost use Rattle.commandline.specs.CommandLine.{HasNoFileBeside, HasNoLog, HasPlayFiles};
ghost use Rattle.commandline.specs.CommandLine.{HasNoStatus, IsConflicting, IsGivenUnder, IsLacking};
ghost use Rattle.commandline.specs.CommandLine.{IsInput, IsPlayName, NamesBindingTwice, NamesInput};
ghost use Rattle.commandline.specs.CommandLine.{NamesNoBinding, NamesNoCodeFile, NamesNoScenario};
ghost use Rattle.commandline.specs.CommandLine.{WritesOverInput};

use crate::text_words::{CodeWords, code_words_in};
use clap::ArgMatches;

/// Whether one thing is given beside another one that it cannot be used with.
pub(crate) fn is_conflicting(name: &str, found: &ArgMatches) -> bool
    ensures { IsTrue result ↔ IsConflicting name.now (rows_of (found_of found.now)) }
{
    asks_beside_code(name, found) || names_binding_twice(name, found)
}

/// Whether a binding or JSON is asked for beside a code file.
pub(crate) fn asks_beside_code(name: &str, found: &ArgMatches) -> bool
    ensures { IsTrue result ↔ AsksBesideCode name.now (rows_of (found_of found.now)) }
{
    name == "check" && is_on(found, "code") && asks_of_text(found)
}

/// Whether a binding or JSON is asked for.
fn asks_of_text(found: &ArgMatches) -> bool
    ensures { IsTrue result ↔ AsksOfText (rows_of (found_of found.now)) }
{
    is_given(found, "bind") || is_given(found, "BIND") || is_on(found, "json")
}

/// Whether the binding is named by `--bind` and by a word too.
fn names_binding_twice(name: &str, found: &ArgMatches) -> bool
    ensures { IsTrue result ↔ NamesBindingTwice name.now (rows_of (found_of found.now)) }
{
    is_given(found, "bind") && has_last_word(name, found)
}

/// Whether there is the last of the words that may stand behind a text, of which there is one less
/// beside `--bind`.
fn has_last_word(name: &str, found: &ArgMatches) -> bool
    ensures { IsTrue result ↔ HasLastWord name.now (rows_of (found_of found.now)) }
{
    is_given_under(name, found, "check", "notes", "BIND")
        || is_given_under(name, found, "step", "list", "TASK")
        || is_given_under(name, found, "code", "code", "OUT")
        || is_given_under(name, found, "look", "explain", "SCENARIO")
        || is_given_under(name, found, "play", "run", "SCENARIO")
}

/// Whether a word is given under one of two commands.
fn is_given_under(name: &str, found: &ArgMatches, one: &str, other: &str, id: &str) -> bool
    ensures { IsTrue result
        ↔ IsGivenUnder one.now other.now id.now name.now (rows_of (found_of found.now)) }
{
    (name == one || name == other) && is_given(found, id)
}

/// Whether a file lacks.
pub(crate) fn is_lacking(name: &str, found: &ArgMatches) -> bool
    ensures { IsTrue result ↔ IsLacking name.now (rows_of (found_of found.now)) }
{
    names_no_binding(name, found)
        || names_no_scenario(name, found)
        || names_no_code_file(name, found)
        || has_no_file_beside(name, found)
}

/// Whether a text is named without its binding.
fn names_no_binding(name: &str, found: &ArgMatches) -> bool
    ensures { IsTrue result ↔ NamesNoBinding name.now (rows_of (found_of found.now)) }
{
    name == "probe" && is_given(found, "TEXT") && !is_given(found, "BIND")
}

/// Whether a scenario that is played, run or looked at is not named, or no binding for it.
fn names_no_scenario(name: &str, found: &ArgMatches) -> bool
    ensures { IsTrue result ↔ NamesNoScenario name.now (rows_of (found_of found.now)) }
{
    is_play_name(name) && !has_play_files(found)
}

/// Whether a scenario is asked for under this name.
pub(crate) fn is_play_name(name: &str) -> bool
    ensures { IsTrue result ↔ IsPlayName name.now }
{
    name == "play" || name == "look" || name == "run"
}

/// Whether there is a word behind the text, and the binding by `--bind` or one word more.
fn has_play_files(found: &ArgMatches) -> bool
    ensures { IsTrue result ↔ HasPlayFiles (rows_of (found_of found.now)) }
{
    is_given(found, "BIND") && (is_given(found, "bind") || is_given(found, "SCENARIO"))
}

/// Whether no word behind the text names the code file that is written.
fn names_no_code_file(name: &str, found: &ArgMatches) -> bool
    ensures { IsTrue result ↔ NamesNoCodeFile name.now (rows_of (found_of found.now)) }
{
    name == "code" && !is_given(found, "BIND")
}

/// Whether JSON is asked for without a file for how a building stands, or the size of a log that
/// has no file.
fn has_no_file_beside(name: &str, found: &ArgMatches) -> bool
    ensures { IsTrue result ↔ HasNoFileBeside name.now (rows_of (found_of found.now)) }
{
    name == "live" && (has_no_status(found) || has_no_log(found))
}

/// Whether JSON is asked for without a file for how a building stands.
pub(crate) fn has_no_status(found: &ArgMatches) -> bool
    ensures { IsTrue result ↔ HasNoStatus (rows_of (found_of found.now)) }
{
    is_on(found, "json") && !is_given(found, "status")
}

/// Whether the size of a log is given that has no file.
fn has_no_log(found: &ArgMatches) -> bool
    ensures { IsTrue result ↔ HasNoLog (rows_of (found_of found.now)) }
{
    is_given(found, "log-size") && !is_given(found, "log")
}

/// Whether the code file that is written is the text or the binding.
pub(crate) fn writes_over_input(name: &str, found: &ArgMatches) -> bool
    ensures { IsTrue result ↔ WritesOverInput name.now (rows_of (found_of found.now)) }
{
    name == "code" && names_input(found)
}

/// Whether the last of the words of `code` is the text or the binding.
fn names_input(found: &ArgMatches) -> bool
    ensures { IsTrue result ↔ NamesInput (rows_of (found_of found.now)) }
{
    is_input(code_words_in(found))
}

/// Whether the code file is the text or the binding.
fn is_input(words: CodeWords) -> bool
    ensures { IsTrue result ↔ IsInput words.entry.files words.entry.to }
{
    words.files.text == words.to
        || match words.files.binding {
            Some(binding) => binding == words.to,
            None => false,
        }
}

/// Whether a flag is given.
fn is_on(found: &ArgMatches, id: &str) -> bool
    ensures { IsTrue result ↔ (one_of id.now (rows_of (found_of found.now)) ≡ Some (codes "true")) }
{
    found.get_one::<bool>(id).unwrap_or(false)
}

/// Whether a word is given.
pub(crate) fn is_given(found: &ArgMatches, id: &str) -> bool
    ensures { IsTrue result ↔ IsSome (first_of id.now (rows_of (found_of found.now))) }
{
    found.get_str(id).is_some()
}
