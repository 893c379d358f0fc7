//! What installers ask of a text.

ghost use Rattle.std.specs.Prelude.{◌≡◌, MatchOption, codes, option_map};
ghost use Rattle.clap.specs.Words.{first_of, found_of, rows_of};
ghost use Rattle.commandline.specs.Invocations.{IsNoQuestion, IsQuestion};
ghost use Rattle.commandline.specs.TextWords.{scenario_by};

use crate::readers::flag_in;
use crate::text_words::{files_in, task_words_in};
use clap::ArgMatches;
use commandoptions::Files;

/// What an installer asks of a text.
#[derive(Clone, Copy)]
pub enum Question<'a> {
    /// `notes TEXT [BIND] [--deny NOTE] [--json]`: what is likely not meant.
    Notes {
        /// The name of the notes that are denied, or `all`, where one is given.
        denied: Option<&'a str>,
        is_json: bool,
    },
    /// `list TEXT [BIND] [TASK] [--json]`: the words of the task of this name, or of all.
    Words {
        task: Option<&'a str>,
        is_json: bool,
    },
    /// `explain TEXT [BIND [SCENARIO]] [--json]`: what stands against it, or else against the
    /// scenario of this path.
    Faults {
        scenario: Option<&'a str>,
        is_json: bool,
    },
    /// `check TEXT [BIND] --json`: the words of each task and the bound of a scan.
    Sizes,
}

/// The files and the question of what was found under a command's name, where it is the name of
/// one.
pub(crate) fn question_of<'a>(
    name: &str,
    found: &ArgMatches<'a>,
) -> Option<(Files<'a>, Question<'a>)>
    ensures { MatchOption result (IsNoQuestion name.now)
        (λ asked. IsQuestion name.now (rows_of (found_of found.now)) asked.0 asked.1) }
{
    if name == "notes" {
        let question = Question::Notes {
            denied: word_in(found, "deny"),
            is_json: flag_in(found, "json"),
        };
        return Some((files_in(found), question));
    }
    if name == "list" {
        let words = task_words_in(found);
        let question = Question::Words {
            task: words.task,
            is_json: flag_in(found, "json"),
        };
        return Some((words.files, question));
    }
    if name == "explain" {
        let question = Question::Faults {
            scenario: scenario_in(found),
            is_json: flag_in(found, "json"),
        };
        return Some((files_in(found), question));
    }
    None
}

/// The scenario that is explained, where one is named.
fn scenario_in<'a>(found: &ArgMatches<'a>) -> Option<&'a str>
    ensures { option_map (λ path. path.now) result
        ≡ scenario_by (first_of (codes "bind") (rows_of (found_of found.now)))
        (first_of (codes "BIND") (rows_of (found_of found.now)))
        (first_of (codes "SCENARIO") (rows_of (found_of found.now))) }
{
    match word_in(found, "bind") {
        Some(_) => word_in(found, "BIND"),
        None => word_in(found, "SCENARIO"),
    }
}

/// The word that was given, where one was.
pub fn word_in<'a>(found: &ArgMatches<'a>, id: &str) -> Option<&'a str>
    ensures { option_map (λ word. word.now) result
        ≡ first_of id.now (rows_of (found_of found.now)) }
{
    found.get_str(id)
}
