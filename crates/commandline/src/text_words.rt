//! The words behind a text: which of them is the binding, and which names a task.

ghost use Rattle.std.specs.Prelude.{◌≡◌, option_map};
ghost use Rattle.clap.specs.Words.{found_of, rows_of};
ghost use Rattle.commandline.specs.TextWords.{AreCodeWords, AreNamed, AreTaskWords, IsBound};
ghost use Rattle.commandline.specs.TextWords.{binding_alone, binding_by, names_file, task_alone};
ghost use Rattle.commandline.specs.TextWords.{task_by};

use crate::questions::word_in;
use crate::readers::text_in;
use clap::ArgMatches;
use commandoptions::Files;

/// The files that a command reads, and the task that it is about, where its name is given.
#[derive(Clone, Copy)]
pub(crate) struct TaskWords<'a> {
    pub(crate) files: Files<'a>,
    pub(crate) task: Option<&'a str>,
}

/// What the words of `code` name: the files that it reads, the task, where its name is given, and
/// the path of the code file.
#[derive(Clone, Copy)]
pub struct CodeWords<'a> {
    pub files: Files<'a>,
    pub task: Option<&'a str>,
    pub to: &'a str,
}

/// The binding and the task that words name, where they do.
#[derive(Clone, Copy)]
struct Named<'a> {
    binding: Option<&'a str>,
    task: Option<&'a str>,
}

/// The text, and its binding, where one is named.
pub(crate) fn files_in<'a>(found: &ArgMatches<'a>) -> Files<'a>
    ensures { IsBound (rows_of (found_of found.now)) result }
{
    let text = text_in(found, "TEXT");
    match word_in(found, "bind") {
        Some(binding) => Files {
            text,
            binding: Some(binding),
        },
        None => Files {
            text,
            binding: word_in(found, "BIND"),
        },
    }
}

/// The text, its binding and the task, as up to two words behind the text name them.
pub(crate) fn task_words_in<'a>(found: &ArgMatches<'a>) -> TaskWords<'a>
    ensures { AreTaskWords (rows_of (found_of found.now)) result.files result.task }
{
    named_in(found, word_in(found, "BIND"), word_in(found, "TASK"))
}

/// The files and the task of `code`, and the path of the code file, which the last word names.
pub fn code_words_in<'a>(found: &ArgMatches<'a>) -> CodeWords<'a>
    ensures { AreCodeWords (rows_of (found_of found.now)) result.files result.task result.to }
{
    let first = word_in(found, "BIND");
    let second = word_in(found, "TASK");
    if let Some(to) = word_in(found, "OUT") {
        return code_words(named_in(found, first, second), to);
    }
    if let Some(to) = second {
        return code_words(named_in(found, first, None), to);
    }
    code_words(named_in(found, None, None), first.unwrap_or(""))
}

/// What the words of `code` name: those before the last, and the last.
fn code_words<'a>(before: TaskWords<'a>, to: &'a str) -> CodeWords<'a>
    ensures files { result.files ≡ before.entry.files }
    ensures task { result.task ≡ before.entry.task }
    ensures path { result.to ≡ to.entry }
{
    CodeWords {
        files: before.files,
        task: before.task,
        to,
    }
}

/// The text, and the binding and the task that two words behind it name.
fn named_in<'a>(
    found: &ArgMatches<'a>,
    first: Option<&'a str>,
    second: Option<&'a str>,
) -> TaskWords<'a>
    ensures { AreNamed (rows_of (found_of found.now)) (option_map (λ word. word.now) first.entry)
        (option_map (λ word. word.now) second.entry) result.files result.task }
{
    let named = named_by(word_in(found, "bind"), first, second);
    TaskWords {
        files: Files {
            text: text_in(found, "TEXT"),
            binding: named.binding,
        },
        task: named.task,
    }
}

/// The binding and the task, by `--bind` and two words behind the text.
fn named_by<'a>(bind: Option<&'a str>, first: Option<&'a str>, second: Option<&'a str>) -> Named<'a>
    ensures binding { option_map (λ word. word.now) result.binding
        ≡ binding_by (option_map (λ word. word.now) bind.entry)
        (option_map (λ word. word.now) first.entry) (option_map (λ word. word.now) second.entry) }
    ensures task { option_map (λ word. word.now) result.task
        ≡ task_by (option_map (λ word. word.now) bind.entry)
        (option_map (λ word. word.now) first.entry) (option_map (λ word. word.now) second.entry) }
{
    if let Some(binding) = bind {
        return Named {
            binding: Some(binding),
            task: first,
        };
    }
    if let Some(task) = second {
        return Named {
            binding: first,
            task: Some(task),
        };
    }
    named_alone(first)
}

/// The binding and the task, by one word behind the text that is alone there.
fn named_alone<'a>(word: Option<&'a str>) -> Named<'a>
    ensures binding { option_map (λ word. word.now) result.binding
        ≡ binding_alone (option_map (λ word. word.now) word.entry) }
    ensures task { option_map (λ word. word.now) result.task
        ≡ task_alone (option_map (λ word. word.now) word.entry) }
{
    let Some(word) = word else {
        return Named {
            binding: None,
            task: None,
        };
    };
    if names_file(word) {
        return Named {
            binding: Some(word),
            task: None,
        };
    }
    Named {
        binding: None,
        task: Some(word),
    }
}

/// Whether a word names a file, which no task's name does.
fn names_file(word: &str) -> bool
    ensures { result ≡ names_file word.now }
{
    word.as_bytes().contains(&b'.') || word.as_bytes().contains(&b'/')
}
