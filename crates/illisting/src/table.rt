//! The table of a task's words.

ghost use Rattle.std.specs.Prelude.{◌<◌, length};

use crate::bodies::{add_bound, add_column, add_functions_at, add_number, longest_path, words_in};
use crate::marks::is_marked;
use crate::task_names::{TaskNames, functions_in};
use crate::uses::line_at;
use crate::words::{KnownText, WordText};
use ilcode::Word;
use ilcompile::Setup;
use iltypes::Condition;
use ilverify::{Entry, LongestWays, Pass, Passed};
use printout::Printout;
use std::alloc::{AllocError, Global};
use std::io;
use std::io::Write;

/// Writes the words of a task: a line with their number and the bound, one with what makes the
/// bound where the task uses functions, and then a line for each word, and one before the words of
/// each function. A star marks the words of a longest path, `left` is the number of words of the
/// longest path from there to the end, which is that of its function where the word is one of a
/// function.
///
/// # Errors
///
/// The writer's, or that the allocator is out of memory.
pub fn write_task<W: Write>(
    alloc: Global,
    out: &mut W,
    setup: &Setup,
    task: usize,
) -> io::Result<()>
    requires { task < length setup.now.plan.tasks }
{
    let mut page = Printout::new(alloc);
    add_task(alloc, &mut page, setup, task)?;
    page.write_to(out)
}

/// Adds the words of a task.
fn add_task(
    alloc: Global,
    page: &mut Printout,
    setup: &Setup,
    task: usize,
) -> Result<(), AllocError>
    requires { task < length setup.now.plan.tasks }
{
    let plan = setup.plan();
    let verified = setup.code(task);
    let code = verified.code();
    let functions = functions_in(alloc, plan, task)?;
    let names = TaskNames {
        plan,
        task,
        code,
        functions: &functions,
    };
    let Some(ways) = LongestWays::of(alloc, code)? else {
        return Ok(());
    };
    let longest = longest_path(alloc, code, &ways)?;
    page.text("task ");
    page.text(plan.task_name(task));
    page.text(" words ");
    page.count(code.len());
    add_number(page, " bound ", verified.bound());
    page.text("\n");
    add_bound(page, &names, &longest, verified.bound());
    page.text("   word  line  left  what it does              known before it\n");
    add_words(alloc, page, &names, &ways, &longest.words)
}

/// Adds a line for each word, and one before the words of each function.
fn add_words(
    alloc: Global,
    page: &mut Printout,
    names: &TaskNames,
    ways: &LongestWays,
    on_longest: &[bool],
) -> Result<(), AllocError> {
    let code = names.code;
    let mut pass = Pass::begin(alloc, code)?;
    for place in 0..code.len() {
        add_functions_at(page, names, ways, place);
        page.text(if is_marked(on_longest, place) {
            "* "
        } else {
            "  "
        });
        add_numbers(page, names, ways, place);
        add_word(alloc, page, names, code.word(place), pass.entry())?;
        add_ways(page, names, ways, place);
        let Passed::On(next) = pass.advance()? else {
            return Ok(());
        };
        pass = next;
    }
    add_functions_at(page, names, ways, code.len());
    Ok(())
}

/// Adds the numbers of a word: its place, its line, and the words from it on.
fn add_numbers(page: &mut Printout, names: &TaskNames, ways: &LongestWays, place: usize) {
    let left = ways.words_from(names.code.body_at(place), place);
    add_column(page, place, 5);
    page.text(" ");
    add_column(page, line_at(names.code, place), 5);
    page.text(" ");
    add_column(page, left as usize, 5);
    page.text("  ");
}

/// How many columns a word has.
const WORD_COLUMNS: usize = 24;

/// Adds what a word does, and what is known before it.
fn add_word(
    alloc: Global,
    page: &mut Printout,
    names: &TaskNames,
    word: Word,
    entry: Option<&Entry>,
) -> Result<(), AllocError> {
    let text = WordText { names, word };
    let text = format!(in alloc; "{text}")?;
    page.text(&text);
    page.repeat(" ", WORD_COLUMNS.saturating_sub(text.len()));
    page.text("  ");
    match entry {
        Some(entry) => page.shown(&KnownText { names, word, entry }),
        None => page.text("no scan comes here"),
    }
    Ok(())
}

/// Ends the line of a word: with how long the longest paths are on both ways from a jump that has
/// two, and in a function that is called.
fn add_ways(page: &mut Printout, names: &TaskNames, ways: &LongestWays, place: usize) {
    match names.code.get(place) {
        Some(Word::Jump { condition, target }) if condition != Condition::Always => {
            let body = names.code.body_at(place);
            add_number(page, "; ", ways.words_from(body, target as usize));
            let next = ways.words_from(body, place.saturating_add(1));
            add_number(page, " left there, else ", next);
            page.text("\n");
        }
        Some(Word::Invoke(function)) => {
            let words = words_in(names.code, ways, usize::from(function));
            add_number(page, "; ", words);
            page.text(" in the function\n");
        }
        _ => page.text("\n"),
    }
}
