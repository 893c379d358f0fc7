//! The bodies of a code, those of its programs and of its functions: how many words of a longest
//! path each has, their lines in a table, and the chains of calls, the one that makes a path long,
//! and the deepest one.

use crate::marks::{add_at, count_at, is_marked, mark};
use crate::task_names::TaskNames;
use crate::uses::line_at;
use crate::words::{Part, PartText};
use ilcode::{Code, Word};
use iltypes::Condition;
use ilverify::LongestWays;
use printout::Printout;
use std::alloc::{AllocError, Global};

/// The place where a body begins: that of the programs is 0, that of function n is n + 1.
fn start_of(code: &Code, body: usize) -> usize {
    match body.checked_sub(1) {
        Some(function) => code.end_of(function),
        None => 0,
    }
}

/// The most words on a path through a function.
pub(crate) fn words_in(code: &Code, ways: &LongestWays, function: usize) -> u32 {
    ways.words_from(function.saturating_add(1), code.end_of(function))
}

/// The number of the function that the word at a place calls.
fn callee_at(code: &Code, place: usize) -> Option<usize> {
    match code.get(place)? {
        Word::Invoke(function) => Some(usize::from(function)),
        _ => None,
    }
}

/// A longest path, as far as it is followed.
#[derive(Drop)]
pub(crate) struct LongestPath {
    /// For each place whether its word is on the path.
    pub words: Vec<bool>,
    /// How often it calls each function.
    pub calls: Vec<u32>,
}

/// A longest path of a code. A function is called by those behind it alone, so the programs are
/// gone over first, and then the functions from the last to the first.
pub(crate) fn longest_path(
    alloc: Global,
    code: &Code,
    ways: &LongestWays,
) -> Result<LongestPath, AllocError> {
    let mut path = LongestPath::new(alloc, code)?;
    path.follow(code, ways, 0, 1);
    for function in (0..code.functions().len()).rev() {
        let times = count_at(&path.calls, function);
        if times > 0 {
            path.follow(code, ways, function.saturating_add(1), times);
        }
    }
    Ok(path)
}

impl LongestPath {
    /// A path that is not followed yet.
    fn new(alloc: Global, code: &Code) -> Result<LongestPath, AllocError> {
        Ok(LongestPath {
            words: vec![in alloc; false; code.len()]?,
            calls: vec![in alloc; 0; code.functions().len()]?,
        })
    }

    /// Marks the words of a path through a body, from its first word on, which the longest path
    /// takes the given number of times.
    fn follow(&mut self, code: &Code, ways: &LongestWays, body: usize, times: u32) {
        let mut place = start_of(code, body);
        let end = code.end_of(body);
        for _ in place..end {
            if place >= end {
                return;
            }
            mark(&mut self.words, place);
            if let Some(function) = callee_at(code, place) {
                add_at(&mut self.calls, function, times);
            }
            place = place_after(code, ways, body, place);
        }
    }

    /// How many words of its own a body has on the path.
    fn own_words(&self, code: &Code, body: usize) -> usize {
        let mut words: usize = 0;
        for place in start_of(code, body)..code.end_of(body) {
            if is_marked(&self.words, place) {
                words = words.saturating_add(1);
            }
        }
        words
    }
}

/// Where the longest path through a body goes on from a place: to the next word where both ways are
/// as long.
fn place_after(code: &Code, ways: &LongestWays, body: usize, place: usize) -> usize {
    let next = place.saturating_add(1);
    let Some(Word::Jump { condition, target }) = code.get(place) else {
        return next;
    };
    let target = target as usize;
    let is_longer = ways.words_from(body, target) > ways.words_from(body, next);
    if condition == Condition::Always || is_longer {
        target
    } else {
        next
    }
}

/// Adds a number behind a text.
pub(crate) fn add_number(page: &mut Printout, before: &str, number: u32) {
    page.text(before);
    page.number(i64::from(number));
}

/// Adds a number, with blanks before it up to so many columns.
pub(crate) fn add_column(page: &mut Printout, number: usize, columns: usize) {
    let mut least: usize = 10;
    for _ in 1..columns {
        if number < least {
            page.text(" ");
        }
        least = least.saturating_mul(10);
    }
    page.count(number);
}

/// Adds a name.
fn add_name(page: &mut Printout, names: &TaskNames, part: Part) {
    page.shown(&PartText { names, part });
}

/// Adds, where the code has functions, what makes the bound: how many words of a longest path are
/// of the programs, and of each function that it goes through, and how often it does.
pub(crate) fn add_bound(page: &mut Printout, names: &TaskNames, path: &LongestPath, bound: u32) {
    let code = names.code;
    if code.functions().is_empty() {
        return;
    }
    add_number(page, "bound ", bound);
    page.text(" = ");
    page.count(path.own_words(code, 0));
    page.text(" in programs");
    for function in (0..code.functions().len()).rev() {
        let times = count_at(&path.calls, function);
        if times > 0 {
            page.text(" + ");
            if times > 1 {
                add_number(page, "", times);
                page.text(" * ");
            }
            page.count(path.own_words(code, function.saturating_add(1)));
            page.text(" in ");
            add_name(page, names, Part::Function(function));
        }
    }
    page.text("\n");
}

/// Adds a line for each function that begins at a place: its name, its words, the greatest number
/// of words on a path from its first word on, and who calls it.
pub(crate) fn add_functions_at(
    page: &mut Printout,
    names: &TaskNames,
    ways: &LongestWays,
    place: usize,
) {
    for (number, function) in names.code.functions().iter().enumerate() {
        if function.start == place {
            let end = names.code.end_of(number.saturating_add(1));
            page.text("function ");
            add_name(page, names, Part::Function(number));
            page.text(" words ");
            page.count(end.saturating_sub(place));
            add_number(page, " bound ", words_in(names.code, ways, number));
            add_callers(page, names, number);
            page.text("\n");
        }
    }
}

/// Adds who calls a function, each once, in the order of the code.
fn add_callers(page: &mut Printout, names: &TaskNames, function: usize) {
    let mut last = None;
    for place in 0..names.code.len() {
        if callee_at(names.code, place) == Some(function) {
            let caller = caller_at(names.code, place);
            if last != Some(caller) {
                page.text(if last.is_none() { " called by " } else { ", " });
                add_name(page, names, Part::Caller(caller));
            }
            last = Some(caller);
        }
    }
}

/// The number of who has the word at a place of a code: program instances count first, then its
/// functions. Of the instances it is the last that begins there or before.
fn caller_at(code: &Code, place: usize) -> usize {
    let starts = code.starts();
    if let Some(function) = code.body_at(place).checked_sub(1) {
        return starts.len().saturating_add(function);
    }
    let mut begun: usize = 0;
    for start in starts {
        if *start <= place {
            begun = begun.saturating_add(1);
        }
    }
    begun.saturating_sub(1)
}

/// Prints the chain of calls that has most of the words of a longest path: a line for each, with
/// how often the path makes it, and the words of the longest path through what is called. From the
/// programs on, and from each function, the call is followed that has the most words in all.
///
/// # Errors
///
/// The allocator is out of memory.
pub fn print_longest_calls(
    alloc: Global,
    page: &mut Printout,
    names: &TaskNames,
) -> Result<(), AllocError> {
    page.text("the calls that make it:\n");
    let Some(ways) = LongestWays::of(alloc, names.code)? else {
        return Ok(());
    };
    let mut body: usize = 0;
    for _ in 0..names.code.functions().len() {
        let mut path = LongestPath::new(alloc, names.code)?;
        path.follow(names.code, &ways, body, 1);
        let Some(function) = longest_call(names.code, &ways, &path.calls) else {
            break;
        };
        let words = words_in(names.code, &ways, function);
        add_first_call(page, names, body, function);
        add_times(page, count_at(&path.calls, function), words);
        body = function.saturating_add(1);
    }
    Ok(())
}

/// Adds how often a function is called, and how many words that is each time.
fn add_times(page: &mut Printout, times: u32, words: u32) {
    if times > 1 {
        add_number(page, " ", times);
        page.text(" times");
    }
    add_number(page, ", ", words);
    page.text(if times > 1 {
        " words each time\n"
    } else {
        " words\n"
    });
}

/// The function whose calls have the most words in all, where one is called; of several the first.
fn longest_call(code: &Code, ways: &LongestWays, calls: &[u32]) -> Option<usize> {
    let mut found = None;
    let mut greatest: u32 = 0;
    for (function, times) in calls.iter().enumerate() {
        let all = words_in(code, ways, function).saturating_mul(*times);
        if all > greatest {
            greatest = all;
            found = Some(function);
        }
    }
    found
}

/// Adds the first call of a function in a body.
fn add_first_call(page: &mut Printout, names: &TaskNames, body: usize, function: usize) {
    for place in start_of(names.code, body)..names.code.end_of(body) {
        if callee_at(names.code, place) == Some(function) {
            return add_call(page, names, place, function);
        }
    }
}

/// Adds who calls what at a place, with the line.
fn add_call(page: &mut Printout, names: &TaskNames, place: usize, function: usize) {
    add_column(page, line_at(names.code, place), 6);
    page.text(" | ");
    add_name(page, names, Part::Caller(caller_at(names.code, place)));
    page.text(" calls ");
    add_name(page, names, Part::Function(function));
}

/// Prints the longest chain of calls that begins with the call at a place, a line for each. It goes
/// on while a function calls one before it.
///
/// # Errors
///
/// The allocator is out of memory.
pub fn print_deepest_calls(
    alloc: Global,
    page: &mut Printout,
    names: &TaskNames,
    place: usize,
) -> Result<(), AllocError> {
    page.text("the chain of calls:\n");
    let code = names.code;
    let functions = code.functions().len();
    let mut depths = vec![in alloc; 0; functions]?;
    for function in 0..functions {
        let (_, below) = deepest_call(code, &depths, function);
        add_at(&mut depths, function, below.saturating_add(1));
    }
    let mut place = place;
    for _ in 0..functions.saturating_add(1) {
        let Some(function) = callee_at(code, place) else {
            break;
        };
        add_call(page, names, place, function);
        page.text("\n");
        place = deepest_call(code, &depths, function).0;
    }
    Ok(())
}

/// The place of the call in a function that leads deepest, among those of functions before it, and
/// how many calls are open at once in what it calls; of several the first. Where there is none, it
/// is the place past the last word, and none are open.
fn deepest_call(code: &Code, depths: &[u32], function: usize) -> (usize, u32) {
    let mut found = (code.len(), 0);
    let body = function.saturating_add(1);
    for place in start_of(code, body)..code.end_of(body) {
        let depth = match callee_at(code, place) {
            Some(called) if called < function => count_at(depths, called),
            _ => 0,
        };
        if depth > found.1 {
            found = (place, depth);
        }
    }
    found
}
