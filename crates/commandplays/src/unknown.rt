//! What is said of variables that are not there: each with those that are.

use commandfiles::add_texts;
use commandoptions::ExpectedWord;
use ilplan::Plan;
use plantplay::{report_unknown, report_unwatchable};
use printout::Printout;
use std::alloc::Global;
use std::io;
use std::io::Write;

/// Writes a line for each name that is expected and that no global variable has, with those that
/// there are.
///
/// # Errors
///
/// The writer's, or that the allocator is out of memory.
pub(crate) fn write_unknown<E: Write>(
    alloc: Global,
    to: &mut E,
    plan: &Plan,
    expected: &[ExpectedWord],
) -> io::Result<()> {
    let mut lines = Vec::new(alloc);
    report_unknown(&mut lines, plan, expected)?;
    with_globals(alloc, plan, &lines, "there is none", "\n").write_to(to)
}

/// Writes a line for each name that is watched and that no variable has, with the global variables
/// that there are.
///
/// # Errors
///
/// The writer's, or that the allocator is out of memory.
pub(crate) fn write_unwatchable<E: Write>(
    alloc: Global,
    to: &mut E,
    plan: &Plan,
    watched: &[&str],
) -> io::Result<()> {
    let mut lines = Vec::new(alloc);
    report_unwatchable(&mut lines, plan, watched)?;
    let others = if plan.globals() == 0 {
        "there are those of program instances, as INSTANCE.NAME\n"
    } else {
        ", and those of program instances, as INSTANCE.NAME\n"
    };
    with_globals(alloc, plan, &lines, "", others).write_to(to)
}

/// These lines, each with the global variables that there are, or with what is said where there is
/// none, and then with what stands at its end.
fn with_globals(alloc: Global, plan: &Plan, lines: &[u8], none: &str, end: &str) -> Printout {
    let mut page = Printout::new(alloc);
    for line in str::from_utf8(lines).unwrap_or("").lines() {
        add_texts(&mut page, &[line, ": "]);
        list_globals(&mut page, plan, none);
        page.text(end);
    }
    page
}

/// Adds which global variables there are, or what is said where there is none.
fn list_globals(page: &mut Printout, plan: &Plan, none: &str) {
    page.text(match plan.globals() {
        0 => none,
        1 => "there is ",
        _ => "there are ",
    });
    for number in 0..plan.globals() {
        page.text(if number == 0 { "" } else { ", " });
        page.shown(&plan.global_name(number));
    }
}
