//! Answers as JSON: one object on one line, whose member `version` is 1.

ghost use Rattle.std.specs.Prelude.{◌<◌, length};

use crate::telling::is_listed;
use commandfiles::{ExitStatus, Stop, task_line};
use ilcompile::Setup;
use illisting::write_task;
use ilnotes::{NotesAsked, Played, Quoted, write_notes};
use ilsource::Source;
use printout::Printout;
use std::alloc::Global;
use std::io;

/// What stands before why a text is not accepted.
const FAULT: &str = "{\"version\":1,\"accepted\":false,\"fault\":\"";

/// What stands before the lines that explain why a text is not accepted.
const EXPLANATION: &str = "{\"version\":1,\"accepted\":false,\"explanation\":";

/// What stands before the notes on an accepted text.
const NOTES: &str = "{\"version\":1,\"accepted\":true,\"notes\":[";

/// What stands before the tasks of an accepted text.
const TASKS: &str = "{\"version\":1,\"accepted\":true,\"tasks\":[";

/// What stands behind a list that ends an object.
const END_OF_LIST: &str = "]}\n";

/// Writes the line that `check` prints of what stands against a text, as JSON where that is asked
/// for; how the program ends.
pub(crate) fn write_stop(
    alloc: Global,
    out: &mut Vec<u8>,
    stop: &Stop,
    is_json: bool,
) -> io::Result<ExitStatus> {
    let (before, behind) = if is_json {
        (FAULT, "\"}\n")
    } else {
        ("", "\n")
    };
    let mut page = Printout::new(alloc);
    page.text(before);
    page.shown(stop);
    page.text(behind);
    page.write_to(out)?;
    Ok(ExitStatus::of_stop(stop))
}

/// Writes of each task of an accepted text its words and the bound of a scan.
pub(crate) fn write_sizes(
    alloc: Global,
    out: &mut Vec<u8>,
    setup: &Setup,
) -> io::Result<ExitStatus> {
    let mut page = Printout::new(alloc);
    page.text(TASKS);
    for number in 0..setup.plan().tasks() {
        page.text(if number == 0 { "" } else { "," });
        let line = task_line(setup, number);
        page.text("{\"name\":");
        page.shown(&Quoted(line.name));
        page.text(",\"words\":");
        page.count(line.words);
        page.text(",\"bound_steps\":");
        page.shown(&line.bound);
        page.text("}");
    }
    page.text(END_OF_LIST);
    page.write_to(out)?;
    Ok(ExitStatus::Accepted)
}

/// Writes the notes on an accepted text: as JSON where that is asked for, and else as lines behind
/// a heading. Whether a note is denied.
pub(crate) fn write_noted(
    alloc: Global,
    out: &mut Vec<u8>,
    heading: &str,
    setup: &Setup,
    source: &Source,
    played: Option<Played>,
    asked: NotesAsked,
) -> io::Result<bool> {
    let (before, behind) = if asked.is_json {
        (NOTES, END_OF_LIST)
    } else {
        (heading, "")
    };
    out.extend_from_slice(before.as_bytes())?;
    let is_denied = write_notes(alloc, out, setup, source, played, asked)?;
    out.extend_from_slice(behind.as_bytes())?;
    Ok(is_denied)
}

/// Writes the lines that explain what stands against the files, as JSON where that is asked for.
pub(crate) fn write_explanation(
    alloc: Global,
    out: &mut Vec<u8>,
    lines: &[u8],
    is_json: bool,
) -> io::Result<()> {
    if !is_json {
        out.extend_from_slice(lines)?;
        return Ok(());
    }
    let mut page = Printout::new(alloc);
    page.text(EXPLANATION);
    list_lines(&mut page, lines);
    page.text("}\n");
    page.write_to(out)
}

/// Writes the words of one task, or of all, with the lines that `list` prints of each.
pub(crate) fn write_words(
    alloc: Global,
    out: &mut Vec<u8>,
    setup: &Setup,
    one: Option<usize>,
) -> io::Result<()> {
    let mut page = Printout::new(alloc);
    page.text(TASKS);
    let mut is_first = true;
    for number in 0..setup.plan().tasks() {
        if is_listed(one, number) {
            page.text(if is_first { "" } else { "," });
            is_first = false;
            list_task(alloc, &mut page, setup, number)?;
        }
    }
    page.text(END_OF_LIST);
    page.write_to(out)
}

/// Adds the words of a task, with the lines that `list` prints of it.
fn list_task(alloc: Global, page: &mut Printout, setup: &Setup, number: usize) -> io::Result<()>
    requires { number < length setup.now.plan.tasks }
{
    let mut lines = Vec::new(alloc);
    write_task(alloc, &mut lines, setup, number)?;
    page.text("{\"name\":");
    page.shown(&Quoted(setup.plan().task_name(number)));
    page.text(",\"lines\":");
    list_lines(page, &lines);
    page.text("}");
    Ok(())
}

/// Adds the lines of a text as a list.
fn list_lines(page: &mut Printout, text: &[u8]) {
    page.text("[");
    let mut is_first = true;
    for line in str::from_utf8(text).unwrap_or("").lines() {
        page.text(if is_first { "" } else { "," });
        is_first = false;
        page.shown(&Quoted(line));
    }
    page.text("]");
}
