//! What is printed of an answer.

ghost use Rattle.std.specs.Prelude.{◌≡◌, ◌<◌, length, IfOk, OnOk};
ghost use Rattle.std.specs.Io.KnownBytes.{Appends};
ghost use Rattle.commandfiles.specs.Reports.{first_lines, first_texts, requests_of_scan, status_of};
ghost use Rattle.commandfiles.specs.Reports.{printed_answer, scan_lines, stop_text, task_line};
ghost use Rattle.commandfiles.specs.Reports.{unknown_task_text, variable_line};

use exitstatus::ExitStatus;
use gearcmd::RequestLine;
use ilcompile::Setup;
use std::alloc::Global;
use std::io;
use std::io::{BufWriter, Write};
use textanswers::{Answer, Stepped, Stop, UnknownTask, task_line};

/// Prints the answer through a buffer, of which nothing is left behind; the writer, which then has
/// every line, and how the program ends. `complaints` gets which tasks there are, where one is not.
///
/// # Errors
///
/// The writer's, or that the allocator is out of memory.
pub fn print_answer<W: Write + Drop, E: Write>(
    alloc: Global,
    to: W,
    complaints: &mut E,
    answer: &Answer,
) -> io::Result<(W, ExitStatus)>
    ensures text { IfOk result
        (λ done. Appends (W.contents to) (W.contents done.0) (printed_answer answer.now)) }
    ensures status { IfOk result (λ done. done.1 ≡ status_of answer.now) }
{
    let mut out = BufWriter::new(alloc, to)?;
    let status = report(&mut out, answer)?;
    let printed = out.into_inner()?;
    tell_tasks(complaints, answer);
    Ok((printed, status))
}

/// Writes which tasks there are, where one is not. That it cannot be written changes nothing.
fn tell_tasks<E: Write>(complaints: &mut E, answer: &Answer) {
    if let Answer::Stopped(Stop::NoTask(unknown)) = answer {
        let _told = writeln!(complaints, "{unknown}");
    }
}

/// Writes the answer's lines; how the program ends.
fn report<W: Write>(out: &mut W, answer: &Answer) -> io::Result<ExitStatus>
    ensures text { OnOk result
        (Appends (W.contents out.old) (W.contents out.new) (printed_answer answer.now)) }
    ensures status { IfOk result (λ status. status ≡ status_of answer.now) }
{
    match answer {
        Answer::Checked(setup) => {
            tasks(out, setup)?;
            Ok(ExitStatus::Accepted)
        }
        Answer::Stepped(made) => {
            scans(out, made)?;
            variables(out, made)?;
            Ok(ExitStatus::Accepted)
        }
        Answer::Stopped(stop) => {
            stopped(out, stop)?;
            Ok(ExitStatus::of_stop(stop))
        }
    }
}

/// Writes the line of what stands against a text.
fn stopped<W: Write>(out: &mut W, stop: &Stop) -> io::Result<()>
    ensures { OnOk result
        (Appends (W.contents out.old) (W.contents out.new) (stop_text stop.now)) }
{
    match stop {
        Stop::Memory => writeln!(out, "no memory"),
        Stop::Binding(fault) => writeln!(out, "{fault}"),
        Stop::Load(fault) => writeln!(out, "{fault}"),
        Stop::NoTask(unknown) => unknown_task(out, unknown),
    }
}

/// The line of a task that is not there, where one was named.
fn unknown_task<W: Write>(out: &mut W, unknown: &UnknownTask) -> io::Result<()>
    ensures { OnOk result
        (Appends (W.contents out.old) (W.contents out.new) (unknown_task_text unknown.now)) }
{
    match unknown.name() {
        Some(name) => writeln!(out, "no task {name}"),
        None => Ok(()),
    }
}

/// A line for each task.
fn tasks<W: Write>(out: &mut W, setup: &Setup) -> io::Result<()>
    ensures { OnOk result (Appends (W.contents out.old) (W.contents out.new)
        (first_lines (task_line setup.now) (length setup.now.plan.tasks))) }
{
    for task in 0..setup.plan().tasks() {
        writeln!(out, "{}", task_line(setup, task))?;
    }
    Ok(())
}

/// A line for each scan, and behind it one for each of its requests.
fn scans<W: Write>(out: &mut W, made: &Stepped) -> io::Result<()>
    ensures { OnOk result (Appends (W.contents out.old) (W.contents out.new)
        (first_texts (scan_lines made.now) (length made.now.each))) }
{
    for number in 0..made.scans() {
        writeln!(out, "{}", made.scan_line(number))?;
        requests(out, made, number)?;
    }
    Ok(())
}

/// A line for each request of the scan of this number.
fn requests<W: Write>(out: &mut W, made: &Stepped, number: usize) -> io::Result<()>
    requires { number < length made.now.each }
    ensures { OnOk result (Appends (W.contents out.old) (W.contents out.new)
        (requests_of_scan made.now number)) }
{
    let task = made.task_kind();
    for request in made.requests(number) {
        let line = RequestLine {
            request: *request,
            task,
        };
        writeln!(out, "request {line}")?;
    }
    Ok(())
}

/// A line for each variable.
fn variables<W: Write>(out: &mut W, made: &Stepped) -> io::Result<()>
    ensures { OnOk result (Appends (W.contents out.old) (W.contents out.new)
        (first_lines (variable_line made.now) (length made.now.left.slots))) }
{
    for slot in 0..made.variables() {
        writeln!(out, "{}", made.variable_line(slot))?;
    }
    Ok(())
}
