//! The commands on code files: one is written, or one is judged.

ghost use Rattle.std.specs.Prelude.{◌≡◌, IfErr, IfOk, option_map};
ghost use Rattle.std.specs.Io.KnownBytes.{Appends};
ghost use Rattle.std.specs.Option.{option_copied};
ghost use Rattle.textanswers.specs.CodePrinted.{printed};
ghost use Rattle.commandfiles.specs.ExitStatuses.{status_of_code_answer, status_of_stop};
ghost use Rattle.commandcodes.specs.CodeFiles.{IsCodeJudged, IsCodeServed, IsCodeStop, IsCodeUnder};
ghost use Rattle.commandcodes.specs.CodeFiles.{IsCodeUnserved, IsUnjudged};
ghost use Rattle.commandfiles.specs.Reports.{ended, stop_text};

use commandfiles::{
    Disk, ExitStatus, FileRole, ReadFiles, Unserved, bytes_at, named_at, print_answer, tell_hint,
    write_at,
};
use commandoptions::Files;
use std::alloc::Global;
use std::io;
use std::io::{BufWriter, Write};
use textanswers::{Answer, CodeAnswer, Stop, binding_of, code_of, judge};

/// Reads the files that are named, the binding before the text, and writes the code file of the
/// task of this name, or without a name of the only one, to a path, or prints what stands against
/// that; the writer, which then has that line, and how the program ends. `complaints` gets which
/// tasks there are, where one is not, or which file has the fault.
///
/// # Errors
///
/// The first file that is not read, that the code file is not written, or the writer's error.
pub fn serve_code<'a, D: Disk, W: Write + Drop, E: Write>(
    alloc: Global,
    disk: &D,
    out: W,
    complaints: &mut E,
    files: Files<'a>,
    task: Option<&str>,
    to: &'a str,
) -> Result<(W, ExitStatus), Unserved<'a>>
    ensures served { IfOk result (λ done. IsCodeServed (D.gives disk.now) (D.takes disk.now)
        files.entry (option_map (λ name. name.now) task.entry) to.now (W.contents out)
        (W.contents done.0) done.1) }
    ensures unserved { IfErr result (IsCodeUnserved (D.gives disk.now) (D.fails disk.now)
        (D.refuses disk.now) files.entry (option_map (λ name. name.now) task.entry) to.now) }
{
    let binding = named_at(alloc, disk, files.binding)?;
    let text = bytes_at(alloc, disk, files.text)?;
    match code_under(alloc, binding.as_deref(), &text, task) {
        Ok(code) => {
            write_at(alloc, disk, to, &code)?;
            Ok((out, ExitStatus::Accepted))
        }
        Err(stop) => {
            let read = ReadFiles::of_files(files, &binding, &text);
            Ok(print_stop(alloc, out, complaints, stop, read)?)
        }
    }
}

/// The code file of a task, under what a binding's file says.
///
/// # Errors
///
/// The binding's fault, else what stands against the text or the name.
fn code_under(
    alloc: Global,
    binding: Option<&[u8]>,
    text: &[u8],
    task: Option<&str>,
) -> Result<Vec<u8>, Stop>
    ensures code { IfOk result (λ code. IsCodeUnder (option_copied binding.entry) text.now
        (option_map (λ name. name.now) task.entry) code.items) }
    ensures stop { IfErr result (IsCodeStop (option_copied binding.entry) text.now
        (option_map (λ name. name.now) task.entry)) }
{
    let binding = binding_of(alloc, binding)?;
    code_of(alloc, &binding, text, task)
}

/// Prints the line of what stands against writing a code file of the text that was read.
fn print_stop<W: Write + Drop, E: Write>(
    alloc: Global,
    to: W,
    complaints: &mut E,
    stop: Stop,
    read: ReadFiles,
) -> io::Result<(W, ExitStatus)>
    ensures line { IfOk result (λ done. Appends (W.contents to) (W.contents done.0)
        (stop_text stop)) }
    ensures status { IfOk result (λ done. done.1 ≡ status_of_stop stop) }
{
    let place = FileRole::of_stop(&stop);
    let done = print_answer(alloc, to, complaints, &Answer::Stopped(stop))?;
    tell_hint(alloc, complaints, read, place);
    Ok(done)
}

/// Reads the file at a path, and prints whether it is a code file whose code is accepted; the
/// writer, which then has that line, and how the program ends.
///
/// # Errors
///
/// That the file is not read, or the writer's error.
pub fn serve_check_code<'a, D: Disk, W: Write + Drop>(
    alloc: Global,
    disk: &D,
    out: W,
    path: &'a str,
) -> Result<(W, ExitStatus), Unserved<'a>>
    ensures judged { IfOk result (λ done. IsCodeJudged (D.gives disk.now) path.now
        (W.contents out) (W.contents done.0) done.1) }
    ensures unjudged { IfErr result (IsUnjudged (D.fails disk.now) path.now) }
{
    let bytes = bytes_at(alloc, disk, path)?;
    Ok(print(alloc, out, &judge(alloc, &bytes))?)
}

/// Prints the line of an answer through a buffer, of which nothing is left behind.
fn print<W: Write + Drop>(alloc: Global, to: W, answer: &CodeAnswer) -> io::Result<(W, ExitStatus)>
    ensures line { IfOk result (λ done. Appends (W.contents to) (W.contents done.0)
        (ended (printed answer.now))) }
    ensures status { IfOk result (λ done. done.1 ≡ status_of_code_answer answer.now) }
{
    let mut out = BufWriter::new(alloc, to)?;
    writeln!(out, "{answer}")?;
    Ok((out.into_inner()?, ExitStatus::of_code_answer(answer)))
}
