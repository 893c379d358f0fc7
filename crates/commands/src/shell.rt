//! The program over a runtime: its words, its files, its terminal and its threads.

use crate::shell_tools::{Complaints, run_ask, run_blink, run_listen, run_probe};
use buslink::{Bus, Clock};
use commandcodes::{serve_check_code, serve_code, serve_event, serve_frames};
use commandline::{Invocation, Tool};
use commandlives::{
    Departure, Grounds, LiveStop, Notice, Site, Storage, ToolLine, serve_live, status_of_live,
};
use commandoptions::{LineWord, LiveFiles, LiveOptions, PlayFiles, RunSize};
use commandpaths::{PathFault, check_invocation};
use commandplays::{serve_look, serve_play, serve_run, status_of_run};
use commandtexts::{DiskFault, ExitStatus, HostDisk, KeptNote, Unserved, serve, serve_question};
use printout::Printout;
use std::rt::{Env, Files};
use std::sync::Wait;
use std::thread::Threads;
use std::time::Clock as Timer;
use std::{env, io};

/// Reads the command line and does what it asks for. `threads` is the runtime whose threads the
/// commands `run` and `live` take, and whose locks and clock; `site` is where the lines of `live`
/// are opened. No other command asks for them.
pub fn run<R, T, S>(rt: &R, threads: &T, site: &S) -> ExitStatus
where
    R: Files + Env + Print + Eprint + AllocGlobal,
    T: Threads + Wait + Timer + Sync,
    S: Site + Storage + Sync,
{
    let words = match words(rt) {
        Ok(words) => words,
        Err(error) => return no_words(rt, &error),
    };
    match invocation_in(rt, &words) {
        Ok(invocation) => run_invocation(rt, threads, site, &invocation),
        Err(status) => status,
    }
}

/// The words of the command line, the program's name first.
///
/// # Errors
///
/// One of them is not UTF-8 (`InvalidData`), the allocator is out of memory, or they cannot be
/// read.
fn words<R: Env + AllocGlobal>(rt: &R) -> io::Result<Vec<String>> {
    let mut words = Vec::new(rt.alloc());
    for word in env::args(rt)? {
        words.push(word)?;
    }
    Ok(words)
}

/// Reports that the words of the command line are not there.
fn no_words<R: Print + Eprint>(rt: &R, error: &io::Error) -> ExitStatus {
    match error.kind() {
        io::ErrorKind::OutOfMemory => no_memory(rt),
        io::ErrorKind::InvalidData => not_text(rt),
        _ => ExitStatus::Failed,
    }
}

/// What the words ask for.
///
/// # Errors
///
/// How the program ends, once the help, the version or what is wrong with the words is printed.
fn invocation_in<'w, R: Print + Eprint + AllocGlobal>(
    rt: &R,
    words: &'w [String],
) -> Result<Invocation<'w>, ExitStatus> {
    let error = match commandline::read(rt.alloc(), words) {
        Ok(invocation) => return Ok(invocation),
        Err(error) => error,
    };
    Err(match ExitStatus::of_words(error.kind()) {
        ExitStatus::Failed => no_memory(rt),
        ExitStatus::Accepted => match error.print(rt) {
            Ok(()) => ExitStatus::Accepted,
            Err(error) => not_printed(rt, &error),
        },
        status => match commandline::said(rt.alloc(), &error) {
            Ok(said) => printed(rt, eprint!(rt; "{said}"), status),
            Err(_) => status,
        },
    })
}

/// Serves an invocation from the machine's files, or a building from its devices.
fn run_invocation<R, T, S>(rt: &R, threads: &T, site: &S, invocation: &Invocation) -> ExitStatus
where
    R: Files + Print + Eprint + AllocGlobal,
    T: Threads + Wait + Timer + Sync,
    S: Site + Storage + Sync,
{
    if let Err(fault) = check_invocation(rt, rt.alloc(), invocation) {
        return misplaced(rt, &fault);
    }
    match invocation {
        Invocation::Run { files, size } => run_scenario(rt, threads, *files, *size),
        Invocation::Live {
            files,
            lines,
            options,
        } => run_building(rt, threads, site, *files, lines, options),
        Invocation::Tool(tool) => run_tool(rt, threads, site, tool),
        _ => serve_files(rt, invocation),
    }
}

/// Serves an invocation that asks for files alone. One that asks for threads or lines does nothing
/// here.
fn serve_files<R: Files + Print + Eprint + AllocGlobal>(
    rt: &R,
    invocation: &Invocation,
) -> ExitStatus {
    let alloc = rt.alloc();
    let disk = HostDisk { rt };
    let out = io::writer(rt);
    let mut complaints = Complaints { rt };
    let served = match invocation {
        Invocation::Ask(inquiry) => serve(alloc, &disk, out, &mut complaints, *inquiry),
        Invocation::Play {
            files,
            limit,
            shows,
        } => serve_play(alloc, &disk, out, &mut complaints, *files, *limit, shows),
        Invocation::Look {
            files,
            options,
            watches,
        } => serve_look(alloc, &disk, out, rt, *files, *options, watches),
        Invocation::Tell { files, question } => {
            serve_question(alloc, &disk, out, &mut complaints, *files, *question)
        }
        Invocation::Code { files, task, to } => {
            serve_code(alloc, &disk, out, &mut complaints, *files, *task, *to)
        }
        Invocation::CheckCode { path } => serve_check_code(alloc, &disk, out, *path),
        Invocation::Frame { words } => serve_frames(rt, alloc, out, &mut complaints, *words),
        Invocation::EventLine {
            binding,
            source,
            information,
        } => serve_event(
            alloc,
            &disk,
            out,
            &mut complaints,
            *binding,
            *source,
            *information,
        ),
        Invocation::Run { .. } | Invocation::Live { .. } | Invocation::Tool(_) => {
            return ExitStatus::Accepted;
        }
    };
    ended(rt, served)
}

/// How the program ends by what a command came to; why one is not served is reported.
fn ended<R: Print + Eprint, W: Drop>(
    rt: &R,
    served: Result<(W, ExitStatus), Unserved>,
) -> ExitStatus {
    match served {
        Ok((_, status)) => status,
        Err(unserved) => not_served(rt, unserved),
    }
}

/// Does what is asked for at one line.
fn run_tool<R: Files + Print + Eprint + AllocGlobal, T: Timer, S: Site + Storage>(
    rt: &R,
    timer: &T,
    site: &S,
    tool: &Tool,
) -> ExitStatus {
    match *tool {
        Tool::Probe {
            line,
            patience,
            against,
            record,
            is_json,
        } => {
            let at = ToolLine { line, patience };
            run_probe(rt, site, at, against, record, is_json)
        }
        Tool::Listen {
            line,
            patience,
            binding,
            record,
            end,
        } => {
            let at = ToolLine { line, patience };
            run_listen(rt, timer, site, at, binding, record, end)
        }
        Tool::Blink {
            line,
            patience,
            address,
        } => run_blink(rt, timer, site, ToolLine { line, patience }, address),
        Tool::Request {
            line,
            patience,
            words,
        } => run_ask(rt, site, ToolLine { line, patience }, words),
    }
}

/// Runs a scenario in threads.
fn run_scenario<R: Files + Print + Eprint + AllocGlobal, T: Threads + Wait + Timer + Sync>(
    rt: &R,
    threads: &T,
    files: PlayFiles,
    size: RunSize,
) -> ExitStatus {
    let disk = HostDisk { rt };
    let mut complaints = Complaints { rt };
    let out = io::writer(rt);
    match serve_run(
        threads,
        rt.alloc(),
        &disk,
        out,
        &mut complaints,
        files,
        size,
    ) {
        Ok((_, end)) => status_of_run(&end),
        Err(unserved) => not_served(rt, unserved),
    }
}

/// Runs a building over the lines of a site.
fn run_building<R, T, S>(
    rt: &R,
    threads: &T,
    site: &S,
    files: LiveFiles,
    lines: &[LineWord],
    options: &LiveOptions,
) -> ExitStatus
where
    R: Files + Print + Eprint + AllocGlobal,
    T: Threads + Wait + Timer + Sync,
    S: Site + Storage + Sync,
{
    let notice = HostNotice { rt };
    let grounds = Grounds {
        site,
        notice: &notice,
    };
    let disk = HostDisk { rt };
    let out = io::writer(rt);
    match serve_live(
        threads,
        rt.alloc(),
        &disk,
        &grounds,
        out,
        files,
        lines,
        options,
    ) {
        Ok((_, end)) => status_of_live(&end),
        Err(unserved) => not_served(rt, unserved),
    }
}

/// The machine's standard error, which is told what is about to run, and why a building does not
/// run.
#[derive(Clone, Copy)]
pub(crate) struct HostNotice<'a, R> {
    pub rt: &'a R,
}

impl<R: Eprint> Notice for HostNotice<'_, R> {
    ghost use Rattle.std.specs.Prelude.{⊤};

    ghost is_told = { λ _ _. ⊤ };

    fn departs<B: Bus, C: Clock>(&self, departure: &Departure<B, C>) -> io::Result<()> {
        eprint!(self.rt; "{departure}")
    }

    fn begins(&self, note: &KeptNote) -> io::Result<()> {
        eprint!(self.rt; "{note}")
    }

    fn hints(&self, hint: Printout) -> io::Result<()> {
        hint.write_to(&mut Complaints { rt: self.rt })
    }

    fn halts(&self, stop: &LiveStop) -> io::Result<()> {
        eprintln!(self.rt; "{stop}")
    }
}

/// Reports why a command is not served.
pub(crate) fn not_served<R: Print + Eprint>(rt: &R, unserved: Unserved) -> ExitStatus {
    let told = match unserved {
        Unserved::NotRead {
            why: DiskFault::Memory,
            ..
        }
        | Unserved::NotWritten {
            why: DiskFault::Memory,
            ..
        } => return no_memory(rt),
        Unserved::NotRead { path, why } => {
            let why = reason_of(why);
            eprintln!(rt; "cannot read {path}: {why}")
        }
        Unserved::NotWritten { path, .. } => eprintln!(rt; "cannot write {path}"),
        Unserved::NotPrinted(error) => return not_printed(rt, &error),
    };
    printed(rt, told, ExitStatus::Failed)
}

/// Why a file was not read, as it is printed.
fn reason_of(why: DiskFault) -> &'static str {
    match why {
        DiskFault::Memory => "no memory",
        DiskFault::Absent => "no such file",
        DiskFault::Denied => "permission denied",
        DiskFault::Folder => "it is a folder",
        DiskFault::Failed => "an input error",
    }
}

/// Reports that a command may not write where it is to.
fn misplaced<R: Print + Eprint>(rt: &R, fault: &PathFault) -> ExitStatus {
    match fault {
        PathFault::Memory => no_memory(rt),
        _ => printed(rt, eprintln!(rt; "{fault}"), ExitStatus::Misused),
    }
}

/// Reports that a word of the command line is not text.
fn not_text<R: Print + Eprint>(rt: &R) -> ExitStatus {
    printed(
        rt,
        eprintln!(rt; "error: an argument is not UTF-8"),
        ExitStatus::Misused,
    )
}

/// Reports that standard output took nothing, since it is full or closed or memory was refused.
pub(crate) fn not_printed<R: Print + Eprint>(rt: &R, error: &io::Error) -> ExitStatus {
    match error.kind() {
        io::ErrorKind::OutOfMemory => no_memory(rt),
        _ => no_output(rt),
    }
}

/// Reports that the allocator is out of memory.
pub(crate) fn no_memory<R: Print + Eprint>(rt: &R) -> ExitStatus {
    match println!(rt; "no memory") {
        Ok(()) => ExitStatus::Failed,
        Err(_) => no_output(rt),
    }
}

/// Reports that standard output takes nothing.
fn no_output<R: Eprint>(rt: &R) -> ExitStatus {
    let _told = eprintln!(rt; "cannot write standard output");
    ExitStatus::Failed
}

/// The exit status, where what it goes with was printed on standard error. Wrong usage is wrong
/// usage also where the message of it cannot be printed.
fn printed<R: Print + Eprint>(rt: &R, done: io::Result<()>, status: ExitStatus) -> ExitStatus {
    match (done, status) {
        (Ok(()), _) | (Err(_), ExitStatus::Misused) => status,
        (Err(error), _) => match error.kind() {
            io::ErrorKind::OutOfMemory => no_memory(rt),
            _ => ExitStatus::Failed,
        },
    }
}
