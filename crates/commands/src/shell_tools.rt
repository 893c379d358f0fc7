//! The commands at one line, over a runtime.

use crate::shell::{HostNotice, no_memory, not_printed, not_served};
use commandcodes::request_in;
use commandline::{GivenListenEnd, GivenRequest};
use commandlives::{
    Care, Notice, Site, Storage, ToolEnd, ToolLine, ToolStop, binding_at, opened, setup_at,
    status_of_live_stop,
};
use commandoptions::LiveFiles;
use commandtexts::{ExitStatus, HostDisk, Unserved};
use commissioning::{
    DeclaredBus, ListenEnd, ProbeForm, Served, serve_ask, serve_blink, serve_listen, serve_probe,
};
use daliframe::ShortAddress;
use gearcmd::Command;
use liveline::StopCondition;
use std::io::Write;
use std::rt::Files;
use std::time::Clock as Timer;
use std::{fs, io};

/// Standard error, as a writer.
#[derive(Clone, Copy)]
pub(crate) struct Complaints<'a, R> {
    pub rt: &'a R,
}

impl<R: Eprint> Write for Complaints<'_, R> {
    fn write(&mut self, bytes: &[u8]) -> io::Result<usize> {
        let text = str::from_utf8(bytes).unwrap_or("");
        eprint!(self.rt; "{text}")?;
        Ok(bytes.len())
    }

    fn flush(&mut self) -> io::Result<()> {
        Ok(())
    }
}

/// A file that may be wanted, as a writer.
#[derive(Clone, Copy)]
struct MaybeFile<'f, S> {
    storage: &'f S,
    path: Option<&'f str>,
    /// The path, once the file has refused bytes.
    refused: Option<&'f str>,
}

impl<S: Storage> Write for MaybeFile<'_, S> {
    fn write(&mut self, bytes: &[u8]) -> io::Result<usize> {
        let Some(path) = self.path else {
            return Ok(bytes.len());
        };
        match self.storage.append(path, bytes) {
            Ok(_size) => Ok(bytes.len()),
            Err(error) => {
                self.refused = Some(path);
                Err(error)
            }
        }
    }

    fn flush(&mut self) -> io::Result<()> {
        Ok(())
    }
}

/// The end is wanted where there is a file at this path, if there is a path.
#[derive(Clone, Copy)]
struct StopPath<'a, R> {
    rt: &'a R,
    path: Option<&'a str>,
}

impl<R: Files> StopCondition for StopPath<'_, R> {
    fn is_wanted(&self) -> bool {
        match self.path {
            Some(path) => fs::exists(self.rt, path).unwrap_or(false),
            None => false,
        }
    }
}

/// `probe`: asks what is there on a bus, and compares it with a text where one is named. The gear
/// that answers goes to the record, as lines of a scenario.
pub(crate) fn run_probe<R: Files + Print + Eprint + AllocGlobal, S: Site + Storage>(
    rt: &R,
    site: &S,
    at: ToolLine,
    against: Option<LiveFiles>,
    record: Option<&str>,
    as_json: bool,
) -> ExitStatus {
    let mut house = Vec::new(rt.alloc());
    let end = probe(rt, site, at, against, &mut house, as_json);
    let is_done = matches!(end, Ok(Served::Done));
    match record {
        Some(path) if is_done && !is_replaced(rt, site, path, &house) => not_opened(rt, path),
        _ => ended(rt, end),
    }
}

/// Whether a file has these bytes in place of what was there.
fn is_replaced<R: AllocGlobal, S: Storage>(rt: &R, site: &S, path: &str, bytes: &[u8]) -> bool {
    site.replace(rt.alloc(), path, bytes, Care::Passing).is_ok()
}

/// Asks what is there on a bus; `record` gets the gear that answers.
///
/// # Errors
///
/// A file is not read, what stands against the files or the line, or a writer's error.
fn probe<'a, R: Files + Print + Eprint + AllocGlobal, S: Site>(
    rt: &R,
    site: &S,
    at: ToolLine<'a>,
    against: Option<LiveFiles<'a>>,
    record: &mut Vec<u8>,
    as_json: bool,
) -> ToolEnd<'a> {
    let alloc = rt.alloc();
    let bus = at.line.bus;
    let setup = setup_at(alloc, &HostDisk { rt }, against, bus)?;
    let mut line = opened(alloc, site, at)?;
    let declared = match &setup {
        Some(setup) => Some(DeclaredBus {
            plan: setup.plan(),
            bus,
        }),
        None => None,
    };
    let form = ProbeForm {
        bus,
        declared,
        as_json,
    };
    let mut out = io::writer(rt);
    let mut progress = Complaints { rt };
    Ok(serve_probe(alloc, &mut line, &mut out, &mut progress, record, form)?)
}

/// `listen`: writes each event that comes on a bus, until the end.
pub(crate) fn run_listen<'f, R: Files + Print + Eprint + AllocGlobal, T: Timer, S: Site + Storage>(
    rt: &R,
    timer: &T,
    site: &'f S,
    at: ToolLine,
    binding: Option<&str>,
    record: Option<&'f str>,
    words: GivenListenEnd,
) -> ExitStatus {
    if let Some(path) = record {
        if !is_replaced(rt, site, path, b"") {
            return not_opened(rt, path);
        }
    }
    let mut recorded = MaybeFile {
        storage: site,
        path: record,
        refused: None,
    };
    let end = listen(rt, timer, site, at, binding, &mut recorded, words);
    match (end, recorded.refused) {
        (Err(ToolStop::Unserved(Unserved::NotPrinted(_))), Some(path)) => not_opened(rt, path),
        (end, _) => ended(rt, end),
    }
}

/// Writes each event that comes on a bus, until the end.
///
/// # Errors
///
/// The binding is not read, what stands against it or the line, or a writer's error.
fn listen<'a, R: Files + Print + Eprint + AllocGlobal, T: Timer, S: Site + Storage>(
    rt: &R,
    timer: &T,
    site: &S,
    at: ToolLine<'a>,
    binding: Option<&'a str>,
    record: &mut MaybeFile<S>,
    words: GivenListenEnd,
) -> ToolEnd<'a> {
    let alloc = rt.alloc();
    let binding = binding_at(alloc, &HostDisk { rt }, binding)?;
    let mut line = opened(alloc, site, at)?;
    let end = ListenEnd {
        millis: words.seconds.map(milliseconds),
        stop: StopPath {
            rt,
            path: words.stop,
        },
    };
    let mut out = io::writer(rt);
    let bus = at.line.bus;
    Ok(serve_listen(
        &mut line,
        bus,
        binding.as_ref(),
        &mut out,
        record,
        timer,
        &end,
    )?)
}

/// The milliseconds of these seconds.
fn milliseconds(seconds: u32) -> u64 {
    u64::from(seconds) * 1000
}

/// `blink`
pub(crate) fn run_blink<R: Print + Eprint + AllocGlobal, T: Timer, S: Site>(
    rt: &R,
    timer: &T,
    site: &S,
    at: ToolLine,
    address: u8,
) -> ExitStatus {
    match ShortAddress::new(address) {
        Some(address) => ended(rt, blink(rt, timer, site, at, address)),
        None => ExitStatus::Misused,
    }
}

/// Switches a lamp on and off three times, and gives it its level back.
///
/// # Errors
///
/// What stands against the line, or the writer's error.
fn blink<'a, R: Print + AllocGlobal, T: Timer, S: Site>(
    rt: &R,
    timer: &T,
    site: &S,
    at: ToolLine<'a>,
    address: ShortAddress,
) -> ToolEnd<'a> {
    let mut line = opened(rt.alloc(), site, at)?;
    let mut out = io::writer(rt);
    Ok(serve_blink(&mut line, address, &mut out, timer)?)
}

/// `ask`
pub(crate) fn run_ask<R: Print + Eprint + AllocGlobal, S: Site>(
    rt: &R,
    site: &S,
    at: ToolLine,
    words: GivenRequest,
) -> ExitStatus {
    match request_in(rt.alloc(), words) {
        Ok(Ok(command)) => ended(rt, ask(rt, site, at, command)),
        Ok(Err(refusal)) => {
            let mut complaints = Complaints { rt };
            let _told = refusal.page(rt.alloc()).write_to(&mut complaints);
            ExitStatus::Misused
        }
        Err(_) => no_memory(rt),
    }
}

/// Makes one request at a bus, and writes its frames and its answer.
///
/// # Errors
///
/// What stands against the line, or the writer's error.
fn ask<'a, R: Print + AllocGlobal, S: Site>(
    rt: &R,
    site: &S,
    at: ToolLine<'a>,
    command: Command,
) -> ToolEnd<'a> {
    let mut line = opened(rt.alloc(), site, at)?;
    let mut out = io::writer(rt);
    Ok(serve_ask(&mut line, command, &mut out)?)
}

/// Reports that a file cannot be written.
fn not_opened<R: Eprint>(rt: &R, path: &str) -> ExitStatus {
    let _told = eprintln!(rt; "cannot write {path}");
    ExitStatus::Failed
}

/// How the program ends by what a tool came to; what stands against it is reported, of a text on
/// standard output, else on standard error.
fn ended<R: Print + Eprint>(rt: &R, end: ToolEnd) -> ExitStatus {
    match end {
        Ok(Served::Done) => ExitStatus::Accepted,
        Ok(Served::NoMemory | Served::Failed) => ExitStatus::Failed,
        Err(ToolStop::Unserved(unserved)) => not_served(rt, unserved),
        Err(ToolStop::Text(stop)) => match println!(rt; "{stop}") {
            Ok(()) => ExitStatus::of_stop(&stop),
            Err(error) => not_printed(rt, &error),
        },
        Err(ToolStop::Unopened(unopened)) => {
            let _told = eprintln!(rt; "{unopened}");
            ExitStatus::Failed
        }
        Err(ToolStop::Line(stop)) => {
            let _told = HostNotice { rt }.halts(&stop);
            status_of_live_stop(&stop)
        }
    }
}
