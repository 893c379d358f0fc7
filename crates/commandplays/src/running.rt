//! Running a scenario in threads: its files are read, and what it came to is printed.

ghost use Rattle.std.specs.Prelude.{◌≡◌, IfErr, IfOk};
ghost use Rattle.commandplays.specs.Plays.{IsPlayStop, IsUnplayed};
ghost use Rattle.commandplays.specs.Runs.{IsRunServed, IsRunEnd, IsRunOut, status_of_run_end};

use crate::pages::{Pages, beginning_in, read_pages, scenario_of};
use commandfiles::{Beginning, Disk, ExitStatus, FileRole, PlayStop, Unserved, tell_hint};
use commandoptions::{PlayFiles, RunSize};
use plantdriving::has_down;
use plantload::{kept_scans_are_as_meant, scans_are_as_meant};
use plantrun::{Closed, run, write_run};
use simbus::{ScriptedClock, SimBus};
use std::alloc::Global;
use std::io;
use std::io::{BufWriter, Write};
use std::sync::Wait;
use std::thread::Threads;
use std::time::Clock as Timer;

/// What a run came to: what it left, or what stands against it. Only a run leaves a `Closed`.
pub type RunEnd = Result<Closed<SimBus, ScriptedClock>, PlayStop>;

/// Reads the files that are named, the binding before the text, that before the scenario and that
/// before the kept values, runs the scenario in threads and prints what it came to; the writer,
/// which then has every line, and what it came to. `complaints` gets what became of the file of
/// kept values, or which file has the fault.
///
/// # Errors
///
/// The first file that is not read, or the writer's error.
pub fn serve_run<'a, D: Disk, W: Write + Drop, E: Write, R: Threads + Wait + Timer + Sync>(
    rt: &R,
    alloc: Global,
    disk: &D,
    to: W,
    complaints: &mut E,
    files: PlayFiles<'a>,
    size: RunSize,
) -> Result<(W, RunEnd), Unserved<'a>>
    ensures run { IfOk result (λ done. IsRunServed (D.gives disk.now) files.entry size done.1) }
    ensures unread { IfErr result (IsUnplayed (D.gives disk.now) (D.fails disk.now) files.entry) }
{
    let pages = read_pages(alloc, disk, files)?;
    let done = print(rt, alloc, to, complaints, &pages, size)?;
    if let Err(stop) = &done.1 {
        let place = FileRole::of_play_stop(stop);
        tell_hint(alloc, complaints, pages.read_from(files), place);
    }
    Ok(done)
}

/// How the program ends by what a run came to.
pub fn status_of_run(end: &RunEnd) -> ExitStatus
    ensures { result ≡ status_of_run_end end.now }
{
    match end {
        Ok(left) => ExitStatus::of_run(left.ending(), has_down(left.plant())),
        Err(stop) => stop.status(),
    }
}

/// Runs the scenario, and prints what it came to through a buffer, of which nothing is left behind.
fn print<W: Write + Drop, E: Write, R: Threads + Wait + Timer + Sync>(
    rt: &R,
    alloc: Global,
    to: W,
    complaints: &mut E,
    pages: &Pages,
    size: RunSize,
) -> io::Result<(W, RunEnd)>
    ensures { IfOk result (λ done. IsRunEnd pages.now size done.1) }
{
    let mut out = BufWriter::new(alloc, to)?;
    let end = run_pages(rt, alloc, complaints, pages, size);
    report(&mut out, &end)?;
    Ok((out.into_inner()?, end))
}

/// Writes what the run came to, or what stands against it.
fn report<W: Write>(out: &mut W, end: &RunEnd) -> io::Result<()> {
    match end {
        Ok(left) => write_run(out, left.ending(), left.plant()),
        Err(stop) => writeln!(out, "{stop}"),
    }
}

/// Runs the plant of the text on the simulated buses of the scenario.
///
/// # Errors
///
/// The binding's fault, else what stands against the text, else the scenario's fault, else why the
/// plant does not start.
fn run_pages<E: Write, R: Threads + Wait + Timer + Sync>(
    rt: &R,
    alloc: Global,
    complaints: &mut E,
    pages: &Pages,
    size: RunSize,
) -> RunEnd
    ensures run { IfOk result (IsRunOut pages.now size) }
    ensures stop { IfErr result (IsPlayStop pages.now size.workers size.limit) }
{
    let begun = beginning_in(alloc, pages)?;
    let scenario = scenario_of(alloc, &pages.scenario)?;
    let Beginning { setup, note, .. } = begun;
    let _told = write!(complaints, "{note}");
    let limit = u64::from(size.limit);
    scans_are_as_meant();
    kept_scans_are_as_meant();
    let left = run(rt, alloc, setup, &scenario, limit, size.workers as usize)?;
    Ok(left)
}
