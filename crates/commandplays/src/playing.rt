//! Playing a scenario: its files are read, and what happens is printed.

ghost use Rattle.std.specs.Prelude.{◌≡◌, ◌↔◌, IfErr, IfOk, IsTrue};
ghost use Rattle.commandplays.specs.Plays.{AreNames, IsJudgedBy, IsPlayEnd, IsPlayStop, IsPlayed};
ghost use Rattle.commandplays.specs.Plays.{IsStarted, IsUnplayed, status_unmet};
ghost use Rattle.plantplay.specs.Expected.{AreKnown};
ghost use Rattle.plantplay.specs.Watched.{AreWatchable};

use crate::brief::Brief;
use crate::pages::{Pages, beginning_in, read_pages, scenario_of};
use crate::unknown::{write_unknown, write_unwatchable};
use commandfiles::{
    Beginning, Disk, ExitStatus, FileRole, KeptNote, PlayStop, Unserved, tell_hint,
};
use commandline::PlayShows;
use commandoptions::{ExpectedWord, PlayFiles};
use plantload::{kept_scans_are_as_meant, scans_are_as_meant};
use plantplay::{
    FrameStyle, Installation, are_known, are_met, are_watchable, open, play_watched,
    plays_are_by_scenario, report_unmet,
};
use simbus::{Scenario, SimBus};
use std::alloc::Global;
use std::io;
use std::io::{BufWriter, Write};

/// What is asked of a play.
#[derive(Clone, Copy)]
struct Asked<'a> {
    /// What is expected at its end.
    expected: &'a [ExpectedWord<'a>],
    /// The names of the variables that are watched.
    watched: &'a [&'a str],
    /// The paths of the files.
    files: PlayFiles<'a>,
}

/// Reads the files that are named, the binding before the text, that before the scenario and that
/// before the kept values, plays the scenario and prints what happens; the writer, which then has
/// every line, and how the program ends. `complaints` gets what became of the file of kept values,
/// and what is not as expected at the end; or which file has the fault; or the names, expected or
/// watched, that the text does not have; then nothing is played.
///
/// # Errors
///
/// The first file that is not read, or the writer's error.
pub fn serve_play<'a, D: Disk, W: Write + Drop, E: Write>(
    alloc: Global,
    disk: &D,
    to: W,
    complaints: &mut E,
    files: PlayFiles<'a>,
    limit: u32,
    shows: &PlayShows<'_>,
) -> Result<(W, ExitStatus), Unserved<'a>>
    ensures played { IfOk result (λ done.
        IsPlayed (D.gives disk.now) files.entry limit shows.now.expects.items
        shows.now.watches.items done.1) }
    ensures unplayed { IfErr result
        (IsUnplayed (D.gives disk.now) (D.fails disk.now) files.entry) }
{
    let pages = read_pages(alloc, disk, files)?;
    Ok(print(alloc, to, complaints, &pages, files, limit, shows)?)
}

/// Prints what happens through a buffer, of which nothing is left behind.
fn print<W: Write + Drop, E: Write>(
    alloc: Global,
    to: W,
    complaints: &mut E,
    pages: &Pages,
    files: PlayFiles,
    limit: u32,
    shows: &PlayShows,
) -> io::Result<(W, ExitStatus)>
    ensures { IfOk result (λ done.
        IsPlayEnd pages.now limit shows.now.expects.items shows.now.watches.items done.1) }
{
    let mut out = BufWriter::new(alloc, to)?;
    let status = report_shown(alloc, &mut out, complaints, pages, files, limit, shows)?;
    Ok((out.into_inner()?, status))
}

/// Writes what happens, in brief where that is asked for; how the program ends.
fn report_shown<W: Write, E: Write>(
    alloc: Global,
    out: &mut W,
    complaints: &mut E,
    pages: &Pages,
    files: PlayFiles,
    limit: u32,
    shows: &PlayShows,
) -> io::Result<ExitStatus>
    ensures { IfOk result
        (IsPlayEnd pages.now limit shows.now.expects.items shows.now.watches.items) }
{
    let style = style_of(shows);
    let asked = Asked {
        expected: shows.expects.as_slice(),
        watched: shows.watches.as_slice(),
        files,
    };
    if !shows.is_brief {
        return report(alloc, out, complaints, pages, limit, style, asked);
    }
    let mut brief = Brief::new(alloc, out);
    report(alloc, &mut brief, complaints, pages, limit, style, asked)
}

/// How frames are written.
fn style_of(shows: &PlayShows) -> FrameStyle {
    if shows.names {
        FrameStyle::Words
    } else {
        FrameStyle::Digits
    }
}

/// Writes what happens, or what stands against playing the scenario; how the program ends.
fn report<W: Write, E: Write>(
    alloc: Global,
    out: &mut W,
    complaints: &mut E,
    pages: &Pages,
    limit: u32,
    style: FrameStyle,
    asked: Asked,
) -> io::Result<ExitStatus>
    ensures { IfOk result (IsPlayEnd pages.now limit asked.entry.expected.now
        asked.entry.watched.now) }
{
    match start(alloc, pages, limit) {
        Ok((mut installation, scenario, note)) => {
            if !knows(&installation, asked) {
                report_names(alloc, complaints, &installation, asked);
                return Ok(ExitStatus::Misused);
            }
            let _told = write!(complaints, "{note}");
            scans_are_as_meant();
            kept_scans_are_as_meant();
            plays_are_by_scenario();
            let watched = asked.watched;
            let ending = play_watched(alloc, out, style, watched, &mut installation, &scenario)?;
            out.flush()?;
            let _told = report_unmet(complaints, installation.plant(), asked.expected);
            let status = ExitStatus::of_play(ending, installation.has_down());
            Ok(judged(status, &installation, asked.expected))
        }
        Err(stop) => {
            report_stop(alloc, out, complaints, pages, asked.files, &stop)?;
            Ok(stop.status())
        }
    }
}

/// Writes what stands against playing the scenario, and reports which file has the fault.
fn report_stop<W: Write, E: Write>(
    alloc: Global,
    out: &mut W,
    complaints: &mut E,
    pages: &Pages,
    files: PlayFiles,
    stop: &PlayStop,
) -> io::Result<()> {
    writeln!(out, "{stop}")?;
    out.flush()?;
    let place = FileRole::of_play_stop(stop);
    tell_hint(alloc, complaints, pages.read_from(files), place);
    Ok(())
}

/// Whether the text that is played has the names that are asked for.
fn knows(installation: &Installation<SimBus>, asked: Asked) -> bool
    ensures { IsTrue result ↔ AreNames installation.now.plant.plant.plan asked.entry.expected.now
        asked.entry.watched.now }
{
    has_expected(installation, asked.expected) && has_watched(installation, asked.watched)
}

/// Whether the text that is played has the names that are expected.
fn has_expected(installation: &Installation<SimBus>, expected: &[ExpectedWord]) -> bool
    ensures { IsTrue result ↔ AreKnown installation.now.plant.plant.plan expected.now }
{
    are_known(installation.plant().setup().plan(), expected)
}

/// Whether the text that is played has the names that are watched.
fn has_watched(installation: &Installation<SimBus>, watched: &[&str]) -> bool
    ensures { IsTrue result ↔ AreWatchable installation.now.plant.plant.plan watched.now }
{
    are_watchable(installation.plant().setup().plan(), watched)
}

/// Reports the names that are asked for and that the text does not have.
fn report_names<E: Write>(
    alloc: Global,
    complaints: &mut E,
    installation: &Installation<SimBus>,
    asked: Asked,
) {
    let plan = installation.plant().setup().plan();
    let _told = write_unknown(alloc, complaints, plan, asked.expected);
    let _told = write_unwatchable(alloc, complaints, plan, asked.watched);
}

/// How the program ends after a play that ended so by itself, by what is expected of what it left.
fn judged(
    status: ExitStatus,
    installation: &Installation<SimBus>,
    expected: &[ExpectedWord],
) -> ExitStatus
    ensures { IsJudgedBy status installation.now.plant expected.now result }
{
    if are_met(installation.plant(), expected) {
        status
    } else {
        unmet(status)
    }
}

/// How the program ends where something is not as expected.
fn unmet(status: ExitStatus) -> ExitStatus
    ensures { result ≡ status_unmet status }
{
    match status {
        ExitStatus::Accepted => ExitStatus::Refused,
        other => other,
    }
}

/// The plant of the text on the simulated buses of the scenario, the scenario, and what became of
/// the file of kept values.
///
/// # Errors
///
/// The binding's fault, else what stands against the text, else the scenario's fault, else why the
/// plant is not opened.
pub(crate) fn start(
    alloc: Global,
    pages: &Pages,
    limit: u32,
) -> Result<(Installation<SimBus>, Scenario, KeptNote), PlayStop>
    ensures started { IfOk result (λ made. IsStarted pages.now limit made.0 made.1) }
    ensures stop { IfErr result (IsPlayStop pages.now 1 limit) }
{
    let begun = beginning_in(alloc, pages)?;
    let scenario = scenario_of(alloc, &pages.scenario)?;
    let Beginning { setup, note, .. } = begun;
    let installation = open(alloc, setup, &scenario, u64::from(limit))?;
    Ok((installation, scenario, note))
}
