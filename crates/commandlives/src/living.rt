//! Running a building: its files are read, its lines opened, and what it came to is printed.

ghost use Rattle.std.specs.Prelude.{◌≡◌, ℕ, List, Option, IfErr, IfOk, option_map};
ghost use Rattle.commandfiles.specs.Beginnings.{HasBegun, IsStopUnder};
ghost use Rattle.commandlives.specs.Buildings.{IsCutWhereAsked, IsHalted, IsLiveEnd, IsLiveServed};
ghost use Rattle.commandlives.specs.Buildings.{IsLiveUnread, IsLivedOut, IsToldWhereBegun};
ghost use Rattle.commandlives.specs.Buildings.{IsUnobserved, status_of_live_end};

use crate::live_status::status_of_live_stop;
use crate::lived::LiveLeft;
use buslink::{Bus, Clock};
use commandfiles::{
    Beginning, Disk, ExitStatus, FileRole, KeptNote, ReadFiles, Stop, Unserved, beginning_of,
    bytes_at, hint_of, kept_at,
};
use commandoptions::{LineWord, LiveFiles, LiveOptions};
use livehouse::{BuildingObserver, Departure, Gate, LiveStop, OpenGate, Site, Storage, open};
use plant::StartFault;
use plantdriving::has_down;
use plantload::{kept_scans_are_as_meant, scans_are_as_meant};
use printout::Printout;
use std::alloc::Global;
use std::io;
use std::io::{BufWriter, Write};
use std::marker::Model;
use std::sync::Wait;
use std::thread::Threads;
use std::time::Clock as Timer;

/// The first of what stands against running a building, in the order in which it is reported.
#[derive(Drop)]
pub enum Halted {
    /// Of the binding or the text, or that the allocator is out of memory.
    Text(Stop),
    /// Of the lines, the clock or the plant.
    Building(LiveStop),
}

impl From<Stop> for Halted {
    ghost use Rattle.std.specs.Prelude.{◌≡◌};
    ghost use Rattle.commandlives.specs.declared.living.Halted.TheVariants.{Text};

    ghost from_gives = { λ stop halted. halted ≡ Text stop };

    fn from(stop: Stop) -> Self {
        Halted::Text(stop)
    }
}

impl From<LiveStop> for Halted {
    ghost use Rattle.std.specs.Prelude.{◌≡◌};
    ghost use Rattle.commandlives.specs.declared.living.Halted.TheVariants.{Building};

    ghost from_gives = { λ stop halted. halted ≡ Building stop };

    fn from(stop: LiveStop) -> Self {
        Halted::Building(stop)
    }
}

/// What a building came to: what it left, or what stands against running it.
pub type LiveEnd<B, C> = Result<LiveLeft<B, C>, Halted>;

/// Who is told what is about to run, and why a building does not run. Whether it can be told
/// changes nothing.
pub trait Notice {
    ghost use Rattle.commandfiles.specs.declared.beginning.KeptNote.{KeptNote};

    // This is told of the file of kept values, or could not be told.
    ghost is_told: { Self → KeptNote → Type 0 };

    /// This became of the file of kept values.
    ///
    /// # Errors
    ///
    /// It cannot be told.
    fn begins(&self, note: &KeptNote) -> io::Result<()>
        ensures { is_told self.now note.now };

    /// This is about to run.
    ///
    /// # Errors
    ///
    /// It cannot be told.
    fn departs<B: Bus, C: Clock>(&self, departure: &Departure<B, C>) -> io::Result<()>;

    /// This says which file has the fault that is printed.
    ///
    /// # Errors
    ///
    /// It cannot be told.
    fn hints(&self, hint: Printout) -> io::Result<()>;

    /// The building does not run.
    ///
    /// # Errors
    ///
    /// It cannot be told.
    fn halts(&self, stop: &LiveStop) -> io::Result<()>;
}

/// What a building runs on: its site, and who is told.
#[derive(Clone, Copy)]
pub struct Grounds<'g, S: Site, N: Notice> {
    pub site: &'g S,
    pub notice: &'g N,
}

/// Reads the files that are named, the binding before the text and that before the kept values,
/// opens the lines of the buses, runs the building and prints what it came to; the writer, which
/// then has every line, and what it came to.
///
/// # Errors
///
/// The first file that is not read, where kept values count only for lack of memory; or the
/// writer's error.
pub fn serve_live<
    'a,
    D: Disk,
    S: Site + Storage + Sync,
    N: Notice,
    W: Write + Drop,
    R: Threads + Wait + Timer + Sync,
>(
    rt: &R,
    alloc: Global,
    disk: &D,
    grounds: &Grounds<S, N>,
    to: W,
    files: LiveFiles<'a>,
    lines: &[LineWord<'a>],
    options: &LiveOptions<'a>,
) -> Result<(W, LiveEnd<S::Line, S::Clock>), Unserved<'a>>
    ensures live { IfOk result (λ done. IsLiveServed (D.gives disk.now) (D.fails disk.now)
        (N.is_told grounds.now.notice.now) S.Line.log S.Clock.log (S.is_of grounds.now.site.now)
        (S.is_timed grounds.now.site.now) files.entry lines.now options.now done.1) }
    ensures unread { IfErr result (IsLiveUnread (D.gives disk.now) (D.fails disk.now) files.entry
        (option_map (λ path. path.now) options.now.beside.keep)) }
{
    let pages = LivePages {
        binding: bytes_at(alloc, disk, files.binding)?,
        text: bytes_at(alloc, disk, files.text)?,
        kept: kept_at(alloc, disk, options.beside.keep)?,
    };
    let done = print(rt, alloc, grounds, to, &pages, lines, options)?;
    if let Err(Halted::Text(stop)) = &done.1 {
        hint(alloc, grounds.notice, files, &pages, stop);
    }
    Ok(done)
}

/// Tells which file has a fault, where one has.
fn hint<N: Notice>(alloc: Global, notice: &N, files: LiveFiles, pages: &LivePages, stop: &Stop) {
    let read = ReadFiles::of_building(files, &pages.binding, &pages.text);
    let Some(place) = FileRole::of_stop(stop) else {
        return;
    };
    if let Some(hint) = hint_of(alloc, read, place) {
        let _told = notice.hints(hint.page(alloc));
    }
}

/// What the files of a building hold.
#[derive(Drop)]
struct LivePages {
    binding: Vec<u8>,
    text: Vec<u8>,
    /// The file of kept values, where one is named and read.
    kept: Option<Vec<u8>>,
}

impl Model for LivePages {
    ghost use Rattle.std.specs.Prelude.{option_map};
    ghost use Rattle.commandfiles.specs.Beginnings.{LiveBytes};

    ghost Value = { LiveBytes };

    ghost view = { λ pages. record {
      binding = pages.binding.items;
      text = pages.text.items;
      file = option_map (λ bytes. bytes.items) pages.kept;
    } };
}

/// Runs the building, and prints what it came to through a buffer, of which nothing is left behind.
fn print<
    'a,
    S: Site + Storage + Sync,
    N: Notice,
    W: Write + Drop,
    R: Threads + Wait + Timer + Sync,
>(
    rt: &R,
    alloc: Global,
    grounds: &Grounds<S, N>,
    to: W,
    pages: &LivePages,
    lines: &[LineWord<'a>],
    options: &LiveOptions<'a>,
) -> io::Result<(W, LiveEnd<S::Line, S::Clock>)>
    ensures end { IfOk result (λ done. IsLiveEnd pages.now.binding pages.now.text pages.now.file
        S.Line.log S.Clock.log (S.is_of grounds.now.site.now) (S.is_timed grounds.now.site.now)
        lines.now options.now done.1) }
    ensures cut { IfOk result (λ done. IsCutWhereAsked options.now.ends_on_down done.1) }
    ensures told { IfOk result (λ done. IsToldWhereBegun (N.is_told grounds.now.notice.now)
        pages.now.binding pages.now.text pages.now.file done.1) }
{
    let mut out = BufWriter::new(alloc, to)?;
    let end = live_on(rt, alloc, grounds, pages, lines, options);
    report(&mut out, grounds.notice, &end)?;
    Ok((out.into_inner()?, end))
}

/// How the program ends by what a building came to.
pub fn status_of_live<B: Bus, C: Clock>(end: &LiveEnd<B, C>) -> ExitStatus
    ensures { result ≡ status_of_live_end end.now }
{
    match end {
        Ok(left) if left.is_cut => ExitStatus::Failed,
        Ok(left) => ExitStatus::of_run(left.lived.ended, has_down(left.lived.left.plant())),
        Err(Halted::Text(stop)) => ExitStatus::of_stop(stop),
        Err(Halted::Building(stop)) => status_of_live_stop(&stop),
    }
}

/// Writes what the building came to, or what stands against the text or the plant; what stands
/// against the lines is told.
fn report<W: Write, N: Notice, B: Bus, C: Clock>(
    out: &mut W,
    notice: &N,
    end: &LiveEnd<B, C>,
) -> io::Result<()> {
    match end {
        Ok(left) => left.write(out),
        Err(Halted::Text(stop)) => writeln!(out, "{stop}"),
        Err(Halted::Building(LiveStop::Start(fault))) => writeln!(out, "{fault}"),
        Err(Halted::Building(stop)) => notice.halts(stop),
    }
}

/// Runs the plant of the text over the lines of a building, with what is written beside it.
///
/// # Errors
///
/// The binding's fault, else what stands against the text, else what stands against the lines, the
/// clock or the plant.
fn live_on<'a, S: Site + Storage + Sync, N: Notice, R: Threads + Wait + Timer + Sync>(
    rt: &R,
    alloc: Global,
    grounds: &Grounds<S, N>,
    pages: &LivePages,
    lines: &[LineWord<'a>],
    options: &LiveOptions<'a>,
) -> LiveEnd<S::Line, S::Clock>
    ensures lived { IfOk result (λ left. IsLivedOut pages.now.binding pages.now.text
        pages.now.file S.Line.log S.Clock.log (S.is_of grounds.now.site.now)
        (S.is_timed grounds.now.site.now) lines.now options.now left.lived) }
    ensures cut { IsCutWhereAsked options.now.ends_on_down result }
    ensures told { IsToldWhereBegun (N.is_told grounds.now.notice.now) pages.now.binding
        pages.now.text pages.now.file result }
    ensures halted { IfErr result (IsHalted pages.now.binding pages.now.text pages.now.file
        lines.now options.now) }
{
    let begun = begun_of(alloc, pages)?;
    let _told = grounds.notice.begins(&begun.note);
    if !options.beside.is_empty() {
        let observer = observer_of(rt, alloc, grounds.site, pages, options)?;
        let end = live_with(rt, alloc, grounds, &observer, begun, lines, options);
        finish_after(&observer, &end);
        return end;
    }
    live_with(rt, alloc, grounds, &OpenGate, begun, lines, options)
}

/// Runs a building that begins so. The gate is told of each event.
///
/// # Errors
///
/// What stands against the lines, the clock or the plant.
fn live_with<'a, S: Site, N: Notice, G: Gate, R: Threads + Wait + Timer + Sync>(
    rt: &R,
    alloc: Global,
    grounds: &Grounds<S, N>,
    gate: &G,
    begun: Beginning,
    lines: &[LineWord<'a>],
    options: &LiveOptions<'a>,
) -> LiveEnd<S::Line, S::Clock>
    ensures lived { IfOk result (λ left. (binding text : List ℕ) (file : Option (List ℕ))
        → HasBegun binding text file begun
        → IsLivedOut binding text file S.Line.log S.Clock.log (S.is_of grounds.now.site.now)
        (S.is_timed grounds.now.site.now) lines.now options.now left.lived) }
    ensures cut { IsCutWhereAsked options.now.ends_on_down result }
    ensures halted { IfErr result (λ halted. (binding text : List ℕ) (file : Option (List ℕ))
        → HasBegun binding text file begun
        → IsHalted binding text file lines.now options.now halted) }
{
    let begins = begun.begins();
    let Beginning { setup, .. } = begun;
    let building = open(alloc, grounds.site, setup, lines, options, begins)?;
    let Ok(watch) = building.watch.clone() else {
        return Err(Halted::Building(LiveStop::Start(StartFault::Memory)));
    };
    let _told = grounds.notice.departs(&Departure {
        building: &building,
        lines,
    });
    scans_are_as_meant();
    kept_scans_are_as_meant();
    let lived = building.go(rt, alloc, gate)?;
    Ok(LiveLeft {
        lived,
        is_cut: options.ends_on_down && watch.is_over(),
    })
}

/// The setup that a building begins with.
///
/// # Errors
///
/// The binding's fault, else what stands against the text.
fn begun_of(alloc: Global, pages: &LivePages) -> Result<Beginning, Stop>
    ensures begun { IfOk result (HasBegun pages.now.binding pages.now.text pages.now.file) }
    ensures stop { IfErr result (IsStopUnder pages.now.binding pages.now.text) }
{
    beginning_of(alloc, &pages.binding, &pages.text, pages.kept.as_ref())
}

/// Who writes beside a building what its options ask for. A file of kept values that is not used is
/// put aside; where it cannot be, it stays as it is, and no values are kept.
///
/// # Errors
///
/// The allocator is out of memory.
fn observer_of<'o, 'a, S: Storage, R: Wait>(
    rt: &'o R,
    alloc: Global,
    storage: &'o S,
    pages: &'o LivePages,
    options: &LiveOptions<'a>,
) -> Result<BuildingObserver<'o, 'a, S, R>, Halted>
    ensures { IfErr result (IsUnobserved pages.now.binding pages.now.text) }
{
    let begun = begun_of(alloc, pages)?;
    let mut beside = options.beside;
    if let Some(path) = aside(&begun.note, beside.keep) {
        if !put_aside(alloc, storage, path) {
            beside.keep = None;
        }
    }
    let kept = used_bytes(&begun.note, pages);
    let begins = begun.begins();
    let workers = options.size.workers as usize;
    match BuildingObserver::open(
        rt,
        alloc,
        storage,
        &beside,
        begun.setup,
        kept,
        begins,
        workers,
    ) {
        Ok(observer) => Ok(observer),
        Err(_) => Err(Halted::Text(Stop::Memory)),
    }
}

/// The bytes of the file of kept values, where they are used.
fn used_bytes<'p>(note: &KeptNote, pages: &'p LivePages) -> Option<&'p [u8]> {
    match note {
        KeptNote::Used(..) => pages.kept.as_deref(),
        KeptNote::NoFile | KeptNote::Unused(_) => None,
    }
}

/// Has written what is left beside a building that ran. Of one that does not run nothing is
/// written.
fn finish_after<S: Storage, R: Wait, B: Bus, C: Clock>(
    observer: &BuildingObserver<S, R>,
    end: &LiveEnd<B, C>,
) {
    if end.is_ok() {
        observer.finish();
    }
}

/// The path of a file of kept values that is not used.
fn aside<'a>(note: &KeptNote, path: Option<&'a str>) -> Option<&'a str> {
    match note {
        KeptNote::Unused(_) => path,
        KeptNote::NoFile | KeptNote::Used(..) => None,
    }
}

/// Gives a file the name FILE.old. Answers whether it has it; where it cannot be renamed, that is
/// told.
fn put_aside<S: Storage>(alloc: Global, storage: &S, path: &str) -> bool {
    let Ok(old) = format!(in alloc; "{path}.old") else {
        return false;
    };
    if storage.rename(path, &old).is_ok() {
        return true;
    }
    let line = format!(in alloc; "{path} cannot be renamed {old}: it stays, and nothing is kept\n");
    if let Ok(line) = line {
        let _told = storage.tell(&line);
    }
    false
}
