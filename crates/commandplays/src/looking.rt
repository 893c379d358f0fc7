//! Looking at a scenario: its files are read, it is played, and a picture of that is printed or
//! written to a file.

use crate::pages::{Pages, read_pages};
use crate::playing::start;
use crate::unknown::write_unwatchable;
use commandfiles::{Disk, ExitStatus, FileRole, PlayStop, Unserved, tell_hint, write_at};
use commandline::LookOptions;
use commandoptions::PlayFiles;
use plant::Plant;
use plantplay::{Ending, Installation, are_watchable, play_on, write_counts};
use playdraw::{Drawing, Moment, Picture, write_svg, write_text};
use printout::Printout;
use simbus::{Scenario, SimBus};
use std::alloc::{AllocError, Global};
use std::io::Write;
use std::{fmt, io};

/// The most events of a history that is looked at.
const LIMIT: u32 = 100_000;

/// What is seen, as it is written, and how the program ends.
#[derive(Drop)]
struct Seen {
    /// A picture, or the line of what stands against playing the scenario, or nothing.
    lines: Vec<u8>,
    is_picture: bool,
    status: ExitStatus,
}

/// Reads the files that are named, the binding before the text, that before the scenario and that
/// before the kept values, plays the scenario and prints a picture of what happened, with a row for
/// each variable that is watched, as SVG or as lines for a terminal; the writer, which then has all
/// of it, and how the program ends. Where the picture goes to a file, the writer has nothing. What
/// stands against playing goes to the standard error, and which file has the fault, as does what
/// became of the file of kept values. Names that are watched and that no variable has go there too;
/// then nothing is played. What is printed is by rows alone.
///
/// # Errors
///
/// The first file that is not read, that the picture is not written, or the writer's error.
pub fn serve_look<'a, D: Disk, W: Write + Drop, E: Eprint>(
    alloc: Global,
    disk: &D,
    mut to: W,
    errors: &E,
    files: PlayFiles<'a>,
    options: LookOptions<'a>,
    watches: &[&str],
) -> Result<(W, ExitStatus), Unserved<'a>> {
    let pages = read_pages(alloc, disk, files)?;
    let mut said = Vec::new(alloc);
    let seen = look(alloc, &mut said, &pages, files, options, watches);
    let _told = complain(errors, &said);
    let seen = seen?;
    match options.to {
        Some(path) if seen.is_picture => write_at(alloc, disk, path, &seen.lines)?,
        None if seen.is_picture => to.write_all(&seen.lines)?,
        _ => complain(errors, &seen.lines)?,
    }
    Ok((to, seen.status))
}

/// Prints lines to the standard error, where there are any.
fn complain<E: Eprint>(errors: &E, lines: &[u8]) -> io::Result<()> {
    match str::from_utf8(lines) {
        Ok("") | Err(_) => Ok(()),
        Ok(text) => eprint!(errors; "{text}"),
    }
}

/// Plays the scenario; the picture of it that is asked for, or what stands against playing. `said`
/// gets what goes to the standard error in any case.
fn look(
    alloc: Global,
    said: &mut Vec<u8>,
    pages: &Pages,
    files: PlayFiles,
    options: LookOptions,
    watches: &[&str],
) -> io::Result<Seen> {
    match start(alloc, pages, LIMIT) {
        Ok((mut installation, scenario, note)) => {
            if !are_watchable(installation.plant().setup().plan(), watches) {
                return unknown(alloc, said, installation.plant(), watches);
            }
            let _told = write!(said, "{note}");
            let (picture, status) = draw_all(
                alloc,
                &mut installation,
                &scenario,
                watches,
                options.bus,
            )?;
            draw(alloc, picture, status, files, options)
        }
        Err(stop) => stopped(alloc, pages, files, &stop),
    }
}

/// Nothing is seen, since these names are watched, and `said` gets which of them no variable has.
fn unknown(alloc: Global, said: &mut Vec<u8>, plant: &Plant, watches: &[&str]) -> io::Result<Seen> {
    write_unwatchable(alloc, said, plant.setup().plan(), watches)?;
    Ok(Seen {
        lines: Vec::new(alloc),
        is_picture: false,
        status: ExitStatus::Misused,
    })
}

/// The line of what stands against playing is seen, and which file has the fault.
fn stopped(alloc: Global, pages: &Pages, files: PlayFiles, stop: &PlayStop) -> io::Result<Seen> {
    let mut lines = Vec::new(alloc);
    writeln!(lines, "{stop}")?;
    tell_hint(
        alloc,
        &mut lines,
        pages.read_from(files),
        FileRole::of_play_stop(stop),
    );
    Ok(Seen {
        lines,
        is_picture: false,
        status: stop.status(),
    })
}

/// The picture is seen as it is asked for, under its name.
fn draw(
    alloc: Global,
    mut picture: Picture,
    status: ExitStatus,
    files: PlayFiles,
    options: LookOptions,
) -> io::Result<Seen> {
    picture.name = name_of(alloc, files, options)?;
    let picture = part_of(alloc, picture, options)?;
    let mut lines = Vec::new(alloc);
    if options.is_text {
        write_text(alloc, &mut lines, &picture)?;
    } else {
        write_svg(alloc, &mut lines, picture)?;
    }
    Ok(Seen {
        lines,
        is_picture: true,
        status,
    })
}

/// Plays a scenario of which a bus may be asked for; its whole picture, and how the program ends.
fn draw_all(
    alloc: Global,
    installation: &mut Installation<SimBus>,
    scenario: &Scenario,
    watches: &[&str],
    bus: Option<u32>,
) -> io::Result<(Picture, ExitStatus)> {
    let mut drawing = Drawing::new(alloc, installation.plant(), scenario, watches)?;
    let ending = play_on(alloc, installation, scenario, &mut drawing)?;
    let notes = notes_of(alloc, ending, installation.plant(), bus)?;
    let picture = drawing.into_picture(&notes)?;
    let status = ExitStatus::of_play(ending, installation.has_down());
    Ok((picture, status))
}

/// The lines below a picture: that the bus that is asked for is not there, why the play ended
/// before its scenario, and what was given up.
fn notes_of(alloc: Global, ending: Ending, plant: &Plant, bus: Option<u32>) -> io::Result<Vec<u8>> {
    let mut page = Printout::new(alloc);
    note_absent(&mut page, bus, plant.setup().plan().buses());
    page.text(match ending {
        Ending::Whole => "",
        Ending::Limit => "limit\n",
        Ending::NoMemory => "no memory\n",
    });
    let mut notes = Vec::new(alloc);
    page.write_to(&mut notes)?;
    if ending != Ending::NoMemory {
        write_counts(&mut notes, plant)?;
    }
    Ok(notes)
}

/// Adds that a bus is not there, where one is asked for whose number is not below that of the
/// buses.
fn note_absent(page: &mut Printout, bus: Option<u32>, buses: u8) {
    if let Some(bus) = bus {
        if bus >= u32::from(buses) {
            page.text("bus ");
            page.shown(&bus);
            page.text(" is not there: the binding has ");
            page.shown(&buses);
            page.text("\n");
        }
    }
}

/// What a picture is of: the paths of its files, and the part that is asked for.
fn name_of(alloc: Global, files: PlayFiles, options: LookOptions) -> io::Result<String> {
    let mut page = Printout::new(alloc);
    page.text(files.text);
    add_part(&mut page, ", ", Some(files.binding));
    add_part(&mut page, ", ", Some(files.scenario));
    add_part(&mut page, ", ", files.keep);
    add_part(&mut page, ", bus ", options.bus);
    add_part(&mut page, ", from ", options.from.map(moment));
    add_part(&mut page, ", to ", options.until.map(moment));
    let mut name = Vec::new(alloc);
    page.write_to(&mut name)?;
    Ok(String::from_str(alloc, str::from_utf8(&name).unwrap_or(""))?)
}

/// Adds to a name what it is of, behind a word, where there is that.
fn add_part<D: fmt::Display + Copy>(page: &mut Printout, word: &str, part: Option<D>) {
    if let Some(part) = part {
        page.text(word);
        page.shown(&part);
    }
}

/// A moment of the command line.
fn moment(milliseconds: u32) -> Moment {
    Moment {
        milliseconds: u64::from(milliseconds),
    }
}

/// The part of a picture that is asked for.
fn part_of(alloc: Global, picture: Picture, options: LookOptions) -> Result<Picture, AllocError> {
    let picture = match options.bus {
        Some(bus) => picture.of_bus(alloc, u8::try_from(bus).unwrap_or(u8::MAX))?,
        None => picture,
    };
    if options.from.is_none() && options.until.is_none() {
        return Ok(picture);
    }
    let from = options.from.unwrap_or(0);
    let until = match options.until {
        Some(until) => u64::from(until),
        None => u64::MAX,
    };
    picture.between(alloc, u64::from(from), until)
}
