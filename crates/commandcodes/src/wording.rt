//! Frames in words, and the line of a scenario for an event.

use crate::decoding::{STANDARD_INPUT, serve_log};
use commandfiles::{
    Disk, ExitStatus, FileRole, ReadFiles, Unserved, add_texts, bytes_at, tell_hint,
};
use commandline::GivenFrames;
use daliframe::{Frame, Frame16, Frame24};
use daliwords::{FrameWords, frame_of_event};
use printout::Printout;
use std::alloc::{AllocError, Global};
use std::io;
use std::io::Write;
use std::rt::Files;
use textanswers::{Stop, binding_of};
use wordlines::{Binding, BoundSource, hex_of, number_of, parts_around_dot};

/// Prints what frames say, a line each, or with `-` alone the lines of standard input with what
/// their frames say; the writer, which then has every line, and how the program ends. Where a word
/// is no frame nothing is printed, and `complaints` gets a line for each such word. What is printed
/// is by rows alone.
///
/// # Errors
///
/// Standard input is not read, or the writer's error.
pub fn serve_frames<'a, R: Files, W: Write + Drop, E: Write>(
    rt: &R,
    alloc: Global,
    to: W,
    complaints: &mut E,
    given: GivenFrames<'a>,
) -> Result<(W, ExitStatus), Unserved<'a>> {
    let second = given.others[0];
    if given.first == STANDARD_INPUT && second.is_none() {
        return serve_log(rt, alloc, to);
    }
    Ok(print_frames(alloc, to, complaints, given)?)
}

/// Prints what frames say, all at once.
fn print_frames<W: Write + Drop, E: Write>(
    alloc: Global,
    mut to: W,
    complaints: &mut E,
    given: GivenFrames,
) -> io::Result<(W, ExitStatus)> {
    let words = words_of(alloc, given)?;
    if !words.iter().all(|word| frame_of(word).is_some()) {
        let _told = page_of_others(alloc, &words).write_to(complaints);
        return Ok((to, ExitStatus::Misused));
    }
    page_of_frames(alloc, &words).write_to(&mut to)?;
    Ok((to, ExitStatus::Accepted))
}

/// The words that are given for frames.
fn words_of<'a>(alloc: Global, given: GivenFrames<'a>) -> Result<Vec<&'a str>, AllocError> {
    let mut words = Vec::new(alloc);
    words.push(given.first)?;
    for other in given.others {
        if let Some(word) = other {
            words.push(word)?;
        }
    }
    Ok(words)
}

/// A line for each word that is no frame.
fn page_of_others(alloc: Global, words: &[&str]) -> Printout {
    let mut page = Printout::new(alloc);
    for word in words {
        if frame_of(word).is_none() {
            let what = " is no frame: write 4 or 6 hexadecimal digits, as FF05 or 0A8809\n";
            add_texts(&mut page, &["error: ", word, what]);
        }
    }
    page
}

/// What frames say, a line each.
fn page_of_frames(alloc: Global, words: &[&str]) -> Printout {
    let mut page = Printout::new(alloc);
    for word in words {
        add_frame(&mut page, word);
    }
    page
}

/// Adds a line with what a word says that is a frame.
pub(crate) fn add_frame(page: &mut Printout, word: &str) {
    if let Some(frame) = frame_of(word) {
        page.shown(&frame);
        page.text(" ");
        page.shown(&FrameWords(frame));
        page.text("\n");
    }
}

/// The frame that four or six hexadecimal digits spell.
pub(crate) fn frame_of(word: &str) -> Option<Frame> {
    match word.as_bytes() {
        [a, b, c, d] => {
            let number = hex_of(&[b'0', b'0', *a, *b, *c, *d])?;
            Some(Frame::Forward16(Frame16::new(u16::try_from(number).ok()?)))
        }
        digits => {
            let number = hex_of(digits)?;
            Some(Frame::Forward24(Frame24::new(number)?))
        }
    }
}

/// Reads the binding at a path, and prints the line of a scenario for an event of its source at a
/// place `B.K` with this information; the writer, which then has the line, and how the program
/// ends. What stands against that goes to `complaints`. What is printed is by rows alone.
///
/// # Errors
///
/// The binding is not read, or the writer's error.
pub fn serve_event<'a, D: Disk, W: Write + Drop, E: Write>(
    alloc: Global,
    disk: &D,
    mut to: W,
    complaints: &mut E,
    binding: &'a str,
    place: &str,
    information: u32,
) -> Result<(W, ExitStatus), Unserved<'a>> {
    let bytes = bytes_at(alloc, disk, binding)?;
    match event_of(alloc, &bytes, place, information) {
        Ok(event) => {
            writeln!(to, "event {} {}", event.bus, event.frame)?;
            Ok((to, ExitStatus::Accepted))
        }
        Err(refusal) => {
            let _told = refusal.page(alloc).write_to(complaints);
            let read = ReadFiles::of_binding(binding, &bytes);
            tell_hint(alloc, complaints, read, refusal.place());
            Ok((to, refusal.status()))
        }
    }
}

/// An event on a bus.
#[derive(Clone, Copy)]
struct BusEvent {
    bus: u8,
    frame: Frame24,
}

/// A place for a source of events.
#[derive(Clone, Copy)]
struct Place {
    bus: u8,
    number: u8,
}

impl Place {
    /// Adds the place, as `B.K`.
    fn add_to(self, page: &mut Printout) {
        page.shown(&self.bus);
        page.text(".");
        page.shown(&self.number);
    }
}

/// Why there is no such event.
#[derive(Drop)]
enum EventRefusal<'a> {
    /// The binding is at fault, or out of memory.
    Binding(Stop),
    /// The word is no place.
    NoPlace(&'a str),
    /// The binding binds nothing to this place.
    Unbound(Place, Binding),
    /// The information has more than 10 bits.
    TooMuch(u32),
}

impl EventRefusal<'_> {
    /// How the program ends.
    fn status(&self) -> ExitStatus {
        match self {
            EventRefusal::Binding(stop) => ExitStatus::of_stop(stop),
            EventRefusal::NoPlace(_) => ExitStatus::Misused,
            EventRefusal::Unbound(..) | EventRefusal::TooMuch(_) => ExitStatus::Refused,
        }
    }

    /// What the file is that has the fault, where one has.
    fn place(&self) -> Option<FileRole> {
        match self {
            EventRefusal::Binding(stop) => FileRole::of_stop(stop),
            EventRefusal::NoPlace(_) | EventRefusal::Unbound(..) | EventRefusal::TooMuch(_) => None,
        }
    }
}

impl EventRefusal<'_> {
    /// The line that is printed.
    fn page(&self, alloc: Global) -> Printout {
        let mut page = Printout::new(alloc);
        match self {
            EventRefusal::Binding(stop) => page.shown(stop),
            EventRefusal::NoPlace(word) => {
                let what = " is no place: write bus and source, as 0.3";
                add_texts(&mut page, &["error: ", word, what]);
            }
            EventRefusal::Unbound(place, binding) => {
                page.text("no source ");
                place.add_to(&mut page);
                list_bound(&mut page, binding);
            }
            EventRefusal::TooMuch(information) => {
                page.text("no information ");
                page.shown(information);
                page.text(": at most 1023");
            }
        }
        page.text("\n");
        page
    }
}

/// How many places of a binding are named where another one was asked for.
const MOST_NAMED: usize = 8;

/// Adds which places are bound, at most [`MOST_NAMED`] of them.
fn list_bound(page: &mut Printout, binding: &Binding) {
    for (index, bound) in binding.sources().iter().take(MOST_NAMED).enumerate() {
        page.text(if index == 0 {
            "; the binding has "
        } else {
            ", "
        });
        place_at(*bound).add_to(page);
    }
    page.text(match binding.sources().len() {
        0 => "; the binding has none",
        count if count > MOST_NAMED => ", ..",
        _ => "",
    });
}

/// The place of a source that is bound.
fn place_at(bound: BoundSource) -> Place {
    Place {
        bus: bound.bus,
        number: bound.number,
    }
}

/// The event of the source at a place of a binding, with this information.
///
/// # Errors
///
/// The word is no place, the binding's fault, nothing is bound there, or the information is too
/// much.
fn event_of<'a>(
    alloc: Global,
    bytes: &[u8],
    place: &'a str,
    information: u32,
) -> Result<BusEvent, EventRefusal<'a>> {
    let Some(place) = place_of(place) else {
        return Err(EventRefusal::NoPlace(place));
    };
    let binding = match binding_of(alloc, Some(bytes)) {
        Ok(binding) => binding,
        Err(stop) => return Err(EventRefusal::Binding(stop)),
    };
    let Some(source) = binding.source(place.bus, place.number) else {
        return Err(EventRefusal::Unbound(place, binding));
    };
    match frame_of_event(source, information) {
        Some(frame) => Ok(BusEvent {
            bus: place.bus,
            frame,
        }),
        None => Err(EventRefusal::TooMuch(information)),
    }
}

/// The place that a word names: a bus, a dot, and the number of a source there, both at most 63.
fn place_of(word: &str) -> Option<Place> {
    let (bus, number) = parts_around_dot(word.as_bytes())?;
    Some(Place {
        bus: number_of(bus, 63)? as u8,
        number: number_of(number, 63)? as u8,
    })
}
