//! Notes, printed as lines or as JSON.

use crate::facts::{House, house_of};
use crate::kinds::{RULES, Rule, text_of};
use crate::levels::{BROADCAST, FIRST_GROUP, LevelTarget};
use crate::load::add_tenths;
use crate::note::{Found, Note, NotePlace, Notes};
use crate::quoted::Quoted;
use crate::rules::add_all_notes;
use crate::scenario_notes::{Played, add_scenario_notes};
use ilcode::Word;
use ilcompile::Setup;
use illisting::{ValuesText, WordText};
use ilplan::DeclaredName;
use ilsource::{LineColumn, Source};
use printout::Printout;
use std::alloc::{AllocError, Global};
use std::io::Write;
use std::{fmt, io};

/// The files that notes are on, by their paths.
#[derive(Clone, Copy)]
pub struct NotedFiles<'a> {
    pub text: &'a str,
    pub scenario: Option<&'a str>,
}

/// How notes are written, and of which it is asked whether there are any.
#[derive(Clone, Copy)]
pub struct NotesAsked<'a> {
    pub files: NotedFiles<'a>,
    /// Whether they are the members of a list of JSON in place of lines.
    pub is_json: bool,
    /// The name of the notes that are denied, or `all`, where some are.
    pub denied: Option<&'a str>,
}

/// Writes each note on a text, and on a scenario that is played with it where there is one: a line
/// each, and `no notes` where there is none; or as JSON the members of a list, without its
/// brackets. Whether a note is denied.
///
/// # Errors
///
/// The writer's, or that the allocator is out of memory.
pub fn write_notes<W: Write>(
    alloc: Global,
    out: &mut W,
    setup: &Setup,
    source: &Source,
    played: Option<Played>,
    asked: NotesAsked,
) -> io::Result<bool> {
    let house = house_of(alloc, &*setup, &*source)?;
    let notes = notes_on(alloc, &house, played)?;
    let on = Printed {
        house: &house,
        asked,
    };
    let mut page = Printout::new(alloc);
    let is_denied = on.add_notes(&mut page, &notes)?;
    page.write_to(out)?;
    Ok(is_denied)
}

/// All notes on a house, and on the scenario that is played in it.
///
/// # Errors
///
/// The allocator is out of memory.
fn notes_on(alloc: Global, house: &House, played: Option<Played>) -> Result<Notes, AllocError> {
    let mut notes = Notes {
        alloc,
        all: Vec::new(alloc),
        is_cut: false,
    };
    add_all_notes(&mut notes, house)?;
    if let Some(played) = played {
        add_scenario_notes(&mut notes, house, played)?;
    }
    if notes.is_cut {
        Err(AllocError)
    } else {
        Ok(notes)
    }
}

/// What notes are printed with.
#[derive(Clone, Copy)]
struct Printed<'h, 'p, 'a> {
    house: &'h House<'p>,
    asked: NotesAsked<'a>,
}

impl<'h, 'p, 'a> Printed<'h, 'p, 'a> {
    /// Adds the notes, rule by rule, or that there are none. Whether one is denied.
    fn add_notes(&self, page: &mut Printout, notes: &Notes) -> Result<bool, AllocError> {
        let places = self.house.source.text().len().saturating_add(1);
        let mut noted = vec![in notes.alloc; None; places]?;
        let mut is_first = true;
        let mut is_denied = false;
        let denied = self.asked.denied.unwrap_or("");
        for rule in 0..RULES {
            for (found_by, note) in &notes.all {
                if *found_by as u8 == rule && self.is_new(&mut noted, *found_by, note.place) {
                    let text = text_of(note.kind);
                    let (name, message) = text.split_once(": ").unwrap_or((text, ""));
                    self.add_note(page, is_first, note, (name, message));
                    is_first = false;
                    is_denied = is_denied || denied == "all" || denied == name;
                }
            }
        }
        if notes.all.is_empty() && !self.asked.is_json {
            page.text("no notes\n");
        }
        Ok(is_denied)
    }

    /// Whether a note of a rule is printed: where the rule notes each place once, it is the first one
    /// there.
    fn is_new(&self, noted: &mut Vec<Option<u8>>, rule: Rule, place: NotePlace) -> bool {
        let at = match place {
            _ if !rule.notes_once() => return true,
            NotePlace::Name(name) => name.from,
            NotePlace::Line(line) => self.house.lines.start_of(line),
            NotePlace::Whole | NotePlace::Scenario(_) => return true,
        };
        match noted.get_mut(at) {
            Some(last) if *last != Some(rule as u8) => {
                *last = Some(rule as u8);
                true
            }
            _ => false,
        }
    }

    /// Adds a note: `FILE:LINE:COLUMN: note NAME: MESSAGE` on a line, or an object of JSON, behind
    /// a comma where it is not the first. No message has what JSON escapes.
    fn add_note(&self, page: &mut Printout, is_first: bool, note: &Note, texts: (&str, &str)) {
        let (file, at) = self.locate(note.place);
        let (name, message) = texts;
        if self.asked.is_json {
            page.text(if is_first {
                "{\"name\":\""
            } else {
                ",{\"name\":\""
            });
            page.text(name);
            page.text("\",\"file\":");
            page.shown(&Quoted(file));
            add_place(
                page,
                at,
                [
                    ",\"line\":",
                    ",\"column\":",
                    ",\"line\":null,\"column\":null",
                ],
            );
            page.text(",\"message\":\"");
        } else {
            page.text(file);
            add_place(page, at, [":", ":", ""]);
            page.text(": note ");
            page.text(name);
            page.text(": ");
        }
        self.add_message(page, message, note);
        page.text(if self.asked.is_json { "\"}" } else { "\n" });
    }

    /// The file of a place, and where it is in it.
    fn locate(&self, place: NotePlace) -> (&'a str, Option<LineColumn>) {
        let file = self.asked.files.text;
        let lines = &self.house.lines;
        match place {
            NotePlace::Whole => (file, None),
            NotePlace::Name(name) => (file, Some(lines.at(name))),
            NotePlace::Line(line) => {
                let col = first_column(self.house.source.text(), lines.start_of(line));
                (file, Some(LineColumn { line, col }))
            }
            NotePlace::Scenario(line) => {
                let scenario = self.asked.files.scenario.unwrap_or("");
                (scenario, Some(LineColumn { line, col: 1 }))
            }
        }
    }

    /// Adds the text of a note, with what was found.
    fn add_message(&self, page: &mut Printout, message: &str, note: &Note) {
        for (number, piece) in message.split('{').enumerate() {
            if number == 0 {
                page.text(piece);
            } else {
                let (found, rest) = number_in(piece);
                if let Some(found) = note.found.get(found) {
                    self.add_found(page, *found);
                }
                page.text(rest);
            }
        }
    }

    /// Adds what was found.
    fn add_found(&self, page: &mut Printout, found: Found) {
        match found {
            Found::Nothing => {}
            Found::Port(kind, port) => {
                if let Some(port) = kind.ports().get(port) {
                    let bytes = port.name.spelling();
                    page.shown(&DeclaredName { bytes });
                }
            }
            Found::Name(name) => page.shown(&DeclaredName {
                bytes: name.text(self.house.source.text()),
            }),
            Found::Number(number) => page.number(number),
            Found::Count(count) => page.count(count),
            Found::Value(value) => page.shown(&value),
            Found::Tenths(tenths) => add_tenths(page, tenths),
            Found::Driven(driven) => add_driven(page, driven),
            Found::Known(known) => page.shown(&ValuesText { known }),
            Found::Device(driven) => {
                add_numbered(page, "device ", driven.address);
                add_numbered(page, " of bus ", driven.bus);
            }
            Found::Source { bus, source } => {
                add_numbered(page, "", bus);
                add_numbered(page, ".", source);
            }
            Found::Event(frame) => page.shown(&Hex(frame)),
            Found::Task(task) => {
                if task < self.house.plan.tasks() {
                    page.text(self.house.plan.task_name(task));
                }
            }
            Found::Word(task, word) => self.add_word(page, task, word),
        }
    }

    /// Adds a word of a task's code.
    fn add_word(&self, page: &mut Printout, task: usize, word: Word) {
        if let Some(facts) = self.house.tasks.get(task) {
            let names = facts.names(self.house.plan);
            page.shown(&WordText {
                names: &names,
                word,
            });
        }
    }
}

/// Adds a number behind a text.
fn add_numbered(page: &mut Printout, before: &str, number: u8) {
    page.text(before);
    page.count(usize::from(number));
}

/// Adds what a level or a command goes to.
fn add_driven(page: &mut Printout, driven: LevelTarget) {
    match driven.address.checked_sub(FIRST_GROUP) {
        Some(_) if driven.address == BROADCAST => page.text("all gear"),
        Some(group) => add_numbered(page, "group ", group),
        None => add_numbered(page, "gear ", driven.address),
    }
    add_numbered(page, " of bus ", driven.bus);
}

/// A frame as six hexadecimal digits.
#[derive(Clone, Copy)]
struct Hex(u32);

impl fmt::Display for Hex {
    fn fmt<W: fmt::Write>(&self, f: &mut fmt::Formatter<W>) -> fmt::Result {
        write!(f, "{:06X}", self.0)
    }
}

/// The marks of what was found in a text of notes, once split at `{`.
const MARKS: [&str; 4] = ["0}", "1}", "2}", "3}"];

/// The number of what was found that a piece of a text begins with, and what follows it.
fn number_in(piece: &str) -> (usize, &str) {
    for (number, mark) in MARKS.iter().enumerate() {
        if let Some(rest) = piece.strip_prefix(*mark) {
            return (number, rest);
        }
    }
    (MARKS.len(), piece)
}

/// The column of the first word of the line that begins at a place of the text, counted from 1.
fn first_column(text: &[u8], start: usize) -> usize {
    let (_, line) = text.split_at(start.min(text.len()));
    let blanks = line
        .iter()
        .take_while(|byte| **byte == b' ' || **byte == b'\t');
    blanks.count().saturating_add(1)
}

/// Adds a place behind a file: texts stand before the line and before the column, and one in place
/// of both where there is none.
fn add_place(page: &mut Printout, at: Option<LineColumn>, texts: [&str; 3]) {
    match at {
        Some(LineColumn { line, col }) => {
            page.text(texts[0]);
            page.count(line);
            page.text(texts[1]);
            page.count(col);
        }
        None => page.text(texts[2]),
    }
}
