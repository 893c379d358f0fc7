//! Telling what installers ask of a text: notes on it, its words, and what stands against it.

use crate::objects::{write_explanation, write_noted, write_sizes, write_stop, write_words};
use commandfiles::{
    Disk, ExitStatus, FileRole, PlayStop, ReadFiles, Stop, UnknownTask, Unserved, add_texts,
    binding_of, bytes_at, check, misplaced_text, named_at, tell_hint,
};
use commandline::Question;
use commandoptions::Files;
use explaining::{AskedText, explain_binding, explain_scenario, explanation_of};
use ilcompile::Setup;
use illisting::write_task;
use ilnotes::{NOTE_NAMES, NotedFiles, NotesAsked, Played, is_note_name, write_load};
use ilsource::Source;
use plantload::load_with_source;
use printout::Printout;
use simbus::Scenario;
use std::alloc::Global;
use std::io;
use std::io::Write;
use wordlines::Binding;

/// What the files hold that a question is about.
#[derive(Drop)]
struct Sheets {
    binding: Option<Vec<u8>>,
    text: Vec<u8>,
    scenario: Option<Vec<u8>>,
}

impl Sheets {
    /// What was read of the text and the binding at these paths.
    fn read_from<'a>(&'a self, files: Files<'a>) -> ReadFiles<'a> {
        ReadFiles::of_files(files, &self.binding, &self.text)
    }
}

/// What is asked of which files.
#[derive(Clone, Copy)]
struct AskedFiles<'a> {
    files: Files<'a>,
    question: Question<'a>,
}

impl<'a> AskedFiles<'a> {
    /// The path of the scenario that is asked about.
    fn scenario(self) -> Option<&'a str> {
        match self.question {
            Question::Faults { scenario, .. } => scenario,
            _ => None,
        }
    }

    /// The name of the notes that are denied, where no notes have it.
    fn unknown_notes(self) -> Option<&'a str> {
        self.notes().denied.filter(|name| !is_note_name(name))
    }

    /// How notes are written.
    fn notes(self) -> NotesAsked<'a> {
        let (denied, is_json) = match self.question {
            Question::Notes { denied, is_json } => (denied, is_json),
            Question::Faults { is_json, .. } => (None, is_json),
            _ => (None, false),
        };
        let files = NotedFiles {
            text: self.files.text,
            scenario: self.scenario(),
        };
        NotesAsked {
            files,
            is_json,
            denied,
        }
    }
}

/// Reads the files that are named, the binding before the text and that before a scenario, and
/// prints what is asked of them; the writer, which then has all of it, and how the program ends.
/// `complaints` gets which tasks there are, where one is not, which file has the fault that is
/// printed, or the line of notes that are not there. What is printed is by rows alone.
///
/// # Errors
///
/// The first file that is not read, or the writer's error.
pub fn serve_question<'a, D: Disk, W: Write + Drop, E: Write>(
    alloc: Global,
    disk: &D,
    to: W,
    complaints: &mut E,
    files: Files<'a>,
    question: Question<'a>,
) -> Result<(W, ExitStatus), Unserved<'a>> {
    let asked = AskedFiles { files, question };
    if let Some(name) = asked.unknown_notes() {
        let _told = tell_unknown_notes(alloc, complaints, name);
        return Ok((to, ExitStatus::Misused));
    }
    let sheets = sheets_at(alloc, disk, asked)?;
    Ok(print(alloc, to, complaints, asked, &sheets)?)
}

/// Reads the files that are named, the binding before the text and that before a scenario.
///
/// # Errors
///
/// The first file that is not read.
fn sheets_at<'a, D: Disk>(
    alloc: Global,
    disk: &D,
    asked: AskedFiles<'a>,
) -> Result<Sheets, Unserved<'a>> {
    Ok(Sheets {
        binding: named_at(alloc, disk, asked.files.binding)?,
        text: bytes_at(alloc, disk, asked.files.text)?,
        scenario: named_at(alloc, disk, asked.scenario())?,
    })
}

/// Writes that no notes have a name.
fn tell_unknown_notes<E: Write>(alloc: Global, complaints: &mut E, name: &str) -> io::Result<()> {
    let mut page = Printout::new(alloc);
    add_texts(&mut page, &["error: no note ", name, ": there are all"]);
    for known in &NOTE_NAMES {
        page.text(", ");
        page.text(known);
    }
    page.text("\n");
    page.write_to(complaints)
}

/// Prints what is asked for, all at once.
fn print<W: Write + Drop, E: Write>(
    alloc: Global,
    mut to: W,
    complaints: &mut E,
    asked: AskedFiles,
    sheets: &Sheets,
) -> io::Result<(W, ExitStatus)> {
    let mut out = Vec::new(alloc);
    let mut others = Vec::new(alloc);
    let status = report(alloc, &mut out, &mut others, asked, sheets)?;
    to.write_all(&out)?;
    let _told = complaints.write_all(&others);
    Ok((to, status))
}

/// Writes what is asked for, and to `others` which tasks there are, where one is not, or which file
/// has the fault; how the program ends.
fn report(
    alloc: Global,
    out: &mut Vec<u8>,
    others: &mut Vec<u8>,
    asked: AskedFiles,
    sheets: &Sheets,
) -> io::Result<ExitStatus> {
    match asked.question {
        Question::Faults { .. } => explain(alloc, out, asked, sheets),
        Question::Notes { .. } => report_notes(alloc, out, others, asked, sheets),
        Question::Words { task, is_json } => match setup_of(alloc, sheets) {
            Ok(setup) => list(alloc, out, others, &setup, task, is_json),
            Err(stop) => report_stop(alloc, out, others, asked, sheets, &stop, is_json),
        },
        Question::Sizes => match setup_of(alloc, sheets) {
            Ok(setup) => write_sizes(alloc, out, &setup),
            Err(stop) => write_stop(alloc, out, &stop, true),
        },
    }
}

/// Writes the notes on the text, or what stands against it.
fn report_notes(
    alloc: Global,
    out: &mut Vec<u8>,
    others: &mut Vec<u8>,
    asked: AskedFiles,
    sheets: &Sheets,
) -> io::Result<ExitStatus> {
    let notes = asked.notes();
    match noted_of(alloc, sheets) {
        Ok((setup, source)) => {
            let is_denied = write_noted(alloc, out, "", &setup, &source, None, notes)?;
            Ok(status_of_notes(is_denied))
        }
        Err(stop) => report_stop(alloc, out, others, asked, sheets, &stop, notes.is_json),
    }
}

/// Writes what stands against the text, and to `others`, where it is written as a line, which file
/// has the fault.
fn report_stop(
    alloc: Global,
    out: &mut Vec<u8>,
    others: &mut Vec<u8>,
    asked: AskedFiles,
    sheets: &Sheets,
    stop: &Stop,
    is_json: bool,
) -> io::Result<ExitStatus> {
    let status = write_stop(alloc, out, stop, is_json)?;
    if !is_json {
        tell_hint(
            alloc,
            others,
            sheets.read_from(asked.files),
            FileRole::of_stop(stop),
        );
    }
    Ok(status)
}

/// The setup of the text under the binding.
///
/// # Errors
///
/// The binding's fault, else what stands against the text.
fn setup_of(alloc: Global, sheets: &Sheets) -> Result<Setup, Stop> {
    let binding = binding_of(alloc, sheets.binding.as_deref())?;
    check(alloc, &binding, &sheets.text)
}

/// The setup of the text under the binding and the source program, of both of which notes speak.
///
/// # Errors
///
/// The binding's fault, else what stands against the text.
fn noted_of(alloc: Global, sheets: &Sheets) -> Result<(Setup, Source), Stop> {
    let binding = binding_of(alloc, sheets.binding.as_deref())?;
    match load_with_source(alloc, &sheets.text, &binding) {
        Ok(loaded) => Ok(loaded),
        Err(stop) => Err(Stop::from(stop.fault)),
    }
}

/// How the program ends by whether a note is denied.
fn status_of_notes(is_denied: bool) -> ExitStatus {
    if is_denied {
        ExitStatus::Refused
    } else {
        ExitStatus::Accepted
    }
}

/// Writes the words of one task, or of all and what they ask of the buses; or that the task is not
/// there, and to `others` which there are.
fn list(
    alloc: Global,
    out: &mut Vec<u8>,
    others: &mut Vec<u8>,
    setup: &Setup,
    task: Option<&str>,
    is_json: bool,
) -> io::Result<ExitStatus> {
    let one = match task {
        Some(name) => task_of(setup, name),
        None => None,
    };
    if task.is_some() && one.is_none() {
        let unknown = UnknownTask::of(alloc, setup.plan(), task)?;
        writeln!(others, "{unknown}")?;
        return write_stop(alloc, out, &Stop::NoTask(unknown), is_json);
    }
    if is_json {
        write_words(alloc, out, setup, one)?;
    } else {
        list_words(alloc, out, setup, one)?;
    }
    Ok(ExitStatus::Accepted)
}

/// Writes the words of one task, or of all and what they ask of the buses.
fn list_words(
    alloc: Global,
    out: &mut Vec<u8>,
    setup: &Setup,
    one: Option<usize>,
) -> io::Result<()> {
    for number in 0..setup.plan().tasks() {
        if is_listed(one, number) {
            write_task(alloc, out, setup, number)?;
        }
    }
    if one.is_some() {
        return Ok(());
    }
    write_load(alloc, out, setup)
}

/// Whether the task of a number is listed, where one is asked for, or all are.
pub(crate) fn is_listed(one: Option<usize>, number: usize) -> bool {
    match one {
        Some(one) => one == number,
        None => true,
    }
}

/// The number of the task of a name, in any letter case.
fn task_of(setup: &Setup, name: &str) -> Option<usize> {
    for number in 0..setup.plan().tasks() {
        if setup.plan().task_name(number).eq_ignore_ascii_case(name) {
            return Some(number);
        }
    }
    None
}

/// What is written before the notes where nothing stands against the files.
const NOTHING_AGAINST: &str = "nothing stands against it\n";

/// Explains the first thing that stands against the files, or says that there is none and writes
/// notes.
fn explain(
    alloc: Global,
    out: &mut Vec<u8>,
    asked: AskedFiles,
    sheets: &Sheets,
) -> io::Result<ExitStatus> {
    let mut explanation = Vec::new(alloc);
    let notes = asked.notes();
    match explain_files(alloc, &mut explanation, asked, sheets)? {
        Explained::Refused(status) => {
            write_explanation(alloc, out, &explanation, notes.is_json)?;
            Ok(status)
        }
        Explained::Accepted(accepted) => {
            let AcceptedText { setup, source, .. } = &accepted;
            let played = played_of(sheets, &accepted.scenario);
            write_noted(alloc, out, NOTHING_AGAINST, setup, source, played, notes)?;
            Ok(ExitStatus::Accepted)
        }
    }
}

/// The scenario with its bytes, where there is one.
fn played_of<'a>(sheets: &'a Sheets, scenario: &'a Option<Scenario>) -> Option<Played<'a>> {
    match (&sheets.scenario, scenario) {
        (Some(bytes), Some(scenario)) => Some(Played {
            bytes: bytes.as_slice(),
            scenario,
        }),
        _ => None,
    }
}

/// What is written of a text and a scenario against which nothing stands.
#[derive(Drop)]
struct AcceptedText {
    setup: Setup,
    source: Source,
    scenario: Option<Scenario>,
}

/// Whether something stands against the files.
#[derive(Drop)]
enum Explained {
    /// Something does, which was explained; the program ends so.
    Refused(ExitStatus),
    /// Nothing does.
    Accepted(AcceptedText),
}

/// Explains the first thing that stands against the files, where there is one.
fn explain_files(
    alloc: Global,
    out: &mut Vec<u8>,
    asked: AskedFiles,
    sheets: &Sheets,
) -> io::Result<Explained> {
    let (Some(bytes), Some(path)) = (&sheets.binding, asked.files.binding) else {
        let binding = Binding::one_bus(alloc);
        return explained_text(alloc, out, asked, sheets, &binding, false);
    };
    match Binding::parse(alloc, bytes) {
        Ok(binding) => explained_text(alloc, out, asked, sheets, &binding, true),
        Err(fault) => {
            explain_binding(alloc, out, path, bytes, &fault)?;
            Ok(Explained::Refused(ExitStatus::of_stop(&Stop::from(fault))))
        }
    }
}

/// Explains what stands against the text and the scenario.
fn explained_text(
    alloc: Global,
    out: &mut Vec<u8>,
    asked: AskedFiles,
    sheets: &Sheets,
    binding: &Binding,
    is_bound: bool,
) -> io::Result<Explained> {
    match load_with_source(alloc, &sheets.text, binding) {
        Ok((setup, source)) => explained_scenario(alloc, out, asked, sheets, setup, source),
        Err(stop) => {
            if let Some(hint) = misplaced_text(alloc, sheets.read_from(asked.files)) {
                hint.page(alloc).write_to(out)?;
                return Ok(Explained::Refused(ExitStatus::Refused));
            }
            let text = AskedText {
                path: asked.files.text,
                text: &sheets.text,
                binding,
                is_bound,
            };
            explanation_of(alloc, &text, &stop)?.write_to(alloc, out, text.text)?;
            let status = ExitStatus::of_stop(&Stop::from(stop.fault));
            Ok(Explained::Refused(status))
        }
    }
}

/// Explains what stands against the scenario of an accepted text, where there is one.
fn explained_scenario(
    alloc: Global,
    out: &mut Vec<u8>,
    asked: AskedFiles,
    sheets: &Sheets,
    setup: Setup,
    source: Source,
) -> io::Result<Explained> {
    match scenario_in(alloc, out, asked, sheets)? {
        Ok(scenario) => Ok(Explained::Accepted(AcceptedText {
            setup,
            source,
            scenario,
        })),
        Err(status) => Ok(Explained::Refused(status)),
    }
}

/// The scenario, where there is one; or how the program ends, where something stands against it,
/// which is explained.
fn scenario_in(
    alloc: Global,
    out: &mut Vec<u8>,
    asked: AskedFiles,
    sheets: &Sheets,
) -> io::Result<Result<Option<Scenario>, ExitStatus>> {
    let (Some(bytes), Some(path)) = (&sheets.scenario, asked.scenario()) else {
        return Ok(Ok(None));
    };
    match simbus::parse(alloc, bytes) {
        Ok(scenario) => Ok(Ok(Some(scenario))),
        Err(fault) => {
            explain_scenario(alloc, out, path, bytes, &fault)?;
            Ok(Err(PlayStop::from(fault).status()))
        }
    }
}
