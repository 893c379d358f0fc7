//! What standard error says behind a fault: which file it is in, and how to have it explained.

use crate::texts::add_texts;
use commandoptions::{Files, LiveFiles, PlayFiles};
use exitstatus::PlayStop;
use iltext::parse;
use printout::Printout;
use simbus::ScenarioFault;
use std::alloc::Global;
use std::io::Write;
use textanswers::Stop;
use wordlines::Binding;

/// What a file can be.
#[derive(Clone, Copy)]
pub enum FileRole {
    Text,
    Binding,
    Scenario,
}

impl FileRole {
    /// That of the file which this is a fault of, where it is one of a file.
    pub fn of_stop(stop: &Stop) -> Option<FileRole> {
        match stop {
            Stop::Binding(_) => Some(FileRole::Binding),
            Stop::Load(_) => Some(FileRole::Text),
            Stop::Memory | Stop::NoTask(_) => None,
        }
    }

    /// That of the file which this is a fault of, where it is one of a file.
    pub fn of_play_stop(stop: &PlayStop) -> Option<FileRole> {
        match stop {
            PlayStop::Text(stop) => FileRole::of_stop(stop),
            PlayStop::Scenario(ScenarioFault::At { .. }) => Some(FileRole::Scenario),
            PlayStop::Scenario(ScenarioFault::Memory) | PlayStop::Start(_) => None,
        }
    }

    /// What it is, as it is printed.
    fn words(self) -> &'static str {
        match self {
            FileRole::Text => "a text",
            FileRole::Binding => "a binding",
            FileRole::Scenario => "a scenario",
        }
    }
}

/// A file that was read: its path, and what it held.
#[derive(Clone, Copy)]
pub struct ReadFile<'a> {
    pub path: &'a str,
    pub bytes: &'a [u8],
}

/// The files that a command has read, each where it is named.
#[derive(Clone, Copy)]
pub struct ReadFiles<'a> {
    pub text: Option<ReadFile<'a>>,
    pub binding: Option<ReadFile<'a>>,
    pub scenario: Option<ReadFile<'a>>,
}

impl<'a> ReadFiles<'a> {
    /// A text, and a binding where there is one.
    fn of_text(files: Files<'a>, binding: Option<&'a [u8]>, text: &'a [u8]) -> ReadFiles<'a> {
        ReadFiles {
            text: Some(ReadFile {
                path: files.text,
                bytes: text,
            }),
            binding: match (files.binding, binding) {
                (Some(path), Some(bytes)) => Some(ReadFile { path, bytes }),
                _ => None,
            },
            scenario: None,
        }
    }

    /// The same, of files as they were read.
    pub fn of_files(
        files: Files<'a>,
        binding: &'a Option<Vec<u8>>,
        text: &'a Vec<u8>,
    ) -> ReadFiles<'a> {
        ReadFiles::of_text(files, binding.as_deref(), text)
    }

    /// A text and a binding of a building.
    pub fn of_building(files: LiveFiles<'a>, binding: &'a [u8], text: &'a [u8]) -> ReadFiles<'a> {
        let files = Files {
            text: files.text,
            binding: Some(files.binding),
        };
        ReadFiles::of_text(files, Some(binding), text)
    }

    /// A text, a binding and a scenario.
    pub fn of_play(
        files: PlayFiles<'a>,
        binding: &'a [u8],
        text: &'a [u8],
        scenario: &'a [u8],
    ) -> ReadFiles<'a> {
        let judged = Files {
            text: files.text,
            binding: Some(files.binding),
        };
        ReadFiles {
            scenario: Some(ReadFile {
                path: files.scenario,
                bytes: scenario,
            }),
            ..ReadFiles::of_text(judged, Some(binding), text)
        }
    }

    /// A binding alone.
    pub fn of_binding(path: &'a str, bytes: &'a [u8]) -> ReadFiles<'a> {
        ReadFiles {
            text: None,
            binding: Some(ReadFile { path, bytes }),
            scenario: None,
        }
    }

    /// The file in the place of one of this kind.
    fn at(self, place: FileRole) -> Option<ReadFile<'a>> {
        match place {
            FileRole::Text => self.text,
            FileRole::Binding => self.binding,
            FileRole::Scenario => self.scenario,
        }
    }

    /// Whether a file cannot be read once more, as standard input.
    fn has_passing(self) -> bool {
        is_passing(self.text) || is_passing(self.binding) || is_passing(self.scenario)
    }

    /// Whether a path stands at two places.
    fn has_twice(self, path: &str) -> bool {
        let is_text = is_at(self.text, path);
        let is_binding = is_at(self.binding, path);
        let is_scenario = is_at(self.scenario, path);
        is_text && is_binding || is_scenario && (is_text || is_binding)
    }
}

/// Whether a file cannot be read once more, as standard input.
fn is_passing(file: Option<ReadFile>) -> bool {
    match file {
        Some(file) => file.path == "-" || file.path.starts_with("/dev/"),
        None => false,
    }
}

/// Whether a file has this path.
fn is_at(file: Option<ReadFile>, path: &str) -> bool {
    match file {
        Some(file) => file.path == path,
        None => false,
    }
}

/// What a file is that has a fault in this place, where it is one of another kind without a fault.
/// Comments alone are a scenario too, and nobody means one.
fn other_kind(alloc: Global, place: FileRole, bytes: &[u8]) -> Option<FileRole> {
    if !matches!(place, FileRole::Binding) && Binding::parse(alloc, bytes).is_ok() {
        return Some(FileRole::Binding);
    }
    if !has_words(bytes) {
        return None;
    }
    if !matches!(place, FileRole::Scenario) && simbus::parse(alloc, bytes).is_ok() {
        return Some(FileRole::Scenario);
    }
    if !matches!(place, FileRole::Text) && parse(alloc, bytes).is_ok() {
        return Some(FileRole::Text);
    }
    None
}

/// Whether a line has more than a comment.
fn has_words(bytes: &[u8]) -> bool {
    for line in bytes.split(|byte| *byte == b'\n') {
        if !matches!(line.trim_ascii(), [] | [b'#', ..]) {
            return true;
        }
    }
    false
}

/// The file with the first fault.
#[derive(Clone, Copy)]
pub struct Hint<'a> {
    files: ReadFiles<'a>,
    /// What stands at its place in the command.
    place: FileRole,
    path: &'a str,
    /// What it is, where it is a file of another kind without a fault.
    other: Option<FileRole>,
}

/// What is said of the file with the first fault, which is in this place; nothing where a file
/// cannot be read once more.
pub fn hint_of<'a>(alloc: Global, files: ReadFiles<'a>, place: FileRole) -> Option<Hint<'a>> {
    if files.has_passing() {
        return None;
    }
    let file = files.at(place)?;
    Some(Hint {
        files,
        place,
        path: file.path,
        other: other_kind(alloc, place, file.bytes),
    })
}

/// Writes what is said of the file with the first fault, where it is one of a file. That it cannot
/// be written changes nothing.
pub fn tell_hint<E: Write>(
    alloc: Global,
    complaints: &mut E,
    files: ReadFiles,
    place: Option<FileRole>,
) {
    let Some(place) = place else {
        return;
    };
    if let Some(hint) = hint_of(alloc, files, place) {
        let _told = hint.page(alloc).write_to(complaints);
    }
}

/// That a file of another kind stands in the place of the text, where one does.
pub fn misplaced_text<'a>(alloc: Global, files: ReadFiles<'a>) -> Option<Hint<'a>> {
    let file = files.text?;
    let other = other_kind(alloc, FileRole::Text, file.bytes)?;
    Some(Hint {
        files,
        place: FileRole::Text,
        path: file.path,
        other: Some(other),
    })
}

impl Hint<'_> {
    /// The line that is printed.
    pub fn page(&self, alloc: Global) -> Printout {
        let mut page = Printout::new(alloc);
        match self.other {
            Some(kind) => self.say_misplaced(&mut page, kind),
            None => self.say_fault(&mut page),
        }
        page.text("\n");
        page
    }

    /// Adds that the file is one of another kind.
    fn say_misplaced(&self, page: &mut Printout, kind: FileRole) {
        page.text(self.path);
        page.text(" is ");
        page.text(kind.words());
        page.text(", where ");
        page.text(self.place.words());
        page.text(" is asked for");
        if self.files.has_twice(self.path) {
            page.text(": it stands twice");
        } else if self.files.text.is_some() && self.files.binding.is_some() {
            page.text(": exchange the files");
        }
    }

    /// Adds how to have the fault explained.
    fn say_fault(&self, page: &mut Printout) {
        add_texts(page, &["the fault is in ", self.path, ": dalictl explain"]);
        add_typed(page, path_or(self.files.text, "TEXT"));
        if let Some(binding) = self.files.binding {
            add_typed(page, binding.path);
        }
        if matches!(self.place, FileRole::Scenario) {
            add_typed(page, self.path);
        }
    }
}

/// The path of a file, or what stands for it.
fn path_or<'a>(file: Option<ReadFile<'a>>, other: &'a str) -> &'a str {
    match file {
        Some(file) => file.path,
        None => other,
    }
}

/// Adds a blank and a path as it is typed in a shell, where a word that begins with a minus is an
/// option.
fn add_typed(page: &mut Printout, path: &str) {
    page.text(if path.starts_with('-') { " ./" } else { " " });
    if path.chars().all(is_plain) {
        page.text(path);
    } else {
        add_quoted(page, path);
    }
}

/// Adds a path between apostrophes.
fn add_quoted(page: &mut Printout, path: &str) {
    page.text("'");
    for letter in path.chars() {
        page.text(if letter == '\'' { "'\\'" } else { "" });
        page.letter(letter);
    }
    page.text("'");
}

/// Whether a shell reads a letter as it is.
fn is_plain(letter: char) -> bool {
    letter.is_ascii_alphanumeric() || "/._-+,=:".contains(letter)
}
