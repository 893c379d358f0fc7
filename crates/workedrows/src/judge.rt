//! Reading rows line by line, running their commands, and comparing.

use crate::body::{Body, bytes_of_hex, hex_of_bytes};
use crate::command_line::CommandLine;
use crate::difference::{RowDifference, RowsStop};
use crate::lines::{each_line_is_part, each_line_stands, text_of, without_digits};
use crate::machine::{Machine, Output, StoredFile, Terminal, bytes_at, place_among};
use std::alloc::{AllocError, Global};
use std::cell::RefCell;
use std::{io, mem};

/// The line in place of what is not shown.
const MORE: &[u8] = b"..\n";

/// What the lines that come are the body of.
#[derive(Clone, Copy)]
enum Part {
    /// Of nothing: a comment.
    Comment,
    /// A file.
    File,
    /// A file with the text of one program, by its declarations and instructions.
    Text,
    /// A file, as hex digits.
    Hex,
    /// All that a command prints.
    Printed,
    /// Some of the lines that a command prints.
    PrintedLines,
    /// All that a command prints on standard error.
    Complained,
    /// What stands somewhere on standard error.
    ComplainedParts,
    /// A file that was written, as hex digits.
    Written,
    /// All that a terminal shows of a command.
    Shown,
    /// The same, but for the digits.
    ShownLike,
    /// The first lines of it, and a last line `..`.
    ShownFirst,
}

/// How a command ended.
#[derive(Drop)]
struct Outcome {
    status: u8,
    output: Output,
}

/// What is known of the row that is read.
pub struct Judge {
    alloc: Global,
    rows: u32,
    /// The row's name.
    row: String,
    files: RefCell<Vec<StoredFile>>,
    terminal: Terminal,
    /// How its last command ended, where one ran.
    outcome: Option<Outcome>,
    part: Part,
    /// The line that began the part.
    heading: String,
    body: Body,
}

/// Written out, so that it is proved here alone.
impl Drop for Judge {
    fn drop(self) {
        let Self {
            alloc: _,
            rows: _,
            row: _,
            files: _,
            terminal: _,
            outcome: _,
            part: _,
            heading: _,
            body: _,
        } = self;
    }
}

impl Judge {
    /// A judge who has read nothing.
    pub fn new(alloc: Global) -> Self {
        Judge {
            alloc,
            rows: 0,
            row: String::new(alloc),
            files: RefCell::new(Vec::new(alloc)),
            terminal: Terminal::WHOLE,
            outcome: None,
            part: Part::Comment,
            heading: String::new(alloc),
            body: Body::new(alloc),
        }
    }

    /// How many rows were read.
    pub fn rows(&self) -> u32 {
        self.rows
    }

    /// Takes the next line, and answers the command line that it has run, if it is such a line.
    ///
    /// # Errors
    ///
    /// The row does not hold, or the line is none of a row.
    pub fn take_line(&mut self, line: &str) -> Result<Option<CommandLine>, RowsStop> {
        if let Some(name) = line.strip_prefix("== ") {
            self.begin_row(name)?;
            return Ok(None);
        }
        if self.rows == 0 {
            return Ok(None);
        }
        match line.strip_prefix("-- ") {
            Some(heading) => self.take_heading(heading),
            None => {
                self.take_body_line(line)?;
                Ok(None)
            }
        }
    }

    /// A machine with this command line and the row's files.
    pub fn machine<'a>(&'a self, line: &'a CommandLine) -> Machine<'a> {
        Machine::new(self.alloc, line.words(), &self.files, self.terminal)
    }

    /// The allocator.
    pub fn alloc(&self) -> Global {
        self.alloc
    }

    /// Copies of the row's files.
    ///
    /// # Errors
    ///
    /// Memory was refused.
    pub fn copied_files(&self) -> Result<Vec<StoredFile>, AllocError> {
        match self.files.try_borrow() {
            Ok(files) => copies(self.alloc, &files),
            Err(_) => Ok(Vec::new(self.alloc)),
        }
    }

    /// Has these be the row's files from now on.
    pub fn replace_files(&mut self, files: Vec<StoredFile>) {
        self.files = RefCell::new(files);
    }

    /// Notes how the command line ended: with this exit status, when this was printed.
    pub fn note_end(&mut self, status: u8, output: Output) {
        self.outcome = Some(Outcome { status, output });
    }

    /// Begins a row of this name.
    ///
    /// # Errors
    ///
    /// The row before it does not hold.
    pub fn begin_row(&mut self, name: &str) -> Result<(), RowsStop> {
        self.end_part()?;
        self.rows = self.rows.saturating_add(1);
        self.row = String::from_str(self.alloc, name)?;
        self.files = RefCell::new(Vec::new(self.alloc));
        self.terminal = Terminal::WHOLE;
        self.outcome = None;
        Ok(())
    }

    /// Goes on with the row's files under another name, which counts as a row more.
    ///
    /// # Errors
    ///
    /// What was shown under the name before is otherwise.
    pub fn continue_row(&mut self, name: &str) -> Result<(), RowsStop> {
        self.end_part()?;
        self.rows = self.rows.saturating_add(1);
        self.row = String::from_str(self.alloc, name)?;
        Ok(())
    }

    /// The bytes of the row's file at a path, where there is one.
    ///
    /// # Errors
    ///
    /// Memory was refused.
    pub fn file(&self, path: &str) -> Result<Option<Vec<u8>>, AllocError> {
        bytes_at(self.alloc, &self.files, path)
    }

    /// What the last command printed, where one ran.
    pub fn last_output(&self) -> Option<&[u8]> {
        match &self.outcome {
            Some(outcome) => Some(&outcome.output.printed),
            None => None,
        }
    }

    /// Takes a line that is not one of a body alone.
    fn take_heading(&mut self, heading: &str) -> Result<Option<CommandLine>, RowsStop> {
        let (kind, rest) = first_word(heading);
        if kind == "times" {
            self.take_times(heading, rest)?;
            return Ok(None);
        }
        self.end_part()?;
        self.keep_heading(heading)?;
        if kind == "run" {
            return Ok(Some(CommandLine::of(self.alloc, rest)?));
        }
        self.begin_part(kind, rest)?;
        Ok(None)
    }

    /// Keeps the line that begins a part.
    fn keep_heading(&mut self, heading: &str) -> Result<(), AllocError> {
        self.heading = String::from_str(self.alloc, heading)?;
        Ok(())
    }

    /// Does what a heading asks, or begins the part that it heads.
    fn begin_part(&mut self, kind: &str, rest: &str) -> Result<(), RowsStop> {
        match kind {
            "status" => self.compare_status(rest),
            "terminal" => self.break_outputs(rest),
            _ => match part_of(kind, rest) {
                Some(part) => {
                    self.part = part;
                    Ok(())
                }
                None => Err(self.difference(RowDifference::Line)),
            },
        }
    }

    /// Takes a line that repeats another one.
    fn take_times(&mut self, heading: &str, rest: &str) -> Result<(), RowsStop> {
        match repeated(rest) {
            Some((many, pattern)) => Ok(self.body.add_times(many, pattern)?),
            None => {
                self.keep_heading(heading)?;
                Err(self.difference(RowDifference::Line))
            }
        }
    }

    /// Takes a line of the part's body.
    fn take_body_line(&mut self, line: &str) -> Result<(), AllocError> {
        let is_first_of_text = matches!(self.part, Part::Text) && self.body.is_empty();
        if !is_first_of_text {
            return self.body.add_line(line);
        }
        self.body.add_line("PROGRAM p")?;
        self.body.add_line(if line == "-" { "" } else { line })
    }

    /// Ends a part: keeps its file, or compares what was printed with it.
    pub fn end_part(&mut self) -> Result<(), RowsStop> {
        let part = mem::replace(&mut self.part, Part::Comment);
        let bytes = mem::replace(&mut self.body, Body::new(self.alloc)).into_bytes();
        match part {
            Part::Comment => Ok(()),
            Part::File => self.keep_file(bytes),
            Part::Text => self.keep_text(bytes),
            Part::Hex => self.keep_hex(&bytes),
            Part::Printed => self.compare_printed(&bytes),
            Part::PrintedLines => self.find_printed(&bytes),
            Part::Complained => self.compare_complained(&bytes),
            Part::ComplainedParts => self.find_complained(&bytes),
            Part::Written => self.compare_written(&bytes),
            Part::Shown => self.compare_shown(&bytes),
            Part::ShownLike => self.compare_shown_like(&bytes),
            Part::ShownFirst => self.compare_shown_first(&bytes),
        }
    }

    /// Keeps a file, under the name in the part's heading, in place of one of the same name.
    fn keep_file(&mut self, bytes: Vec<u8>) -> Result<(), RowsStop> {
        let path = String::from_str(self.alloc, self.path())?;
        place_among(self.files.get_mut(), StoredFile { path, bytes })?;
        Ok(())
    }

    /// The path in the part's heading.
    fn path(&self) -> &str {
        let (_, path) = first_word(&self.heading);
        path
    }

    /// Keeps a file with the text of one program.
    fn keep_text(&mut self, mut bytes: Vec<u8>) -> Result<(), RowsStop> {
        bytes.extend_from_slice(b"END_PROGRAM\n")?;
        self.keep_file(bytes)
    }

    /// Keeps a file whose bytes are given as hex digits.
    fn keep_hex(&mut self, digits: &[u8]) -> Result<(), RowsStop> {
        match bytes_of_hex(self.alloc, digits)? {
            Some(bytes) => self.keep_file(bytes),
            None => Err(self.difference(RowDifference::Line)),
        }
    }

    /// Has the outputs of the commands that come fail.
    fn break_outputs(&mut self, words: &str) -> Result<(), RowsStop> {
        self.terminal = Terminal::WHOLE;
        for word in words.split(' ') {
            match word {
                "whole" => {}
                "stdout-full" => self.terminal.output_fails = Some(io::ErrorKind::StorageFull),
                "stdout-starved" => self.terminal.output_fails = Some(io::ErrorKind::OutOfMemory),
                "stderr-full" => self.terminal.error_fails = Some(io::ErrorKind::StorageFull),
                "stderr-starved" => self.terminal.error_fails = Some(io::ErrorKind::OutOfMemory),
                _ => return Err(self.difference(RowDifference::Line)),
            }
        }
        Ok(())
    }

    /// How the last command ended.
    fn outcome(&self) -> Result<&Outcome, RowsStop> {
        match &self.outcome {
            Some(outcome) => Ok(outcome),
            None => Err(self.difference(RowDifference::Line)),
        }
    }

    /// Compares the exit status.
    fn compare_status(&self, wanted: &str) -> Result<(), RowsStop> {
        let found = self.outcome()?.status;
        match wanted.parse::<u8>() {
            Ok(status) if status == found => Ok(()),
            Ok(_) => Err(self.difference(RowDifference::Status(found))),
            Err(_) => Err(self.difference(RowDifference::Line)),
        }
    }

    /// Compares all that was printed.
    fn compare_printed(&self, wanted: &[u8]) -> Result<(), RowsStop> {
        let found = &self.outcome()?.output.printed;
        self.judge_printed(found, found.as_slice() == wanted)
    }

    /// Compares all that a terminal shows: what was printed on standard error, and on standard
    /// output.
    fn compare_shown(&self, wanted: &[u8]) -> Result<(), RowsStop> {
        let found = self.shown()?;
        self.judge_printed(&found, found.as_slice() == wanted)
    }

    /// The same, but for the digits.
    fn compare_shown_like(&self, wanted: &[u8]) -> Result<(), RowsStop> {
        let found = self.shown()?;
        let is_like = without_digits(self.alloc, &found)? == without_digits(self.alloc, wanted)?;
        self.judge_printed(&found, is_like)
    }

    /// Looks whether it begins with these lines, up to the line `..`.
    fn compare_shown_first(&self, wanted: &[u8]) -> Result<(), RowsStop> {
        let found = self.shown()?;
        let first = wanted.strip_suffix(MORE).unwrap_or(wanted);
        self.judge_printed(&found, found.starts_with(first))
    }

    /// What a terminal shows of the last command.
    fn shown(&self) -> Result<Vec<u8>, RowsStop> {
        let output = &self.outcome()?.output;
        let mut shown = Vec::from_slice(self.alloc, &output.printed)?;
        shown.extend_from_slice(&output.complained)?;
        Ok(shown)
    }

    /// Looks for each of these lines among those that were printed.
    fn find_printed(&self, wanted: &[u8]) -> Result<(), RowsStop> {
        let found = &self.outcome()?.output.printed;
        self.judge_printed(found, each_line_stands(wanted, found))
    }

    /// Refuses what was printed, unless it is as wanted.
    fn judge_printed(&self, found: &[u8], is_wanted: bool) -> Result<(), RowsStop> {
        if is_wanted {
            return Ok(());
        }
        let shown = String::from_str(self.alloc, text_of(found))?;
        Err(self.difference(RowDifference::Printed(shown)))
    }

    /// Compares all that was printed on standard error.
    fn compare_complained(&self, wanted: &[u8]) -> Result<(), RowsStop> {
        let found = &self.outcome()?.output.complained;
        self.judge_complained(found, found.as_slice() == wanted)
    }

    /// Looks for each of these lines in what was printed on standard error.
    fn find_complained(&self, wanted: &[u8]) -> Result<(), RowsStop> {
        let found = &self.outcome()?.output.complained;
        self.judge_complained(found, each_line_is_part(wanted, text_of(found)))
    }

    /// Refuses what was printed on standard error, unless it is as wanted.
    fn judge_complained(&self, found: &[u8], is_wanted: bool) -> Result<(), RowsStop> {
        if is_wanted {
            return Ok(());
        }
        let shown = String::from_str(self.alloc, text_of(found))?;
        Err(self.difference(RowDifference::Complained(shown)))
    }

    /// Compares a file with bytes that are given as hex digits.
    fn compare_written(&self, digits: &[u8]) -> Result<(), RowsStop> {
        match bytes_of_hex(self.alloc, digits)? {
            Some(wanted) => self.compare_bytes(&wanted),
            None => Err(self.difference(RowDifference::Line)),
        }
    }

    /// Compares a file with bytes.
    fn compare_bytes(&self, wanted: &[u8]) -> Result<(), RowsStop> {
        let shown = match bytes_at(self.alloc, &self.files, self.path())? {
            Some(found) if found.as_slice() == wanted => return Ok(()),
            Some(found) => hex_of_bytes(self.alloc, &found)?,
            None => String::from_str(self.alloc, "no file")?,
        };
        Err(self.difference(RowDifference::Wrote(shown)))
    }

    /// That this row does not hold, or that there is no memory to say so.
    pub fn difference(&self, why: RowDifference) -> RowsStop {
        match self.row_stop(why) {
            Ok(stop) => stop,
            Err(_) => RowsStop::Memory,
        }
    }

    /// That this row does not hold.
    fn row_stop(&self, why: RowDifference) -> Result<RowsStop, AllocError> {
        Ok(RowsStop::Row {
            row: self.row.clone()?,
            line: self.heading.clone()?,
            why,
        })
    }
}

/// Copies of these files.
fn copies(alloc: Global, files: &[StoredFile]) -> Result<Vec<StoredFile>, AllocError> {
    let mut copies = Vec::new(alloc);
    for file in files {
        copies.push(StoredFile {
            path: file.path.clone()?,
            bytes: Vec::from_slice(alloc, &file.bytes)?,
        })?;
    }
    Ok(copies)
}

/// The first word of a line, and what stands behind the blank after it.
fn first_word(line: &str) -> (&str, &str) {
    match line.split_once(' ') {
        Some(parts) => parts,
        None => (line, ""),
    }
}

/// What the lines below a heading are the body of, where it heads any.
fn part_of(kind: &str, rest: &str) -> Option<Part> {
    Some(match (kind, rest) {
        ("file", _) => Part::File,
        ("text", _) => Part::Text,
        ("hex", _) => Part::Hex,
        ("out", _) => Part::Written,
        ("shown", "") => Part::Shown,
        ("shown", "like") => Part::ShownLike,
        ("shown", "first") => Part::ShownFirst,
        ("stdout", "") => Part::Printed,
        ("stdout", "has") => Part::PrintedLines,
        ("stderr", "") => Part::Complained,
        ("stderr", "has") => Part::ComplainedParts,
        _ => return None,
    })
}

/// How many lines of which pattern are asked for.
fn repeated(words: &str) -> Option<(u32, &str)> {
    let (many, pattern) = words.split_once(' ')?;
    Some((many.parse::<u32>().ok()?, pattern))
}
