//! Pages of documents: the files that their blocks are, and the commands that they show.

use crate::body::Body;
use crate::table::{ChangedLine, LineTable, named};
use std::alloc::{AllocError, Global};
use std::mem;

/// What a page has, from its top to its end.
#[derive(Drop)]
pub enum PageStep {
    /// A block that is a file of this name.
    File { name: String, bytes: Vec<u8> },
    /// The commands below are typed in this folder, as seen from the one before.
    Folder(String),
    /// A command line without the program's name, and what the page shows below it.
    Run(ShownRun),
    /// A text with another line in it, and what `check` prints of it.
    Changed(ChangedLine),
    /// A picture, by its path as seen from the page's folder.
    Picture { line: u32, path: String },
}

/// A command line that a page shows.
#[derive(Drop)]
pub struct ShownRun {
    /// The number of its line.
    pub line: u32,
    /// Its words, with one blank between two.
    pub words: String,
    /// What stands below it, with its last line `..` where it is not all.
    pub shown: Vec<u8>,
    /// Whether what it prints goes to a file.
    pub is_kept: bool,
    pub fit: Fit,
}

/// How what a page shows has to fit what a terminal shows.
#[derive(Clone, Copy)]
pub enum Fit {
    /// It is all of it.
    Whole,
    /// It is all of it, but for the digits.
    Like,
    /// It is its first lines.
    First,
}

/// What the page's lines belong to.
#[derive(Clone, Copy)]
enum Part {
    /// Sentences and tables.
    Prose,
    /// A block between fences, which is a drawing.
    Drawing,
    /// A block that is a file, or the lines of no command.
    Block,
    /// A block that shows commands.
    Session,
}

/// How what a page shows ends where it is not all.
const MORE: &[u8] = b"\n..\n";

/// What is known of a page whose lines are read.
pub struct PageReader {
    alloc: Global,
    /// The number of the last line.
    number: u32,
    part: Part,
    /// Whether the last line was empty.
    is_after_blank: bool,
    /// The sentences before the block, up to an empty line.
    paragraph: String,
    /// The table that is read, where its rows are texts.
    table: Option<LineTable>,
    /// The file that the block is, where it is one.
    name: Option<String>,
    /// The command that the session shows, and the number of its line.
    command: String,
    command_line: u32,
    body: Body,
    steps: Vec<PageStep>,
}

/// Written out, so that it is proved here alone.
impl Drop for PageReader {
    fn drop(self) {
        let Self {
            alloc: _,
            number: _,
            part: _,
            is_after_blank: _,
            paragraph: _,
            table: _,
            name: _,
            command: _,
            command_line: _,
            body: _,
            steps: _,
        } = self;
    }
}

/// The steps of a page.
///
/// # Errors
///
/// Memory was refused.
pub fn page_steps(alloc: Global, page: &str) -> Result<Vec<PageStep>, AllocError> {
    let mut reader = PageReader::new(alloc);
    for line in page.split('\n') {
        reader.take_line(line)?;
    }
    reader.end_block()?;
    Ok(mem::replace(&mut reader.steps, Vec::new(alloc)))
}

impl PageReader {
    fn new(alloc: Global) -> PageReader {
        PageReader {
            alloc,
            number: 0,
            part: Part::Prose,
            is_after_blank: true,
            paragraph: String::new(alloc),
            table: None,
            name: None,
            command: String::new(alloc),
            command_line: 0,
            body: Body::new(alloc),
            steps: Vec::new(alloc),
        }
    }

    fn take_line(&mut self, line: &str) -> Result<(), AllocError> {
        self.number = self.number.saturating_add(1);
        if line.starts_with("```") {
            return self.take_fence();
        }
        match self.part {
            Part::Drawing => Ok(()),
            _ if line.is_empty() => self.take_blank(),
            _ => match line.strip_prefix("    ") {
                Some(code) if self.is_in_block() => self.take_code(code),
                _ => self.take_prose(line),
            },
        }
    }

    /// Whether an indented line is one of a block.
    fn is_in_block(&self) -> bool {
        self.is_after_blank || matches!(self.part, Part::Block | Part::Session)
    }

    /// Begins or ends a drawing.
    fn take_fence(&mut self) -> Result<(), AllocError> {
        self.end_block()?;
        self.part = match self.part {
            Part::Drawing => Part::Prose,
            _ => Part::Drawing,
        };
        Ok(())
    }

    fn take_blank(&mut self) -> Result<(), AllocError> {
        self.is_after_blank = true;
        self.body.add_line("")
    }

    /// Takes a line of sentences, or of a table.
    fn take_prose(&mut self, line: &str) -> Result<(), AllocError> {
        self.end_block()?;
        if line.starts_with("| ") {
            return self.take_row(line);
        }
        if self.is_after_blank {
            self.paragraph = String::new(self.alloc);
            self.table = None;
        }
        self.is_after_blank = false;
        self.paragraph.push_str(line)?;
        self.paragraph.push(' ')?;
        match picture_of(line) {
            Some(path) => {
                let path = String::from_str(self.alloc, path)?;
                self.steps.push(PageStep::Picture {
                    line: self.number,
                    path,
                })?;
                Ok(())
            }
            None => Ok(()),
        }
    }

    /// Takes a line of a table: its heading, or a row.
    fn take_row(&mut self, line: &str) -> Result<(), AllocError> {
        if self.is_after_blank {
            self.is_after_blank = false;
            self.table = LineTable::of(self.alloc, self.paragraph.as_str(), line)?;
            return Ok(());
        }
        let changed = match &self.table {
            Some(table) => table.row(self.alloc, self.number, line)?,
            None => None,
        };
        if let Some(changed) = changed {
            self.steps.push(PageStep::Changed(changed))?;
        }
        Ok(())
    }

    /// Takes a line of a block, without its indentation.
    fn take_code(&mut self, code: &str) -> Result<(), AllocError> {
        self.is_after_blank = false;
        if matches!(self.part, Part::Prose) {
            self.begin_block(code)?;
        }
        match (self.part, code.strip_prefix("$ ")) {
            (Part::Session, Some(command)) => self.begin_command(command),
            (Part::Session, None) => self.take_shown(code),
            _ => self.body.add_line(code),
        }
    }

    /// Begins a block by its first line.
    fn begin_block(&mut self, code: &str) -> Result<(), AllocError> {
        self.body = Body::new(self.alloc);
        self.name = None;
        if code.starts_with("$ ") {
            self.part = Part::Session;
            return Ok(());
        }
        self.part = Part::Block;
        if let Some(name) = named(self.paragraph.as_str(), &[".il", ".bind", ".scenario"]) {
            self.name = Some(String::from_str(self.alloc, name)?);
        }
        Ok(())
    }

    fn begin_command(&mut self, command: &str) -> Result<(), AllocError> {
        self.end_command()?;
        self.command_line = self.number;
        self.command = String::from_str(self.alloc, command)?;
        Ok(())
    }

    /// Takes what a command shows, or more of a command that ends with a backslash.
    fn take_shown(&mut self, code: &str) -> Result<(), AllocError> {
        let more = match self.command.as_str().strip_suffix("\\") {
            Some(begun) => {
                let word = code.trim_start();
                Some(format!(in self.alloc; "{begun}{word}")?)
            }
            None => None,
        };
        match more {
            Some(command) => {
                self.command = command;
                Ok(())
            }
            None => self.body.add_line(code),
        }
    }

    /// Ends a block, if one is open.
    fn end_block(&mut self) -> Result<(), AllocError> {
        match self.part {
            Part::Session => self.end_command()?,
            Part::Block => self.end_file()?,
            Part::Prose | Part::Drawing => {}
        }
        if !matches!(self.part, Part::Drawing) {
            self.part = Part::Prose;
        }
        Ok(())
    }

    /// Keeps the block as a file, where it is one.
    fn end_file(&mut self) -> Result<(), AllocError> {
        let bytes = self.take_body();
        if let Some(name) = mem::replace(&mut self.name, None) {
            self.steps.push(PageStep::File { name, bytes })?;
        }
        Ok(())
    }

    /// Keeps the command and what it shows, where it is one that is run.
    fn end_command(&mut self) -> Result<(), AllocError> {
        let shown = self.take_body();
        let command = mem::replace(&mut self.command, String::new(self.alloc));
        if let Some(folder) = command.as_str().strip_prefix("cd ") {
            let folder = String::from_str(self.alloc, folder)?;
            self.steps.push(PageStep::Folder(folder))?;
            return Ok(());
        }
        match words_of(command.as_str()) {
            Some(words) => self.keep_run(words, shown),
            None => Ok(()),
        }
    }

    /// Keeps a command line of the program, by its words and what the shell does with it.
    fn keep_run(&mut self, line: &str, shown: Vec<u8>) -> Result<(), AllocError> {
        let (line, varies) = cut_at(line, " # ");
        let (words, is_kept) = cut_at(line, " > ");
        let words = String::from_str(self.alloc, words.trim_end())?;
        let fit = match (varies, shown.strip_suffix(MORE).is_some()) {
            (true, _) => Fit::Like,
            (false, true) => Fit::First,
            (false, false) => Fit::Whole,
        };
        self.steps.push(PageStep::Run(ShownRun {
            line: self.command_line,
            words,
            shown,
            is_kept,
            fit,
        }))?;
        Ok(())
    }

    /// The bytes of the block so far.
    fn take_body(&mut self) -> Vec<u8> {
        mem::replace(&mut self.body, Body::new(self.alloc)).into_bytes()
    }
}

/// The words of a command line of the program that needs no line of a bus and no other program.
fn words_of(command: &str) -> Option<&str> {
    let program = command.strip_prefix("./").unwrap_or(command);
    let line = program.strip_prefix("dalictl ")?;
    let words = line.strip_prefix("--unproved ").unwrap_or(line);
    if words.contains("--line ") || words.contains(" | ") {
        None
    } else {
        Some(words)
    }
}

/// What stands before a mark, and whether it is there.
fn cut_at<'a>(line: &'a str, mark: &str) -> (&'a str, bool) {
    match line.split_once(mark) {
        Some((before, _)) => (before, true),
        None => (line, false),
    }
}

/// The path of the picture that a line shows.
fn picture_of(line: &str) -> Option<&str> {
    let (_, rest) = line.strip_prefix("![")?.split_once("](")?;
    rest.strip_suffix(")")
}
