//! Pages of the documents: each command that a page shows is run, and must print what stands below.
//!
//! The files of a page's commands are its blocks, and files of the disk that no block is. A block
//! that is on the disk too must be equal to the file there.

use crate::running::judge_lines;
use livehouse::Site;
use std::alloc::{AllocError, Global};
use std::fs;
use std::rt::Files;
use std::sync::Wait;
use std::thread::Threads;
use std::time::Clock as Timer;
use workedrows::{CHANGED, ChangedLine, Fit, Judge, PageStep, RowDifference, RowsStop, page_steps};

/// Judges a page: its path, which the names of its rows begin with, and its text.
///
/// # Errors
///
/// The first command that prints something else, or a block or a picture that is another one than
/// the disk has.
pub fn judge_page<R: Files + AllocGlobal + Threads + Wait + Timer + Sync, S: Site + Sync>(
    judge: &mut Judge,
    rt: &R,
    site: &S,
    path: &str,
    text: &str,
) -> Result<(), RowsStop> {
    judge.begin_row(path)?;
    let steps = page_steps(judge.alloc(), text)?;
    let mut reading = Reading {
        path,
        folder: String::new(judge.alloc()),
    };
    for step in &steps {
        if let Some(run) = reading.prepare(judge, rt, step)? {
            judge_lines(judge, rt, site, run.as_str())?;
            expect_step(judge, step)?;
        }
    }
    judge.end_part()
}

/// How far a page is read.
#[derive(Drop)]
struct Reading<'a> {
    /// The page's path.
    path: &'a str,
    /// The folder in which its commands are typed.
    folder: String,
}

impl Reading<'_> {
    /// Takes the next step of the page, up to its command: the line that runs that, where the step
    /// has one.
    fn prepare<R: Files + AllocGlobal>(
        &mut self,
        judge: &mut Judge,
        rt: &R,
        step: &PageStep,
    ) -> Result<Option<String>, RowsStop> {
        let folder = self.folder.as_str();
        match step {
            PageStep::Folder(name) => {
                self.folder = joined(judge.alloc(), folder, name.as_str())?;
                Ok(None)
            }
            PageStep::File { name, bytes } => {
                take_block(judge, rt, folder, name.as_str(), bytes)?;
                Ok(None)
            }
            PageStep::Run(run) => {
                name_row(judge, self.path, run.line)?;
                take_files(judge, rt, folder, run.words.as_str())?;
                Ok(Some(running(judge, run.words.as_str())?))
            }
            PageStep::Changed(changed) => {
                name_row(judge, self.path, changed.line)?;
                take_files(judge, rt, folder, changed.words.as_str())?;
                put_changed(judge, changed)?;
                Ok(Some(running(judge, changed.words.as_str())?))
            }
            PageStep::Picture { line, path } => {
                name_row(judge, self.path, *line)?;
                compare_picture(judge, rt, self.path, path.as_str())?;
                Ok(None)
            }
        }
    }
}

/// The line of a row that runs the command of these words.
fn running(judge: &Judge, words: &str) -> Result<String, AllocError> {
    format!(in judge.alloc(); "-- run {words}")
}

/// Goes on with a row that is called by its page and its line there.
fn name_row(judge: &mut Judge, path: &str, line: u32) -> Result<(), RowsStop> {
    let name = format!(in judge.alloc(); "{path}:{line}")?;
    judge.continue_row(name.as_str())
}

/// Takes a block as a file of the row, and compares it with the one that is on the disk.
fn take_block<R: Files + AllocGlobal>(
    judge: &mut Judge,
    rt: &R,
    folder: &str,
    name: &str,
    bytes: &[u8],
) -> Result<(), RowsStop> {
    put_file(judge, name, bytes)?;
    judge.end_part()?;
    let path = joined(judge.alloc(), folder, name)?;
    match fs::read(rt, path.as_str()) {
        Ok(found) if found.as_slice() != bytes => Err(judge.difference(RowDifference::Page)),
        _ => Ok(()),
    }
}

/// Has the judge keep a file, by the lines of a row.
fn put_file(judge: &mut Judge, name: &str, bytes: &[u8]) -> Result<(), RowsStop> {
    let heading = format!(in judge.alloc(); "-- file {name}")?;
    judge.take_line(heading.as_str())?;
    if let Ok(text) = str::from_utf8(bytes) {
        for line in text.split('\n') {
            judge.take_line(line)?;
        }
    }
    Ok(())
}

/// Takes the files that the words of a command name, where no block is such a file.
fn take_files<R: Files + AllocGlobal>(
    judge: &mut Judge,
    rt: &R,
    folder: &str,
    words: &str,
) -> Result<(), RowsStop> {
    for word in words.split(' ') {
        if judge.file(word)?.is_none() {
            let path = joined(judge.alloc(), folder, word)?;
            if let Ok(bytes) = fs::read(rt, path.as_str()) {
                put_file(judge, word, &bytes)?;
                judge.end_part()?;
            }
        }
    }
    Ok(())
}

/// Has the judge keep a text with another line in it.
fn put_changed(judge: &mut Judge, changed: &ChangedLine) -> Result<(), RowsStop> {
    let heading = format!(in judge.alloc(); "-- file {CHANGED}")?;
    let bytes = match judge.file(changed.text.as_str())? {
        Some(bytes) => bytes,
        None => Vec::new(judge.alloc()),
    };
    judge.take_line(heading.as_str())?;
    if let Ok(text) = str::from_utf8(&bytes) {
        let mut number: u32 = 0;
        for line in text.split('\n') {
            number = number.saturating_add(1);
            judge.take_line(if number == changed.number {
                changed.place.as_str()
            } else {
                line
            })?;
        }
    }
    judge.end_part()
}

/// Says what the command of a step must have shown, where that goes to no file.
fn expect_step(judge: &mut Judge, step: &PageStep) -> Result<(), RowsStop> {
    match step {
        PageStep::Run(run) if !run.is_kept => expect(judge, heading_of(run.fit), &run.shown),
        PageStep::Changed(changed) => expect(judge, "-- stdout", changed.shown.as_bytes()),
        _ => Ok(()),
    }
}

/// The line below which a page's lines stand that fit so.
fn heading_of(fit: Fit) -> &'static str {
    match fit {
        Fit::Whole => "-- shown",
        Fit::Like => "-- shown like",
        Fit::First => "-- shown first",
    }
}

/// Says what the last command must have shown, or printed, by the line before that.
fn expect(judge: &mut Judge, heading: &str, shown: &[u8]) -> Result<(), RowsStop> {
    judge.take_line(heading)?;
    if let Ok(text) = str::from_utf8(shown) {
        for line in text.split('\n') {
            judge.take_line(line)?;
        }
    }
    Ok(())
}

/// Compares a picture of the page with what the last command printed.
fn compare_picture<R: Files + AllocGlobal>(
    judge: &mut Judge,
    rt: &R,
    page: &str,
    picture: &str,
) -> Result<(), RowsStop> {
    let folder = match page.rsplit_once('/') {
        Some((folder, _)) => folder,
        None => "",
    };
    let path = joined(judge.alloc(), folder, picture)?;
    let wanted = fs::read(rt, path.as_str())?;
    match judge.last_output() {
        Some(printed) if printed == wanted.as_slice() => Ok(()),
        _ => Err(judge.difference(RowDifference::Page)),
    }
}

/// A path as seen from the folder of the page's files, of one that is seen from this folder.
fn joined(alloc: Global, folder: &str, path: &str) -> Result<String, AllocError> {
    if folder.is_empty() {
        return String::from_str(alloc, path);
    }
    match (path.strip_prefix("../"), folder.rsplit_once('/')) {
        (Some(path), Some((above, _))) => format!(in alloc; "{above}/{path}"),
        (Some(path), None) => String::from_str(alloc, path),
        (None, _) => format!(in alloc; "{folder}/{path}"),
    }
}
