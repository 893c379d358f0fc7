//! The lines of the machine: who opens them, and who tells what becomes of them. A line's thread
//! opens by [`Devices`], since what is sent to a thread may not rest on the bound `Files` itself.

ghost use Rattle.std.specs.Prelude.{◌≡◌, ◌≢◌, ◌↔◌, IfOk, IsSome, IsTrue, option_map};
ghost use Rattle.std.specs.Prelude.{string_bytes, true};

use crate::host_files::{Exclusive, FileId, both_ways, checked, hold, two_files};
use crate::reasons::DownReasons;
use crate::watch::DownWatch;
use commandoptions::LineWord;
use liveline::{Opener, Reason, Teller};
use std::alloc::{AllocError, Global};
use std::fs::{OpenFile, OpenOptions};
use std::io::{Read, Write};
use std::rt::Files;
use std::sync::{Arc, Wait};
use std::time::Clock as Timer;

/// Whoever opens devices, also in the thread of a line.
pub trait Devices<F>: Drop {
    /// The reader and the writer of a line: of a device at one path, or of two files, of which the
    /// first is read and the second is written. No other opening has them. It may wait for ever.
    ///
    /// # Errors
    ///
    /// It cannot be opened, a regular file is there, or another opening has it. Nothing was
    /// written.
    fn open(&self, from: &str, to: Option<&str>) -> Result<(F, F), Reason>;

    /// Which file is open here, where that can be told.
    fn opened_file(&self, file: &F) -> Option<FileId>;

    /// Which file is at this path now, where one is.
    fn file_at(&self, path: &str) -> Option<FileId>;
}

/// The devices of the machine.
#[derive(Clone, Copy)]
pub struct HostDevices<R> {
    pub rt: R,
}

impl<R: Files + Timer + Drop> Devices<R::File> for HostDevices<R>
where
    R::File: Exclusive,
{
    fn open(&self, from: &str, to: Option<&str>) -> Result<(R::File, R::File), Reason> {
        let opened = match to {
            Some(to) => two_files(&self.rt, from, to),
            None => both_ways(&self.rt, from),
        };
        let (from, to) = match opened {
            Ok(opened) => opened,
            Err(error) => return Err(Reason::Unopened(error.kind())),
        };
        checked(&from)?;
        checked(&to)?;
        hold(&self.rt, &from)?;
        hold(&self.rt, &to)?;
        Ok((from, to))
    }

    fn opened_file(&self, file: &R::File) -> Option<FileId> {
        Some(FileId::of(&file.metadata().ok()?))
    }

    fn file_at(&self, path: &str) -> Option<FileId> {
        Some(FileId::of(&self.rt.metadata(path).ok()?))
    }
}

/// Who opens a line.
#[derive(Drop)]
pub struct HostOpener<D: Drop> {
    pub(crate) devices: D,
    /// The path of the file that is read.
    pub from: String,
    /// The path of the one that is written, where that is another one.
    pub to: Option<String>,
    /// Which files were opened last, where that can be told.
    pub(crate) opened: Opened,
}

/// Which files were opened: the one that is read, and the one that is written.
#[derive(Clone, Copy)]
pub(crate) struct Opened {
    pub(crate) from: Option<FileId>,
    pub(crate) to: Option<FileId>,
}

impl<F: Read + Write + Drop, D: Devices<F>> Opener<F> for HostOpener<D> {
    type From = F;

    fn open(&mut self) -> Result<(F, F), Reason> {
        let (from, to) = match &self.to {
            Some(to) => self.devices.open(self.from.as_str(), Some(to.as_str()))?,
            None => self.devices.open(self.from.as_str(), None)?,
        };
        self.opened = Opened {
            from: self.devices.opened_file(&from),
            to: self.devices.opened_file(&to),
        };
        Ok((from, to))
    }

    fn has_moved(&self) -> bool {
        let is_read_moved = is_another(self.opened.from, self.devices.file_at(self.from.as_str()));
        match &self.to {
            Some(to) => {
                is_read_moved || is_another(self.opened.to, self.devices.file_at(to.as_str()))
            }
            None => is_read_moved,
        }
    }
}

/// Whether there is a file at the path, and another one than was opened.
fn is_another(opened: Option<FileId>, there: Option<FileId>) -> bool
    ensures { IsTrue result ↔ (IsSome opened × IsSome there × (opened ≢ there)) }
{
    match (opened, there) {
        (Some(opened), Some(there)) => opened != there,
        _ => false,
    }
}

/// Who tells what becomes of a line of the machine, a line on standard error each time.
#[derive(Drop)]
pub struct HostTeller<R: Drop> {
    pub(crate) rt: R,
    pub(crate) bus: u8,
    /// The path of the line, or both, with a comma between.
    pub(crate) paths: String,
    pub(crate) reasons: Arc<DownReasons>,
    /// The watch of the building that the line is of. A line of none is not told of.
    pub(crate) watch: Option<Arc<DownWatch>>,
}

impl<R: Eprint + Wait + Drop> Teller for HostTeller<R> {
    ghost answers = { λ teller answer. answer ≡ true → IsSome teller.watch };

    fn note_reason(&self, reason: &Reason) {
        self.reasons.note(&self.rt, self.bus, reason);
    }

    fn tell_down(&self, reason: &Reason) {
        if self.watch.is_some() {
            let _ = eprintln!(self.rt; "bus {} down: {}: {reason}", self.bus, self.paths);
        }
    }

    fn tell_up(&self) {
        if self.watch.is_some() {
            let _ = eprintln!(self.rt; "bus {} up: {}", self.bus, self.paths);
        }
    }

    fn tell_slow(&self) {
        if self.watch.is_some() {
            let _ = eprintln!(self.rt; "bus {} slow: {}", self.bus, self.paths);
        }
    }

    fn is_at_end(&self) -> bool {
        match &self.watch {
            Some(watch) => watch.has_ended(),
            None => false,
        }
    }
}

/// The path of a line, or both, with a comma between.
pub(crate) fn paths_of(alloc: Global, line: LineWord) -> Result<String, AllocError> {
    match line.to {
        Some(to) => format!(in alloc; "{},{to}", line.from),
        None => String::from_str(alloc, line.from),
    }
}

/// The text as a string of its own, if there is one.
pub(crate) fn owned(alloc: Global, text: Option<&str>) -> Result<Option<String>, AllocError>
    ensures { IfOk result
        (λ own. option_map string_bytes own ≡ option_map (λ text. text.now) text.entry) }
{
    match text {
        Some(text) => Ok(Some(String::from_str(alloc, text)?)),
        None => Ok(None),
    }
}

/// Three files on `/dev/null`, for as long as they are kept. Where the program is started with its
/// descriptors 0, 1 or 2 closed they take these, so that no message goes out on a line.
pub fn hold_standard_files<R: Files>(rt: &R) -> [Option<R::File>; 3] {
    [null_file(rt), null_file(rt), null_file(rt)]
}

/// A file on `/dev/null`, if it can be opened.
fn null_file<R: Files>(rt: &R) -> Option<R::File> {
    OpenOptions::new()
        .read(true)
        .write(true)
        .open(rt, "/dev/null")
        .ok()
}
