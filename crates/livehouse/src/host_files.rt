//! The files of lines on the machine: how they are opened, and which of them is which.

use liveline::Reason;
use std::fs::{File, Metadata, OpenFile, OpenOptions, TryLockError};
use std::io::ErrorKind;
use std::os::unix::fs::MetadataExt;
use std::rt::Files;
use std::time::{Clock as Timer, Duration};
use std::{io, thread};

/// How often a file is tried that another opening has. A thread of this line may be about to let go
/// of it.
const MOST_TRIES: u32 = 10;

/// The milliseconds from one of these tries to the next.
const PAUSE: u64 = 10;

/// Which file it is, whatever it is called: the device of its file system, and its number there.
#[derive(Clone, Copy, PartialEq, Eq)]
pub struct FileId {
    device: u64,
    number: u64,
}

impl FileId {
    /// Which file this is said of.
    pub(crate) fn of(metadata: &Metadata) -> FileId {
        FileId {
            device: metadata.dev(),
            number: metadata.ino(),
        }
    }
}

/// A file that one opening at a time may have, of this program and of all others that ask so.
pub trait Exclusive {
    /// Whether another opening has it. Else this one has it from now on, until its last handle is
    /// closed. A file that knows no locks is nobody's.
    fn is_taken(&self) -> bool;
}

impl Exclusive for File {
    fn is_taken(&self) -> bool {
        matches!(self.try_lock(), Err(TryLockError::WouldBlock))
    }
}

/// Has the file for this opening alone.
///
/// # Errors
///
/// Another opening has it.
pub(crate) fn hold<R: Timer, F: Exclusive>(rt: &R, file: &F) -> Result<(), Reason> {
    for _ in 0..MOST_TRIES {
        if !file.is_taken() {
            return Ok(());
        }
        thread::sleep(rt, Duration::from_millis(PAUSE));
    }
    Err(Reason::Unopened(ErrorKind::ResourceBusy))
}

/// Checks that a file is no regular one and no directory.
///
/// # Errors
///
/// It is one, or what it is cannot be read.
pub(crate) fn checked<F: OpenFile>(file: &F) -> Result<(), Reason> {
    match file.metadata() {
        Ok(metadata) if metadata.is_file() => Err(Reason::RegularFile),
        Ok(metadata) if metadata.is_dir() => Err(Reason::Unopened(ErrorKind::IsADirectory)),
        Ok(_) => Ok(()),
        Err(error) => Err(Reason::Unopened(error.kind())),
    }
}

/// A device that is read and written.
///
/// # Errors
///
/// It cannot be opened.
pub(crate) fn both_ways<R: Files>(rt: &R, path: &str) -> io::Result<(R::File, R::File)> {
    let from = OpenOptions::new().read(true).write(true).open(rt, path)?;
    let to = from.try_clone()?;
    Ok((from, to))
}

/// A file that is read and one that is written, as the two of a pair of FIFOs. The one that is read
/// is opened first.
///
/// # Errors
///
/// One of them cannot be opened.
pub(crate) fn two_files<R: Files>(rt: &R, from: &str, to: &str) -> io::Result<(R::File, R::File)> {
    let from = File::open(rt, from)?;
    let to = OpenOptions::new().write(true).open(rt, to)?;
    Ok((from, to))
}
