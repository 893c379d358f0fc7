//! What is written beside the buildings of a row: it stays in memory, as the files of the row do.

use crate::simulated::RowsSite;
use livejournal::{Care, Storage};
use std::alloc::{AllocError, Global};
use std::io;
use std::io::ErrorKind;
use std::sync::{Mutex, MutexGuard};
use workedrows::StoredFile;

/// What every building of a row takes for the date: 2026-11-27 21:35:10 UTC, in seconds since the
/// beginning of 1970.
const SECONDS: u64 = 1_795_815_310;

/// The name of a file beside which time passes: each date is ten seconds after the one before.
const PASSING: &str = "passing";

/// The name of a file beside which the date is set back: each one is ten seconds before the last.
const FALLING: &str = "falling";

/// The memory that every building of a row takes for its own, in KiB.
const MEMORY: u64 = 8192;

/// What a command of a row left.
#[derive(Drop)]
pub struct Left {
    /// The files of the row.
    pub files: Vec<StoredFile>,
    /// Whether one of them was written.
    pub is_written: bool,
    /// What was written to standard error.
    pub told: Vec<u8>,
    /// How often the file `nearly-full` or `late` was to be written.
    writings: u32,
    /// How often the date was asked for.
    dates: u64,
}

/// The files of a row, and standard error, for the threads of one command. A file `full` takes
/// nothing, since the disk is full, a file `nearly-full` takes what is written two times, a file
/// `late` takes nothing the first time, and a file `starved` cannot be written for lack of memory.
#[derive(Drop)]
pub struct RowsDisk {
    alloc: Global,
    left: Mutex<Left>,
}

impl RowsDisk {
    /// A disk that has these files.
    pub fn new(alloc: Global, files: Vec<StoredFile>) -> RowsDisk {
        RowsDisk {
            alloc,
            left: Mutex::new(Left {
                files,
                is_written: false,
                told: Vec::new(alloc),
                writings: 0,
                dates: 0,
            }),
        }
    }

    /// What the command left.
    pub fn into_left(self) -> Left {
        let RowsDisk { alloc: _, left } = self;
        left.into_inner()
    }

    /// What there is, for the one thread that reads or writes.
    fn left(&self) -> io::Result<MutexGuard<'_, Left>> {
        match self.left.try_lock() {
            Some(left) => Ok(left),
            None => Err(io::Error::from(ErrorKind::WouldBlock)),
        }
    }

    /// The bytes of the file at a path.
    ///
    /// # Errors
    ///
    /// There is no such file (`NotFound`), another thread has the disk, or memory was refused.
    pub fn read(&self, path: &str) -> io::Result<Vec<u8>> {
        let left = self.left()?;
        match left.files.iter().find(|file| file.path.as_str() == path) {
            Some(file) => Ok(Vec::from_slice(self.alloc, &file.bytes)?),
            None => Err(io::Error::from(ErrorKind::NotFound)),
        }
    }

    /// Has a file of this name written once more.
    ///
    /// # Errors
    ///
    /// What keeps it from being written.
    fn begin_writing(&self, path: &str) -> io::Result<()> {
        match path {
            "full" => Err(io::Error::from(ErrorKind::StorageFull)),
            "starved" => Err(io::Error::from(ErrorKind::OutOfMemory)),
            "nearly-full" => match self.count_writing()? {
                0..=2 => Ok(()),
                _ => Err(io::Error::from(ErrorKind::StorageFull)),
            },
            "late" => match self.count_writing()? {
                0..=1 => Err(io::Error::from(ErrorKind::StorageFull)),
                _ => Ok(()),
            },
            _ => Ok(()),
        }
    }

    /// How often one of the files that are counted was to be written, with this time.
    fn count_writing(&self) -> io::Result<u32> {
        let mut left = self.left()?;
        left.writings = left.writings.saturating_add(1);
        Ok(left.writings)
    }

    /// The date, in seconds since the beginning of 1970: ten seconds after the one before where
    /// time passes in this row, and ten before it where the date falls.
    fn date(&self) -> io::Result<u64> {
        let mut left = self.left()?;
        left.dates = left.dates.saturating_add(1);
        let passed = left.dates.saturating_mul(10);
        if left.files.iter().any(|file| file.path.as_str() == PASSING) {
            Ok(SECONDS.saturating_add(passed))
        } else if left.files.iter().any(|file| file.path.as_str() == FALLING) {
            Ok(SECONDS.saturating_sub(passed))
        } else {
            Ok(SECONDS)
        }
    }

    /// Puts a file with these bytes at a path, in place of one that is there.
    fn put(&self, path: &str, bytes: Vec<u8>) -> io::Result<()> {
        let path = String::from_str(self.alloc, path)?;
        let mut left = self.left()?;
        remove(&mut left.files, path.as_str());
        left.files.push(StoredFile { path, bytes })?;
        left.is_written = true;
        Ok(())
    }

    /// Whether a file lies below this path.
    fn is_folder(&self, path: &str) -> io::Result<bool> {
        let left = self.left()?;
        Ok(left.files.iter().any(|file| is_below(file, path)))
    }

    /// The bytes of the file at a path, none where it is not there.
    fn read_or_none(&self, path: &str) -> Vec<u8> {
        match self.read(path) {
            Ok(file) => file,
            Err(_) => Vec::new(self.alloc),
        }
    }

    /// Adds bytes to the file at a path, which is made where it is not there; how many it has then.
    fn extend(&self, path: &str, bytes: &[u8]) -> io::Result<u64> {
        let mut file = self.read_or_none(path);
        file.extend_from_slice(bytes)?;
        let size = file.len() as u64;
        self.put(path, file)?;
        Ok(size)
    }
}

/// Whether a file lies below this path.
fn is_below(file: &StoredFile, path: &str) -> bool {
    match file.path.as_str().strip_prefix(path) {
        Some(rest) => rest.starts_with('/'),
        None => false,
    }
}

/// Takes the file at a path from these.
fn remove(files: &mut Vec<StoredFile>, path: &str) {
    files.retain(|file| file.path.as_str() != path);
}

impl<S> Storage for RowsSite<'_, S> {
    ghost use Rattle.std.specs.Prelude.{⊤};

    ghost replaced = { λ _ _ _. ⊤ };

    ghost appended = { λ _ _ _. ⊤ };

    ghost unwritten = { λ _ _. ⊤ };

    fn append(&self, path: &str, bytes: &[u8]) -> io::Result<u64> {
        self.disk.begin_writing(path)?;
        self.disk.extend(path, bytes)
    }

    fn end_line(&self, path: &str) -> io::Result<u64> {
        match self.disk.read_or_none(path).last() {
            Some(byte) if *byte != b'\n' => self.disk.extend(path, b"\n"),
            _ => self.disk.extend(path, b""),
        }
    }

    fn replace(&self, alloc: Global, path: &str, bytes: &[u8], _care: Care) -> io::Result<()> {
        self.disk.begin_writing(path)?;
        self.disk.put(path, Vec::from_slice(alloc, bytes)?)
    }

    fn read(&self, _alloc: Global, path: &str) -> io::Result<Vec<u8>> {
        self.disk.read(path)
    }

    fn rename(&self, from: &str, to: &str) -> io::Result<()> {
        if self.disk.is_folder(to)? {
            return Err(io::Error::from(ErrorKind::IsADirectory));
        }
        let bytes = self.disk.read(from)?;
        self.disk.put(to, bytes)?;
        remove(&mut self.disk.left()?.files, from);
        Ok(())
    }

    fn tell(&self, text: &str) -> io::Result<()> {
        self.disk.left()?.told.extend_from_slice(text.as_bytes())?;
        Ok(())
    }

    fn seconds(&self) -> u64 {
        self.disk.date().unwrap_or(SECONDS)
    }

    fn memory(&self) -> Option<u64> {
        Some(MEMORY)
    }
}
