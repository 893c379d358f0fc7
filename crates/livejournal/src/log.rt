//! The file of a log.

use crate::page::{Turn, turn_of};
use crate::storage::Storage;
use std::alloc::Global;
use std::io;

/// How many files of a log are kept beside the one that is written: FILE.1, the last one, to
/// FILE.9.
const MOST_OLD: u32 = 9;

/// How many bytes of lines wait at most for a file that cannot be written.
const MOST_OWED: usize = 1_000_000;

/// A log, in a file or on standard error, whose path is `-`.
#[derive(Drop)]
pub(crate) struct Log<'a> {
    pub(crate) path: &'a str,
    /// How many bytes the file has.
    size: u64,
    /// How many it may have before it is cut.
    most: u64,
    /// Whether the file is known to end with a line's end.
    is_at_line: bool,
    /// Whether the last try failed.
    is_failing: bool,
    /// The lines that the file is still to get.
    owed: Vec<u8>,
    /// How many lines found no room among these.
    pub(crate) left_out: u64,
}

impl<'a> Log<'a> {
    /// The log at this path, which goes on behind what it has, and was not tried yet.
    pub(crate) fn new(alloc: Global, path: &'a str, most: u64) -> Log<'a> {
        Log {
            path,
            size: 0,
            most,
            is_at_line: path == "-",
            is_failing: false,
            owed: Vec::new(alloc),
            left_out: 0,
        }
    }

    /// Tries to write these lines, behind those that the file is still to get. Where the file would
    /// become too long, it gets the name FILE.1 first, and the lines stand in a new one. Answers
    /// whether it began to fail, or is mended.
    pub(crate) fn write<S: Storage>(&mut self, alloc: Global, storage: &S, lines: &[u8]) -> Turn {
        self.owe(lines);
        let failed = self.is_failing;
        self.is_failing = self.put(alloc, storage).is_err();
        if self.is_failing {
            self.is_at_line = self.path == "-";
        } else {
            self.owed.clear();
        }
        turn_of(failed, self.is_failing)
    }

    /// Holds lines that the file is to get, where there is room.
    fn owe(&mut self, lines: &[u8]) {
        let all = self.owed.len().saturating_add(lines.len());
        if all > MOST_OWED || self.owed.extend_from_slice(lines).is_err() {
            let ends = lines.iter().filter(|byte| **byte == b'\n').count();
            self.left_out = self.left_out.saturating_add(ends as u64);
        }
    }

    /// Writes what the file is still to get, on a line of its own.
    ///
    /// # Errors
    ///
    /// It cannot be written.
    fn put<S: Storage>(&mut self, alloc: Global, storage: &S) -> io::Result<()> {
        if !self.is_at_line {
            self.size = storage.end_line(self.path)?;
            self.is_at_line = true;
        }
        if self.owed.is_empty() {
            return Ok(());
        }
        if self.path == "-" {
            return storage.tell(str::from_utf8(&self.owed).unwrap_or(""));
        }
        let more = self.owed.len() as u64;
        if self.size > 0 && self.size.saturating_add(more) > self.most {
            self.cut(alloc, storage)?;
        }
        self.size = storage.append(self.path, &self.owed)?;
        Ok(())
    }

    /// Gives each file of the log the next name, so that a new one begins.
    fn cut<S: Storage>(&self, alloc: Global, storage: &S) -> io::Result<()> {
        for old in 0..MOST_OLD {
            let number = MOST_OLD - old;
            let to = format!(in alloc; "{}.{number}", self.path)?;
            let from = match number {
                1 => String::from_str(alloc, self.path)?,
                _ => format!(in alloc; "{}.{}", self.path, number - 1)?,
            };
            // A name that is not there yet is no fault.
            let _renamed = storage.rename(&from, &to);
        }
        Ok(())
    }
}
