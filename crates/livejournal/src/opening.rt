//! What is done before a record is written for the first time.

use crate::record::{END_AT_UP, KEPT_LINE};
use crate::storage::{Care, Storage};
use std::alloc::{AllocError, Global};
use std::io;
use std::io::ErrorKind;

/// A record that was not written yet.
#[derive(Drop)]
pub(crate) struct Opening<'a> {
    path: &'a str,
    /// The file of kept values with which the building begins, where it does.
    kept: Option<Vec<u8>>,
}

impl<'a> Opening<'a> {
    /// The record at this path, of a building that begins with the values of this file, where there
    /// is one.
    ///
    /// # Errors
    ///
    /// The allocator is out of memory.
    pub(crate) fn new(
        alloc: Global,
        path: &'a str,
        kept: Option<&[u8]>,
    ) -> Result<Opening<'a>, AllocError> {
        let kept = match kept {
            Some(bytes) => Some(copy_of(alloc, bytes)?),
            None => None,
        };
        Ok(Opening { path, kept })
    }

    /// Puts the record of the start before aside, and the kept values with which this one begins
    /// beside it, at FILE.keep.
    ///
    /// # Errors
    ///
    /// A file cannot be renamed or written, or the allocator is out of memory.
    pub(crate) fn serve<S: Storage>(&self, alloc: Global, storage: &S) -> io::Result<()> {
        put_aside(alloc, storage, self.path)?;
        match &self.kept {
            Some(bytes) => {
                let beside = format!(in alloc; "{}.keep", self.path)?;
                storage.replace(alloc, &beside, bytes, Care::Private)
            }
            None => Ok(()),
        }
    }
}

/// These bytes.
///
/// # Errors
///
/// The allocator is out of memory.
fn copy_of(alloc: Global, bytes: &[u8]) -> Result<Vec<u8>, AllocError> {
    let mut copy = Vec::new(alloc);
    copy.extend_from_slice(bytes)?;
    Ok(copy)
}

/// Gives the file at a path the name FILE.old, unless it is a record to which nothing came. The
/// kept values
/// with which it begins go with it.
///
/// # Errors
///
/// It cannot be renamed, or the allocator is out of memory.
fn put_aside<S: Storage>(alloc: Global, storage: &S, path: &str) -> io::Result<()> {
    match storage.read(alloc, path) {
        Ok(bytes) if is_uneventful(&bytes) => return Ok(()),
        Ok(bytes) if begins_kept(&bytes) => put_kept_aside(alloc, storage, path)?,
        Err(error) if error.kind() == ErrorKind::NotFound => return Ok(()),
        _ => {}
    }
    let old = format!(in alloc; "{path}.old")?;
    storage.rename(path, &old)
}

/// Gives the kept values beside a record the name that they have beside FILE.old, where there are
/// any.
///
/// # Errors
///
/// They cannot be renamed, or the allocator is out of memory.
fn put_kept_aside<S: Storage>(alloc: Global, storage: &S, path: &str) -> io::Result<()> {
    let beside = format!(in alloc; "{path}.keep")?;
    let old = format!(in alloc; "{path}.old.keep")?;
    match storage.rename(&beside, &old) {
        Err(error) if error.kind() == ErrorKind::NotFound => Ok(()),
        renamed => renamed,
    }
}

/// Whether these are the bytes of a record to which nothing came: it has gear, ticks and lines that
/// were away, and may say that it begins with kept values.
fn is_uneventful(bytes: &[u8]) -> bool {
    match str::from_utf8(bytes) {
        Ok(text) => text.lines().all(is_quiet_line),
        Err(_) => false,
    }
}

/// Whether a line of a record is of nothing that came: that a line is away, or is back, is none.
fn is_quiet_line(line: &str) -> bool {
    line.starts_with("gear ")
        || line.starts_with("tick ")
        || line.starts_with("hearfault ")
        || (line.starts_with("reply ") && line.ends_with(" fault"))
        || line.ends_with(END_AT_UP)
        || line == KEPT_LINE
}

/// Whether these are the bytes of a record that begins with kept values.
fn begins_kept(bytes: &[u8]) -> bool {
    match str::from_utf8(bytes) {
        Ok(text) => text.starts_with(KEPT_LINE),
        Err(_) => false,
    }
}
