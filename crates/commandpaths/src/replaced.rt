//! Whether a code file may go where a file is.

use crate::paths::{Misplaced, PathFault, fault_at};
use limits::MOST_BYTES;
use std::alloc::Global;
use std::fs::File;
use std::io;
use std::io::{ErrorKind, Read};
use std::rt::Files;
use wordlines::Binding;

/// How a code file begins.
const MAGIC: &[u8] = b"DLIL";

/// Whether a code file may go to a path: nothing is there, a code file, or a device.
///
/// # Errors
///
/// A file is there that is no code file. Where the command names no binding, this may be the one of
/// the text, behind which no path was given. Or the allocator is out of memory.
pub(crate) fn check_code_file<R: Files>(
    rt: &R,
    alloc: Global,
    path: &str,
    has_binding: bool,
) -> Result<(), PathFault> {
    if is_device(rt, path) {
        return Ok(());
    }
    match bytes_there(rt, alloc, path) {
        Ok(bytes) if bytes.starts_with(MAGIC) => Ok(()),
        Ok(bytes) if !has_binding && Binding::parse(alloc, &bytes).is_ok() => {
            Err(fault_at(alloc, path, Misplaced::Binding))
        }
        Ok(_) => Err(fault_at(alloc, path, Misplaced::NoCode)),
        Err(error) if error.kind() == ErrorKind::OutOfMemory => Err(PathFault::Memory),
        Err(_) if is_there(rt, path) => Err(fault_at(alloc, path, Misplaced::NoCode)),
        Err(_) => Ok(()),
    }
}

/// Whether something is at a path that is no regular file.
fn is_device<R: Files>(rt: &R, path: &str) -> bool {
    match rt.metadata(path) {
        Ok(there) => !there.is_file(),
        Err(_) => false,
    }
}

/// Whether something is at a path.
fn is_there<R: Files>(rt: &R, path: &str) -> bool {
    rt.metadata(path).is_ok()
}

/// The first bytes of the file at a path.
///
/// # Errors
///
/// It cannot be read, or the allocator is out of memory.
fn bytes_there<R: Files>(rt: &R, alloc: Global, path: &str) -> io::Result<Vec<u8>> {
    let mut bytes = Vec::new(alloc);
    File::open(rt, path)?
        .take(MOST_BYTES as u64)
        .read_to_end(&mut bytes)?;
    Ok(bytes)
}
