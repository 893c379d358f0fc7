//! Reading and writing files.

ghost use Rattle.std.specs.Prelude.{◌≡◌, ◌+◌, ◌↔◌, IfOk, IfSome, OnOk, take};
ghost use Rattle.std.specs.Io.KnownBytes.{Appends};
ghost use Rattle.limits.specs.Limits.{most_bytes};

use std::alloc::Global;
use std::fs::{File, OpenFile, OpenOptions};
use std::io;
use std::io::{ErrorKind, Read, Write};
use std::rt::Files;

/// How much is read of a file at most: one byte more than the limit, which shows that a file is too
/// long.
const MOST_READ: u64 = limits::MOST_BYTES as u64 + 1;

/// The path that standard input has as a file.
const STANDARD_INPUT: &str = "/dev/stdin";

/// Why a file was not read, or was not written.
#[derive(Clone, Copy, PartialEq, Eq)]
pub enum DiskFault {
    Memory,
    /// There is no such file, or no such folder.
    Absent,
    /// Nobody gave the right to.
    Denied,
    /// It is a folder.
    Folder,
    Failed,
}

/// Where files are read and written: a disk, or what stands for one.
pub trait Disk {
    ghost use Rattle.std.specs.Prelude.{ℕ, List, MatchResult};
    ghost use Rattle.commandfiles.specs.declared.reading.DiskFault.{DiskFault};

    // The file at a path gave these bytes.
    ghost gives: { Self → List ℕ → List ℕ → Type 0 };

    // The file at a path was not read, for this reason.
    ghost fails: { Self → List ℕ → DiskFault → Type 0 };

    // The file at a path took these bytes, and has no others.
    ghost takes: { Self → List ℕ → List ℕ → Type 0 };

    // The file at a path was not written, for this reason.
    ghost refuses: { Self → List ℕ → DiskFault → Type 0 };

    /// The bytes that the file at `path` gives.
    fn read(&self, alloc: Global, path: &str) -> Result<Vec<u8>, DiskFault>
        ensures { MatchResult result (λ bytes. gives self.now path.now bytes.items)
            (fails self.now path.now) };

    /// Writes the file at `path`, in place of one that is there.
    fn write(&self, alloc: Global, path: &str, bytes: &[u8]) -> Result<(), DiskFault>
        ensures { MatchResult result (λ _. takes self.now path.now bytes.now)
            (refuses self.now path.now) };
}

/// The disk of the machine. No contract can say what is on it.
#[derive(Clone, Copy)]
pub struct HostDisk<'a, R> {
    pub rt: &'a R,
}

impl<R: Files> Disk for HostDisk<'_, R> {
    ghost use Rattle.std.specs.Prelude.{⊤};

    ghost gives = { λ _ _ _. ⊤ };

    ghost fails = { λ _ _ _. ⊤ };

    ghost takes = { λ _ _ _. ⊤ };

    ghost refuses = { λ _ _ _. ⊤ };

    /// The first bytes of the file, or with `-` of standard input, at most one more than the
    /// greatest number.
    fn read(&self, alloc: Global, path: &str) -> Result<Vec<u8>, DiskFault> {
        let path = if path == "-" { STANDARD_INPUT } else { path };
        match File::open(self.rt, path) {
            Ok(file) => bytes_of(alloc, file),
            Err(error) => Err(reason(error.kind())),
        }
    }

    /// Writes the file as FILE.new, which becomes FILE, so that what was there stays where it
    /// cannot be written. A device is written itself.
    fn write(&self, alloc: Global, path: &str, bytes: &[u8]) -> Result<(), DiskFault> {
        if is_device(self.rt, path) {
            return write_to(self.rt, path, bytes);
        }
        let Ok(beside) = format!(in alloc; "{path}.new") else {
            return Err(DiskFault::Memory);
        };
        match move_in(self.rt, &beside, path, bytes) {
            Ok(()) => Ok(()),
            Err(error) => {
                let _removed = self.rt.remove_file(&beside);
                Err(reason(error.kind()))
            }
        }
    }
}

/// Whether something is at a path that is no regular file.
fn is_device<R: Files>(rt: &R, path: &str) -> bool {
    match rt.metadata(path) {
        Ok(there) => !there.is_file(),
        Err(_) => false,
    }
}

/// Writes what is at a path itself.
///
/// # Errors
///
/// Why it is not written.
fn write_to<R: Files>(rt: &R, path: &str, bytes: &[u8]) -> Result<(), DiskFault> {
    match File::create(rt, path) {
        Ok(mut file) => write_bytes(&mut file, bytes),
        Err(error) => Err(reason(error.kind())),
    }
}

/// Writes a file beside the one at a path, and gives it that one's path.
///
/// # Errors
///
/// It cannot be written or renamed. What was at the path stays.
fn move_in<R: Files>(rt: &R, beside: &str, path: &str, bytes: &[u8]) -> io::Result<()> {
    let mut file = made_anew(rt, beside)?;
    file.write_all(bytes)?;
    file.sync_all()?;
    rt.rename(beside, path)
}

/// A new file at this path, in place of one that is there. What a link there leads to stays as it
/// is.
///
/// # Errors
///
/// It cannot be made.
fn made_anew<R: Files>(rt: &R, path: &str) -> io::Result<R::File> {
    match rt.remove_file(path) {
        Err(error) if error.kind() != ErrorKind::NotFound => return Err(error),
        _ => {}
    }
    OpenOptions::new()
        .write(true)
        .create_new(true)
        .open(rt, path)
}

/// The first bytes that a reader gives, at most one more than the greatest number.
fn bytes_of<R: Read + Drop>(alloc: Global, reader: R) -> Result<Vec<u8>, DiskFault>
    ensures { IfOk result (λ bytes. IfSome (R.remaining reader)
        (λ all. bytes.items ≡ take (most_bytes + 1) all)) }
{
    let mut bytes = Vec::new(alloc);
    match reader.take(MOST_READ).read_to_end(&mut bytes) {
        Ok(_) => Ok(bytes),
        Err(error) => Err(reason(error.kind())),
    }
}

/// Writes all of these bytes.
fn write_bytes<W: Write>(writer: &mut W, bytes: &[u8]) -> Result<(), DiskFault>
    ensures { OnOk result (Appends (W.contents writer.old) (W.contents writer.new) bytes.now) }
{
    match writer.write_all(bytes) {
        Ok(()) => Ok(()),
        Err(error) => Err(reason(error.kind())),
    }
}

/// Why a file was not read or written, by the kind of the error.
pub fn reason(kind: ErrorKind) -> DiskFault
    ensures memory { (result ≡ DiskFault.Memory) ↔ (kind ≡ ErrorKind.OutOfMemory) }
    ensures absent { (result ≡ DiskFault.Absent) ↔ (kind ≡ ErrorKind.NotFound) }
    ensures denied { (result ≡ DiskFault.Denied) ↔ (kind ≡ ErrorKind.PermissionDenied) }
    ensures folder { (result ≡ DiskFault.Folder) ↔ (kind ≡ ErrorKind.IsADirectory) }
{
    match kind {
        ErrorKind::OutOfMemory => DiskFault::Memory,
        ErrorKind::NotFound => DiskFault::Absent,
        ErrorKind::PermissionDenied => DiskFault::Denied,
        ErrorKind::IsADirectory => DiskFault::Folder,
        _ => DiskFault::Failed,
    }
}
