//! The files, the standard error and the clock of the machine that a building runs on.

use crate::host::HostSite;
use limits::MOST_BYTES;
use livejournal::{Care, Storage};
use std::alloc::Global;
use std::fs::{File, OpenFile, OpenOptions};
use std::io;
use std::io::{ErrorKind, Read, Seek, SeekFrom, Write};
use std::os::unix::fs::OpenOptionsExt;
use std::path::Path;
use std::rt::Files;
use std::sync::Wait;
use std::time::Clock as Timer;

/// Who may read and write a file that is its owner's alone.
const OWNER_ALONE: u32 = 0o600;

/// The files, the standard error and the clock of the machine.
#[derive(Clone, Copy)]
pub struct HostStorage<'h, R> {
    pub rt: &'h R,
}

impl<R: Files + Timer + Eprint> Storage for HostStorage<'_, R> {
    ghost use Rattle.std.specs.Prelude.{⊤};

    ghost replaced = { λ _ _ _. ⊤ };

    ghost appended = { λ _ _ _. ⊤ };

    ghost unwritten = { λ _ _. ⊤ };

    fn append(&self, path: &str, bytes: &[u8]) -> io::Result<u64> {
        let mut file = OpenOptions::new()
            .append(true)
            .create(true)
            .open(self.rt, path)?;
        let size = file.metadata()?.len();
        match file.write_all(bytes) {
            Ok(()) => Ok(size.saturating_add(bytes.len() as u64)),
            Err(error) => {
                // Else half a line could stay, and come a second time.
                let _cut = file.set_len(size);
                Err(error)
            }
        }
    }

    fn end_line(&self, path: &str) -> io::Result<u64> {
        let mut file = OpenOptions::new()
            .read(true)
            .append(true)
            .create(true)
            .open(self.rt, path)?;
        let size = file.metadata()?.len();
        if size == 0 {
            return Ok(0);
        }
        file.seek(SeekFrom::Start(size - 1))?;
        let mut last = [0u8; 1];
        file.read_exact(&mut last)?;
        if last == *b"\n" {
            return Ok(size);
        }
        file.write_all(b"\n")?;
        Ok(size.saturating_add(1))
    }

    fn replace(&self, alloc: Global, path: &str, bytes: &[u8], care: Care) -> io::Result<()> {
        let beside = format!(in alloc; "{path}.new")?;
        match move_in(self.rt, &beside, path, bytes, care) {
            Ok(()) => {
                if care.lasts() {
                    // Some file systems sync no folder.
                    let _synced = sync_folder(self.rt, path);
                }
                Ok(())
            }
            Err(error) => {
                let _removed = self.rt.remove_file(&beside);
                Err(error)
            }
        }
    }

    fn read(&self, alloc: Global, path: &str) -> io::Result<Vec<u8>> {
        let mut bytes = Vec::new(alloc);
        File::open(self.rt, path)?
            .take(MOST_BYTES as u64)
            .read_to_end(&mut bytes)?;
        Ok(bytes)
    }

    fn rename(&self, from: &str, to: &str) -> io::Result<()> {
        self.rt.rename(from, to)
    }

    fn tell(&self, text: &str) -> io::Result<()> {
        eprint!(self.rt; "{text}")
    }

    fn seconds(&self) -> u64 {
        match self.rt.since_1970() {
            Ok(since) => since.as_secs(),
            Err(_) => 0,
        }
    }

    fn memory(&self) -> Option<u64> {
        let mut file = File::open(self.rt, "/proc/self/statm").ok()?;
        let mut bytes = [0u8; 64];
        let count = file.read(&mut bytes).ok()?;
        resident(bytes.get(..count)?)
    }
}

impl<R: Files + Wait + Timer + Eprint + Drop, D: Drop> Storage for HostSite<'_, R, D> {
    ghost use Rattle.std.specs.Prelude.{⊤};

    ghost replaced = { λ _ _ _. ⊤ };

    ghost appended = { λ _ _ _. ⊤ };

    ghost unwritten = { λ _ _. ⊤ };

    fn append(&self, path: &str, bytes: &[u8]) -> io::Result<u64> {
        HostStorage { rt: self.rt }.append(path, bytes)
    }

    fn end_line(&self, path: &str) -> io::Result<u64> {
        HostStorage { rt: self.rt }.end_line(path)
    }

    fn replace(&self, alloc: Global, path: &str, bytes: &[u8], care: Care) -> io::Result<()> {
        HostStorage { rt: self.rt }.replace(alloc, path, bytes, care)
    }

    fn read(&self, alloc: Global, path: &str) -> io::Result<Vec<u8>> {
        HostStorage { rt: self.rt }.read(alloc, path)
    }

    fn rename(&self, from: &str, to: &str) -> io::Result<()> {
        HostStorage { rt: self.rt }.rename(from, to)
    }

    fn tell(&self, text: &str) -> io::Result<()> {
        HostStorage { rt: self.rt }.tell(text)
    }

    fn seconds(&self) -> u64 {
        HostStorage { rt: self.rt }.seconds()
    }

    fn memory(&self) -> Option<u64> {
        HostStorage { rt: self.rt }.memory()
    }

    fn why_down(&self, alloc: Global, bus: u8) -> Option<String> {
        self.reasons.of(self.rt, alloc, bus)
    }
}

/// Writes a file beside the one at a path, and gives it that one's path.
///
/// # Errors
///
/// It cannot be written or renamed. What was at the path stays.
fn move_in<R: Files>(rt: &R, beside: &str, path: &str, bytes: &[u8], care: Care) -> io::Result<()> {
    let mut file = made_anew(rt, beside, care)?;
    file.write_all(bytes)?;
    if care.lasts() {
        file.sync_all()?;
    }
    rt.rename(beside, path)
}

/// A new file at this path, in place of one that is there. What a link there leads to stays as it
/// is.
///
/// # Errors
///
/// It cannot be made.
fn made_anew<R: Files>(rt: &R, path: &str, care: Care) -> io::Result<R::File> {
    match rt.remove_file(path) {
        Err(error) if error.kind() != ErrorKind::NotFound => return Err(error),
        _ => {}
    }
    let mut options = OpenOptions::new();
    options.write(true).create_new(true);
    if care == Care::Private {
        options.mode(OWNER_ALONE);
    }
    options.open(rt, path)
}

/// Has the folder of the file at this path on the disk, and so the file's name in it.
///
/// # Errors
///
/// The folder cannot be read or synced.
fn sync_folder<R: Files>(rt: &R, path: &str) -> io::Result<()> {
    let folder = match Path::new(path).parent() {
        Some(folder) if !folder.as_str().is_empty() => folder.as_str(),
        _ => ".",
    };
    File::open(rt, folder)?.sync_all()
}

/// The resident memory in KiB, by the line that Linux shows of it: the second number counts pages
/// of 4 KiB.
fn resident(line: &[u8]) -> Option<u64> {
    let text = str::from_utf8(line).ok()?;
    let pages = text.split(' ').nth(1)?.parse::<u64>().ok()?;
    pages.checked_mul(4)
}
