//! The files, the date and the memory of the machine, as what is written beside a building uses
//! them: the rows have a disk in memory.

use livehouse::HostStorage;
use livejournal::{Care, Storage};
use std::alloc::{AllocError, Global};
use std::os::unix::fs::{MetadataExt, symlink};
use std::rt::Files;
use std::test::Fail;
use std::time::Clock as Timer;
use std::{fs, io};

/// Seconds from the beginning of 1970 to that of 2020, before which nobody ran this.
const YEAR_2020: u64 = 1_577_836_800;

/// The paths of a test.
#[derive(Drop)]
struct Paths {
    folder: String,
    log: String,
    beside: String,
    old: String,
}

impl Paths {
    /// Paths that no other test has, of a folder that is not there yet.
    fn new<R: Timer>(rt: &R, alloc: Global) -> Result<Paths, AllocError> {
        let number = match rt.since_1970() {
            Ok(since) => since.as_nanos(),
            Err(_) => 0,
        };
        let folder = format!(in alloc; "/tmp/gushewa-storage-{number}")?;
        Ok(Paths {
            log: format!(in alloc; "{folder}/log")?,
            beside: format!(in alloc; "{folder}/log.new")?,
            old: format!(in alloc; "{folder}/log.1")?,
            folder,
        })
    }
}

/// Whether the file at a path has these bytes.
fn has<R: Files + AllocGlobal>(rt: &R, path: &str, bytes: &[u8]) -> io::Result<bool> {
    Ok(fs::read(rt, path)?.as_slice() == bytes)
}

/// Whether bytes that are appended stand behind the others, and the file is as long as was
/// answered.
fn are_appended<R: Files + AllocGlobal + Timer + Eprint>(
    rt: &R,
    paths: &Paths,
) -> io::Result<bool> {
    let site = HostStorage { rt };
    let none = site.append(&paths.log, b"")?;
    let first = site.append(&paths.log, b"one\n")?;
    let second = site.append(&paths.log, b"and two\n")?;
    let all = has(rt, &paths.log, b"one\nand two\n")?;
    Ok(all && (none, first, second) == (0, 4, 12))
}

/// Whether bytes that replace a file stand alone in it, whether they are to last or not, and
/// nothing is left beside it.
fn are_replaced<R: Files + AllocGlobal + Timer + Eprint>(
    rt: &R,
    paths: &Paths,
    care: Care,
) -> io::Result<bool> {
    let site = HostStorage { rt };
    site.replace(rt.alloc(), &paths.log, b"three\n", care)?;
    let alone = has(rt, &paths.log, b"three\n")?;
    Ok(alone && !fs::exists(rt, paths.beside.as_str())?)
}

/// Whether a file that is renamed is found under its new name alone, in place of another one.
fn is_renamed<R: Files + AllocGlobal + Timer + Eprint>(rt: &R, paths: &Paths) -> io::Result<bool> {
    let site = HostStorage { rt };
    site.replace(rt.alloc(), &paths.old, b"old\n", Care::Lasting)?;
    site.replace(rt.alloc(), &paths.log, b"new\n", Care::Passing)?;
    site.rename(&paths.log, &paths.old)?;
    let there = has(rt, &paths.old, b"new\n")?;
    Ok(there && !fs::exists(rt, paths.log.as_str())?)
}

/// Whether the last line of a file is ended, once.
fn is_ended<R: Files + AllocGlobal + Timer + Eprint>(rt: &R, paths: &Paths) -> io::Result<bool> {
    let site = HostStorage { rt };
    let none = site.end_line(&paths.log)?;
    site.append(&paths.log, b"half")?;
    let (first, second) = (site.end_line(&paths.log)?, site.end_line(&paths.log)?);
    let ended = has(rt, &paths.log, b"half\n")?;
    rt.remove_file(&paths.log)?;
    Ok(ended && (none, first, second) == (0, 5, 5))
}

/// Whether a file is written beside its path as a new one, which only its owner may read, where a
/// link to another file was.
fn is_made_anew<R: Files + AllocGlobal + Timer + Eprint>(
    rt: &R,
    paths: &Paths,
) -> io::Result<bool> {
    let site = HostStorage { rt };
    site.append(&paths.old, b"mine\n")?;
    symlink(rt, paths.old.as_str(), paths.beside.as_str())?;
    site.replace(rt.alloc(), &paths.log, b"new\n", Care::Private)?;
    let kept = has(rt, &paths.old, b"mine\n")?;
    let new = has(rt, &paths.log, b"new\n")?;
    let mode = rt.metadata(&paths.log)?.mode();
    rt.remove_file(&paths.old)?;
    rt.remove_file(&paths.log)?;
    Ok(kept && new && mode & 0o777 == 0o600)
}

#[test]
fn what_is_written_beside_a_building_is_on_the_disk(rt: HostRuntime) -> Result<(), Fail> {
    let paths = Paths::new(&rt, rt.alloc())?;
    fs::create_dir(&rt, paths.folder.as_str())?;
    let ended = is_ended(&rt, &paths)?;
    let anew = is_made_anew(&rt, &paths)?;
    let appended = are_appended(&rt, &paths)?;
    let lasting = are_replaced(&rt, &paths, Care::Private)?;
    let replaced = are_replaced(&rt, &paths, Care::Passing)?;
    let renamed = is_renamed(&rt, &paths)?;
    rt.remove_file(&paths.old)?;
    fs::remove_dir(&rt, paths.folder.as_str())?;
    assert!(rt; ended, "a line is ended");
    assert!(rt; anew, "a file is made anew");
    assert!(rt; appended, "bytes are appended");
    assert!(rt; lasting && replaced, "bytes replace a file");
    assert!(rt; renamed, "a file is renamed");
    Ok(())
}

#[test]
fn the_machine_says_its_date_and_the_memory_of_the_program(rt: HostRuntime) {
    let site = HostStorage { rt: &rt };
    let (date, memory) = (site.seconds(), site.memory());
    assert!(rt; date > YEAR_2020, "the date is past 2020");
    assert!(rt; memory.unwrap_or(0) > 0, "some memory is held");
}
