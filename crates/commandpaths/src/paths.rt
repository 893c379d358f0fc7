//! Where the paths of a command lead: none that is written is one that is read.

ghost use Rattle.std.specs.Prelude.{◌↔◌, All, IsTrue, OnOk};
ghost use Rattle.commandpaths.specs.Paths.{AreOne, AreOneFile, AreOneName};

use std::alloc::{AllocError, Global};
use std::fmt;
use std::io::ErrorKind;
use std::os::unix::fs::MetadataExt;
use std::path::Path;
use std::rt::Files;

/// A file or a folder of the machine, by its device and its number there.
#[derive(Clone, Copy, PartialEq, Eq, Debug)]
pub(crate) struct Node {
    device: u64,
    number: u64,
}

/// Where a path leads.
#[derive(Drop)]
pub(crate) struct Place {
    /// The file that is there, if the machine says which.
    pub(crate) file: Option<Node>,
    /// The folder that it is in, if the machine says which.
    pub(crate) folder: Option<Node>,
    /// Its name in the folder, or without one all names of the path.
    pub(crate) name: String,
}

impl Place {
    /// Whether this is the file that another path leads to.
    fn is_one_with(&self, other: &Place) -> bool
        ensures { IsTrue result ↔ AreOne self.now other.now }
    {
        are_one_file(self.file, other.file) || self.has_name_of(other)
    }

    /// Whether this is the name of another path, in one folder.
    fn has_name_of(&self, other: &Place) -> bool
        ensures { IsTrue result ↔ AreOneName self.now other.now }
    {
        self.folder == other.folder && self.name == other.name
    }
}

/// Whether the machine says that these are one file.
fn are_one_file(file: Option<Node>, other: Option<Node>) -> bool
    ensures { IsTrue result ↔ AreOneFile file other }
{
    match (file, other) {
        (Some(file), Some(other)) => file == other,
        _ => false,
    }
}

/// How a file is written.
#[derive(Clone, Copy, PartialEq, Eq, Debug)]
pub(crate) enum Writing {
    /// As FILE.new, which becomes FILE, or to a device itself.
    Anew,
    /// So, of a file alone.
    Whole,
    /// So, and what was FILE may become FILE.old.
    Aside,
    /// So, and the kept values beside it are FILE.keep, and may become FILE.old.keep.
    AsideKept,
    /// Behind what is there, and FILE becomes FILE.1, and so on.
    Behind,
}

/// What stands behind the path and a dot in the names of the files beside one that is written
/// whole.
const BESIDE_WHOLE: &[&str] = &["new"];

/// So, of one that may be put aside.
const BESIDE_ASIDE: &[&str] = &["new", "old"];

/// So, of one beside which values are kept.
const BESIDE_KEPT: &[&str] = &["new", "old", "keep", "keep.new", "old.keep"];

/// So, of a log.
const BESIDE_LOG: &[&str] = &["1", "2", "3", "4", "5", "6", "7", "8", "9"];

impl Writing {
    /// The endings of the files beside a path that are written with it.
    fn endings(self) -> &'static [&'static str] {
        match self {
            Writing::Anew | Writing::Whole => BESIDE_WHOLE,
            Writing::Aside => BESIDE_ASIDE,
            Writing::AsideKept => BESIDE_KEPT,
            Writing::Behind => BESIDE_LOG,
        }
    }
}

/// What a command writes.
#[derive(Clone, Copy)]
pub(crate) struct Written<'a> {
    /// Where it goes, where it is asked for.
    pub(crate) path: Option<&'a str>,
    /// What goes there, as it is reported.
    pub(crate) what: &'static str,
    pub(crate) writing: Writing,
}

/// Why a command may not write to a path.
#[derive(Clone, Copy)]
pub enum Misplaced {
    /// It is one that is read.
    Read {
        what: &'static str,
    },
    /// Something else goes there.
    Taken {
        other: &'static str,
        what: &'static str,
    },
    Directory,
    /// A device, a FIFO or a socket is there.
    NoRegularFile,
    /// A link is there, which the file would replace.
    Link,
    NoFolder,
    /// A file is there that is no code file, so none goes in its place.
    NoCode,
    /// So, and it is a binding, though the command names none.
    Binding,
    /// It is `-`, which is no path of a file.
    NoFile {
        what: &'static str,
    },
}

/// Why a command may not write where it is to.
#[derive(Drop)]
pub enum PathFault {
    /// Of this path.
    At(String, Misplaced),
    Memory,
}

impl fmt::Display for PathFault {
    fn fmt<W: fmt::Write>(&self, f: &mut fmt::Formatter<W>) -> fmt::Result {
        let PathFault::At(path, why) = self else {
            return f.write_str("no memory");
        };
        let (before, behind) = match why {
            Misplaced::Read { .. } => ("error: '", "' is read"),
            Misplaced::Taken { .. } => ("error: '", "' is for "),
            Misplaced::Directory => ("error: '", "' is a directory"),
            Misplaced::NoRegularFile => ("error: '", "' is no regular file"),
            Misplaced::Link => ("error: '", "' is a link"),
            Misplaced::NoFile { .. } => ("error: '", "' is no file"),
            Misplaced::NoFolder => ("error: the folder of '", "' is not there"),
            Misplaced::NoCode => ("error: '", "' is no code file"),
            Misplaced::Binding => ("error: '", "' seems to be the binding"),
        };
        write!(f, "{before}{path}{behind}")?;
        match why {
            Misplaced::Read { what } | Misplaced::NoFile { what } => write!(
                f,
                ", so {what} can't go there"
            ),
            Misplaced::Taken { other, what } => write!(f, "{other}, so {what} can't go there"),
            Misplaced::NoCode => f.write_str(", so the code file can't go there"),
            Misplaced::Binding => f.write_str(
                ", so the code file can't go there: OUT stands behind it",
            ),
            _ => Ok(()),
        }
    }
}

impl From<AllocError> for PathFault {
    fn from(_refused: AllocError) -> Self {
        PathFault::Memory
    }
}

/// A place that is read, or to which this goes.
#[derive(Drop)]
struct Held {
    place: Place,
    /// What goes there; nothing does where it is read.
    what: Option<&'static str>,
}

/// Whether a command that reads these paths may write those, each of which is to be a regular file
/// or to become one.
///
/// # Errors
///
/// The first path that it may not write, and why; or the allocator is out of memory.
pub(crate) fn check_paths<R: Files>(
    rt: &R,
    alloc: Global,
    reads: &[&str],
    writes: &[Written],
) -> Result<(), PathFault> {
    let mut held = Vec::new(alloc);
    for path in reads {
        let place = place_of(rt, alloc, path)?;
        add(&mut held, place, None)?;
    }
    for written in writes {
        if let Some(path) = written.path {
            check_written(rt, alloc, &mut held, path, written)?;
        }
    }
    Ok(())
}

/// Adds the places that are written for a path to those that are held, if none of them is one of
/// those and a regular file may be there.
///
/// # Errors
///
/// One is held, or no regular file may be there; or the allocator is out of memory.
fn check_written<R: Files>(
    rt: &R,
    alloc: Global,
    held: &mut Vec<Held>,
    path: &str,
    written: &Written,
) -> Result<(), PathFault> {
    if path == "-" {
        return Err(fault_at(alloc, path, Misplaced::NoFile { what: written.what }));
    }
    hold(alloc, held, place_of(rt, alloc, path)?, path, written.what)?;
    if written.writing != Writing::Anew {
        if let Err(why) = check_kind(rt, path, written.writing) {
            return Err(fault_at(alloc, path, why));
        }
    }
    for ending in written.writing.endings() {
        let name = format!(in alloc; "{path}.{ending}")?;
        hold(
            alloc,
            held,
            entry_of(rt, alloc, &name)?,
            &name,
            written.what,
        )?;
    }
    Ok(())
}

/// Adds a place that is written to those that are held, if it is none of them.
///
/// # Errors
///
/// It is one of them, or the allocator is out of memory.
fn hold(
    alloc: Global,
    held: &mut Vec<Held>,
    place: Place,
    path: &str,
    what: &'static str,
) -> Result<(), PathFault> {
    if let Err(why) = check_free(held, &place, what) {
        return Err(fault_at(alloc, path, why));
    }
    Ok(add(held, place, Some(what))?)
}

/// Adds a place to those that are held.
///
/// # Errors
///
/// The allocator is out of memory.
fn add(held: &mut Vec<Held>, place: Place, what: Option<&'static str>) -> Result<(), AllocError> {
    held.push(Held { place, what })?;
    Ok(())
}

/// Why a command may not write to a path.
pub(crate) fn fault_at(alloc: Global, path: &str, why: Misplaced) -> PathFault {
    match String::from_str(alloc, path) {
        Ok(path) => PathFault::At(path, why),
        Err(_) => PathFault::Memory,
    }
}

/// Whether a place is none of these.
///
/// # Errors
///
/// It is one that is read, or one to which something else goes.
fn check_free(held: &[Held], place: &Place, what: &'static str) -> Result<(), Misplaced>
    ensures free { OnOk result (All (λ held. ¬ (AreOne held.place place.now)) held.now) }
{
    let Some(held) = held.iter().find(|held| held.place.is_one_with(place)) else {
        return Ok(());
    };
    match held.what {
        Some(other) => Err(Misplaced::Taken { other, what }),
        None => Err(Misplaced::Read { what }),
    }
}

/// Whether a regular file is at a path, or may come there.
///
/// # Errors
///
/// A directory or a device is there, or a link that a file would replace, or no folder for it.
fn check_kind<R: Files>(rt: &R, path: &str, writing: Writing) -> Result<(), Misplaced> {
    if writing != Writing::Behind && is_link(rt, path) {
        return Err(Misplaced::Link);
    }
    match rt.metadata(path) {
        Ok(there) if there.is_file() => Ok(()),
        Ok(there) if there.is_dir() => Err(Misplaced::Directory),
        Ok(_) => Err(Misplaced::NoRegularFile),
        Err(_) if is_missing(rt, folder_of(path)) => Err(Misplaced::NoFolder),
        // Whatever else it is, it is tried again.
        Err(_) => Ok(()),
    }
}

/// Whether a link is at a path.
fn is_link<R: Files>(rt: &R, path: &str) -> bool {
    match rt.symlink_metadata(path) {
        Ok(there) => there.is_symlink(),
        Err(_) => false,
    }
}

/// Whether nothing is at a path.
fn is_missing<R: Files>(rt: &R, path: &str) -> bool {
    match rt.metadata(path) {
        Ok(_) => false,
        Err(error) => error.kind() == ErrorKind::NotFound,
    }
}

/// Where a path leads.
///
/// # Errors
///
/// The allocator is out of memory.
fn place_of<R: Files>(rt: &R, alloc: Global, path: &str) -> Result<Place, AllocError> {
    let entry = entry_of(rt, alloc, path)?;
    Ok(Place {
        file: node_at(rt, path),
        ..entry
    })
}

/// The place of a path's own name, whatever file is there.
///
/// # Errors
///
/// The allocator is out of memory.
fn entry_of<R: Files>(rt: &R, alloc: Global, path: &str) -> Result<Place, AllocError> {
    let folder = node_at(rt, folder_of(path));
    let name = match (folder, Path::new(path).file_name()) {
        (Some(_), Some(name)) => String::from_str(alloc, name)?,
        _ => plain(alloc, path)?,
    };
    Ok(Place {
        file: None,
        folder,
        name,
    })
}

/// The file or folder at a path, if the machine says which.
fn node_at<R: Files>(rt: &R, path: &str) -> Option<Node> {
    let there = rt.metadata(path).ok()?;
    let (device, number) = (there.dev(), there.ino());
    (number != 0).then_some(Node { device, number })
}

/// The folder of a path.
fn folder_of(path: &str) -> &str {
    match Path::new(path).parent() {
        Some(folder) if !folder.as_str().is_empty() => folder.as_str(),
        _ => ".",
    }
}

/// A path without the names that lead nowhere: `.` and empty ones.
///
/// # Errors
///
/// The allocator is out of memory.
fn plain(alloc: Global, path: &str) -> Result<String, AllocError> {
    let mut plain = String::new(alloc);
    if path.starts_with('/') {
        plain.push('/')?;
    }
    for name in path.split('/') {
        if !name.is_empty() && name != "." {
            plain.push_str(name)?;
            plain.push('/')?;
        }
    }
    Ok(plain)
}
