//! A machine that is held in memory: the command line's words, files, and what it prints.

ghost use Rattle.std.specs.Io.{WritesAtMost};

use std::alloc::{AllocError, Allocator, Global};
use std::cell::RefCell;
use std::env::FillError;
use std::fmt::Display;
use std::fs::{Metadata, OpenFile, OpenOptions};
use std::io;
use std::io::{Cursor, Read, Seek, SeekFrom, Write};
use std::rt::{Env, Files};

/// A file on the machine's disk.
#[derive(Drop)]
pub struct StoredFile {
    pub path: String,
    pub bytes: Vec<u8>,
}

/// Why the outputs take nothing, where they do not.
#[derive(Clone, Copy)]
pub struct Terminal {
    pub output_fails: Option<io::ErrorKind>,
    pub error_fails: Option<io::ErrorKind>,
}

impl Terminal {
    /// A terminal that takes all.
    pub const WHOLE: Terminal = Terminal {
        output_fails: None,
        error_fails: None,
    };
}

/// A machine with a command line, files and a terminal. Its file `torn` cannot be read to its end,
/// its file `starved` is neither read nor written for lack of memory, and its file `full` takes
/// nothing, since the disk is full; nor do files that are to become these, as `full.new`. Its file
/// `.` is a folder.
#[derive(Drop)]
pub struct Machine<'a> {
    pub alloc: Global,
    /// The words of the command line, without the program's name.
    pub words: &'a [Vec<u8>],
    pub files: &'a RefCell<Vec<StoredFile>>,
    pub terminal: Terminal,
    /// What was printed.
    pub printed: RefCell<Vec<u8>>,
    /// What was printed on standard error.
    pub complained: RefCell<Vec<u8>>,
}

/// What was printed, and what was printed on standard error.
#[derive(Drop)]
pub struct Output {
    pub printed: Vec<u8>,
    pub complained: Vec<u8>,
}

/// A file that is open.
#[derive(Drop)]
pub enum Page<'a> {
    /// It is read: its bytes, and how it ends.
    Read {
        bytes: Cursor<Vec<u8>>,
        end: Option<io::ErrorKind>,
    },
    /// It is written, as the file of this number among those of the disk.
    Written {
        files: &'a RefCell<Vec<StoredFile>>,
        number: usize,
    },
    /// It takes nothing, since the disk is full.
    Full,
}

impl<'a> Machine<'a> {
    /// A machine whose terminal is empty.
    pub fn new(
        alloc: Global,
        words: &'a [Vec<u8>],
        files: &'a RefCell<Vec<StoredFile>>,
        terminal: Terminal,
    ) -> Machine<'a> {
        Machine {
            alloc,
            words,
            files,
            terminal,
            printed: RefCell::new(Vec::new(alloc)),
            complained: RefCell::new(Vec::new(alloc)),
        }
    }

    /// What was printed.
    pub fn into_output(self) -> Output {
        let Machine {
            printed,
            complained,
            ..
        } = self;
        Output {
            printed: printed.into_inner(),
            complained: complained.into_inner(),
        }
    }

    /// Prints a value and an end on standard output, unless it fails.
    fn print_value<D: Display + Drop>(&self, value: D, end: &str) -> io::Result<()> {
        let text = format!(in self.alloc; "{value}{end}")?;
        add(&self.printed, self.terminal.output_fails, text.as_bytes())
    }

    /// Prints a value and an end on standard error, unless it fails.
    fn complain<D: Display + Drop>(&self, value: D, end: &str) -> io::Result<()> {
        let text = format!(in self.alloc; "{value}{end}")?;
        add(&self.complained, self.terminal.error_fails, text.as_bytes())
    }
}

impl<'a> Page<'a> {
    /// A file that ends with an error after its first line.
    fn broken(alloc: Global, end: io::ErrorKind) -> io::Result<Page<'a>> {
        Ok(Page::Read {
            bytes: Cursor::new(Vec::from_slice(alloc, b"PROGRAM p\n")?),
            end: Some(end),
        })
    }

    /// The file at a path, to be read.
    fn of(alloc: Global, files: &'a RefCell<Vec<StoredFile>>, path: &str) -> io::Result<Page<'a>> {
        match bytes_at(alloc, files, path)? {
            Some(bytes) => Ok(Page::Read {
                bytes: Cursor::new(bytes),
                end: None,
            }),
            None => Err(io::Error::from(io::ErrorKind::NotFound)),
        }
    }

    /// The file at a path, to be written: an empty one, in place of one that is there.
    fn empty(
        alloc: Global,
        files: &'a RefCell<Vec<StoredFile>>,
        path: &str,
    ) -> io::Result<Page<'a>> {
        let file = StoredFile {
            path: String::from_str(alloc, path)?,
            bytes: Vec::new(alloc),
        };
        Ok(Page::Written {
            files,
            number: place(files, file)?,
        })
    }
}

/// The bytes of the file at a path, where there is one.
pub(crate) fn bytes_at(
    alloc: Global,
    files: &RefCell<Vec<StoredFile>>,
    path: &str,
) -> Result<Option<Vec<u8>>, AllocError> {
    match files.try_borrow() {
        Ok(files) => bytes_among(alloc, &files, path),
        Err(_) => Ok(None),
    }
}

/// The bytes of the file at a path, where there is one among these.
fn bytes_among(
    alloc: Global,
    files: &[StoredFile],
    path: &str,
) -> Result<Option<Vec<u8>>, AllocError> {
    match files.iter().find(|file| file.path.as_str() == path) {
        Some(file) => Ok(Some(Vec::from_slice(alloc, &file.bytes)?)),
        None => Ok(None),
    }
}

/// Puts a file on the disk, in place of one at the same path; its number there.
fn place(files: &RefCell<Vec<StoredFile>>, file: StoredFile) -> io::Result<usize> {
    match files.try_borrow_mut() {
        Ok(mut files) => Ok(place_among(&mut files, file)?),
        Err(_) => Err(io::Error::from(io::ErrorKind::Other)),
    }
}

/// Puts a file among these, in place of one at the same path; its number there.
pub(crate) fn place_among(
    files: &mut Vec<StoredFile>,
    file: StoredFile,
) -> Result<usize, AllocError> {
    let path = file.path.as_str();
    files.retain(|stored| stored.path.as_str() != path);
    let number = files.len();
    files.push(file)?;
    Ok(number)
}

/// Takes the file at a path from these.
///
/// # Errors
///
/// There is none.
fn remove(files: &mut Vec<StoredFile>, path: &str) -> io::Result<()> {
    let many = files.len();
    files.retain(|stored| stored.path.as_str() != path);
    if files.len() == many {
        return Err(io::Error::from(io::ErrorKind::NotFound));
    }
    Ok(())
}

/// Adds bytes to the file of a number.
fn extend(files: &RefCell<Vec<StoredFile>>, number: usize, bytes: &[u8]) -> io::Result<usize>
    ensures { WritesAtMost result bytes.now }
{
    let Ok(mut files) = files.try_borrow_mut() else {
        return Err(io::Error::from(io::ErrorKind::Other));
    };
    match files.get_mut(number) {
        Some(file) => {
            file.bytes.extend_from_slice(bytes)?;
            Ok(bytes.len())
        }
        None => Err(io::Error::from(io::ErrorKind::Other)),
    }
}

/// Adds bytes to what an output has shown, unless it fails.
fn add(on: &RefCell<Vec<u8>>, fails: Option<io::ErrorKind>, bytes: &[u8]) -> io::Result<()> {
    if let Some(kind) = fails {
        return Err(io::Error::from(kind));
    }
    match on.try_borrow_mut() {
        Ok(mut shown) => {
            shown.extend_from_slice(bytes)?;
            Ok(())
        }
        Err(_) => Err(io::Error::from(io::ErrorKind::Other)),
    }
}

impl Alloc for Machine<'_> {
    type A = Global;

    fn alloc(&self) -> Global {
        self.alloc
    }
}

impl Env for Machine<'_> {
    fn arg(&self, i: usize, buf: &mut [u8]) -> Result<usize, FillError> {
        let word = match i {
            0 => "dalictl".as_bytes(),
            _ => match self.words.get(i - 1) {
                None => return Err(FillError::NotPresent),
                Some(word) => word.as_slice(),
            },
        };
        if word.len() > buf.len() {
            return Err(FillError::TooLong);
        }
        buf[..word.len()].copy_from_slice(word);
        Ok(word.len())
    }

    fn var(&self, _name: &str, _buf: &mut [u8]) -> Result<usize, FillError> {
        Err(FillError::NotPresent)
    }

    fn var_at(&self, _i: usize, _buf: &mut [u8]) -> Result<usize, FillError> {
        Err(FillError::NotPresent)
    }
}

impl Print for Machine<'_> {
    fn print<D: Display + Drop>(&self, value: D) -> io::Result<()> {
        self.print_value(value, "")
    }

    fn println<D: Display + Drop>(&self, value: D) -> io::Result<()> {
        self.print_value(value, "\n")
    }

    fn write_all(&self, bytes: &[u8]) -> io::Result<()> {
        add(&self.printed, self.terminal.output_fails, bytes)
    }
}

impl Eprint for Machine<'_> {
    fn eprint<D: Display + Drop>(&self, value: D) -> io::Result<()> {
        self.complain(value, "")
    }

    fn eprintln<D: Display + Drop>(&self, value: D) -> io::Result<()> {
        self.complain(value, "\n")
    }
}

/// What this machine does not do.
fn unsupported<T>() -> io::Result<T> {
    Err(io::Error::from(io::ErrorKind::Unsupported))
}

impl<'a> Files for Machine<'a> {
    type File = Page<'a>;

    type Dir = Page<'a>;

    fn open_file(&self, how: &OpenOptions, path: &str) -> io::Result<Page<'a>> {
        match (path, how.asks_write()) {
            ("torn", false) => Page::broken(self.alloc, io::ErrorKind::Other),
            ("starved", false) => Page::broken(self.alloc, io::ErrorKind::OutOfMemory),
            (".", false) => Page::broken(self.alloc, io::ErrorKind::IsADirectory),
            ("starved" | "starved.new", true) => Err(io::Error::from(io::ErrorKind::OutOfMemory)),
            ("full" | "full.new", true) => Ok(Page::Full),
            (_, false) => Page::of(self.alloc, self.files, path),
            (_, true) => Page::empty(self.alloc, self.files, path),
        }
    }

    fn open_dir(&self, _path: &str) -> io::Result<Page<'a>> {
        unsupported()
    }

    fn metadata(&self, _path: &str) -> io::Result<Metadata> {
        unsupported()
    }

    fn symlink_metadata(&self, _path: &str) -> io::Result<Metadata> {
        unsupported()
    }

    fn copy(&self, _from: &str, _to: &str) -> io::Result<u64> {
        unsupported()
    }

    fn rename(&self, from: &str, to: &str) -> io::Result<()> {
        let Some(bytes) = bytes_at(self.alloc, self.files, from)? else {
            return Err(io::Error::from(io::ErrorKind::NotFound));
        };
        let path = String::from_str(self.alloc, to)?;
        place(self.files, StoredFile { path, bytes })?;
        self.remove_file(from)
    }

    fn remove_file(&self, path: &str) -> io::Result<()> {
        match self.files.try_borrow_mut() {
            Ok(mut files) => remove(&mut files, path),
            Err(_) => Err(io::Error::from(io::ErrorKind::Other)),
        }
    }

    fn create_dir(&self, _path: &str) -> io::Result<()> {
        unsupported()
    }

    fn remove_dir(&self, _path: &str) -> io::Result<()> {
        unsupported()
    }

    fn remove_dir_all<B: Allocator>(&self, _alloc: B, _path: &str) -> io::Result<()> {
        unsupported()
    }
}

impl Read for Page<'_> {
    fn read(&mut self, buf: &mut [u8]) -> io::Result<usize> {
        let Page::Read { bytes, end } = self else {
            return Err(io::Error::from(io::ErrorKind::Unsupported));
        };
        let many = bytes.read(buf)?;
        match end {
            Some(kind) if many == 0 => Err(io::Error::from(*kind)),
            _ => Ok(many),
        }
    }
}

impl Write for Page<'_> {
    fn write(&mut self, bytes: &[u8]) -> io::Result<usize> {
        match self {
            Page::Written { files, number } => extend(files, *number, bytes),
            Page::Full => Err(io::Error::from(io::ErrorKind::StorageFull)),
            Page::Read { .. } => Err(io::Error::from(io::ErrorKind::Unsupported)),
        }
    }

    fn flush(&mut self) -> io::Result<()> {
        Ok(())
    }
}

impl Seek for Page<'_> {
    fn seek(&mut self, _to: SeekFrom) -> io::Result<u64> {
        unsupported()
    }
}

impl OpenFile for Page<'_> {
    fn metadata(&self) -> io::Result<Metadata> {
        unsupported()
    }

    fn set_len(&self, _size: u64) -> io::Result<()> {
        unsupported()
    }

    fn sync_all(&self) -> io::Result<()> {
        Ok(())
    }

    fn sync_data(&self) -> io::Result<()> {
        unsupported()
    }
}
