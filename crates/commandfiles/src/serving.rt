//! Serving an inquiry: its files are read, and its answer is printed.

ghost use Rattle.std.specs.Prelude.{IfErr, IfOk, IsSomeAnd, OnOk, option_map};
ghost use Rattle.std.specs.Option.{option_copied};
ghost use Rattle.commandfiles.specs.Served.{IsGiven, IsNotRead, IsNotWritten, IsServed};
ghost use Rattle.commandfiles.specs.Served.{IsUnserved};

use crate::hints::{FileRole, ReadFiles, tell_hint};
use crate::reading::{Disk, DiskFault};
use crate::report;
use commandoptions::Inquiry;
use exitstatus::ExitStatus;
use std::alloc::Global;
use std::io;
use std::io::Write;
use textanswers::{Answer, respond};

/// Why a command is not served.
#[derive(Drop)]
pub enum Unserved<'a> {
    /// A file was not read.
    NotRead { path: &'a str, why: DiskFault },
    /// A file was not written.
    NotWritten { path: &'a str, why: DiskFault },
    /// The answer was not printed.
    NotPrinted(io::Error),
}

impl From<io::Error> for Unserved<'_> {
    ghost use Rattle.std.specs.Prelude.{◌≡◌};
    ghost use Rattle.commandfiles.specs.declared.serving.Unserved.TheVariants.{NotPrinted};

    ghost from_gives = { λ error unserved. unserved ≡ NotPrinted error };

    fn from(error: io::Error) -> Self {
        Unserved::NotPrinted(error)
    }
}

/// Reads the files that the inquiry names, the binding before the text, and prints the answer;
/// the writer, which then has every line, and how the program ends. `complaints` gets which tasks
/// there are, where one is not, or which file has the fault.
///
/// # Errors
///
/// The first file that is not read, or the writer's error.
pub fn serve<'a, D: Disk, W: Write + Drop, E: Write>(
    alloc: Global,
    disk: &D,
    to: W,
    complaints: &mut E,
    inquiry: Inquiry<'a>,
) -> Result<(W, ExitStatus), Unserved<'a>>
    ensures served { IfOk result (λ done. IsServed (D.gives disk.now) inquiry.entry
        (W.contents to) (W.contents done.0) done.1) }
    ensures unserved { IfErr result
        (IsUnserved (D.gives disk.now) (D.fails disk.now) inquiry.entry) }
{
    let files = inquiry.files();
    let binding = named_at(alloc, disk, files.binding)?;
    let text = bytes_at(alloc, disk, files.text)?;
    let answer = respond(alloc, inquiry, binding.as_deref(), &text);
    let done = report::print_answer(alloc, to, complaints, &answer)?;
    let read = ReadFiles::of_files(files, &binding, &text);
    tell_hint(alloc, complaints, read, place_of(&answer));
    Ok(done)
}

/// What the file is that has the fault which is answered, where one is.
fn place_of(answer: &Answer) -> Option<FileRole> {
    match answer {
        Answer::Stopped(stop) => FileRole::of_stop(stop),
        Answer::Checked(_) | Answer::Stepped(_) => None,
    }
}

/// The bytes that the disk gives for a path, where one is named.
pub fn named_at<'a, D: Disk>(
    alloc: Global,
    disk: &D,
    path: Option<&'a str>,
) -> Result<Option<Vec<u8>>, Unserved<'a>>
    ensures given { IfOk result (λ read. IsGiven (D.gives disk.now) (option_copied path.entry)
        (option_map (λ bytes. bytes.items) read)) }
    ensures not_read { IfErr result (λ unserved. IsSomeAnd (option_copied path.entry)
        (λ path. IsNotRead (D.fails disk.now) path unserved)) }
{
    match path {
        Some(path) => Ok(Some(bytes_at(alloc, disk, path)?)),
        None => Ok(None),
    }
}

/// The bytes that the disk gives for a path.
pub fn bytes_at<'a, D: Disk>(
    alloc: Global,
    disk: &D,
    path: &'a str,
) -> Result<Vec<u8>, Unserved<'a>>
    ensures given { IfOk result (λ bytes. D.gives disk.now path.now bytes.items) }
    ensures not_read { IfErr result (IsNotRead (D.fails disk.now) path.now) }
{
    match disk.read(alloc, path) {
        Ok(bytes) => Ok(bytes),
        Err(why) => Err(Unserved::NotRead { path, why }),
    }
}

/// Writes the file at a path.
pub fn write_at<'a, D: Disk>(
    alloc: Global,
    disk: &D,
    path: &'a str,
    bytes: &[u8],
) -> Result<(), Unserved<'a>>
    ensures written { OnOk result (D.takes disk.now path.now bytes.now) }
    ensures not_written { IfErr result (IsNotWritten (D.refuses disk.now) path.now) }
{
    match disk.write(alloc, path, bytes) {
        Ok(()) => Ok(()),
        Err(why) => Err(Unserved::NotWritten { path, why }),
    }
}
