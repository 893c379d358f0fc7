//! Why a line is down.

use crate::troubles::{LineBytes, Trouble};
use std::fmt;
use std::io::ErrorKind;

/// Why a line is down.
#[derive(Drop)]
pub enum Reason {
    /// It is not open yet.
    NotYet,
    /// It cannot be opened.
    Unopened(ErrorKind),
    /// A regular file is at its path, on which nothing answers.
    RegularFile,
    /// Its interface does not answer the greeting.
    Ungreeted,
    /// The greeting came back, and nothing else: the device is not set for the line.
    Echoed,
    /// The answers of one transaction took longer than this number of milliseconds.
    Silent(u64),
    /// The building's end was asked for, and it still has events, more than it is to keep.
    SpeaksOn,
    /// The other end is gone.
    Closed,
    /// The interface answered `fault`.
    Fault,
    /// The interface answered this line, which is no answer to what was asked.
    Answered(LineBytes),
}

/// What kind of reason it is: two of one kind differ in a number or in an answer at most.
#[derive(Clone, Copy, PartialEq, Eq)]
pub(crate) enum ReasonKind {
    NotYet,
    NoFile,
    Denied,
    Memory,
    Busy,
    Directory,
    Unopened,
    RegularFile,
    Ungreeted,
    Echoed,
    Silent,
    SpeaksOn,
    Closed,
    Fault,
    Answered,
}

impl Reason {
    /// What kind of reason it is.
    pub(crate) fn kind(&self) -> ReasonKind {
        match self {
            Reason::NotYet => ReasonKind::NotYet,
            Reason::Unopened(kind) => unopened_kind(*kind),
            Reason::RegularFile => ReasonKind::RegularFile,
            Reason::Ungreeted => ReasonKind::Ungreeted,
            Reason::Echoed => ReasonKind::Echoed,
            Reason::Silent(_) => ReasonKind::Silent,
            Reason::SpeaksOn => ReasonKind::SpeaksOn,
            Reason::Closed => ReasonKind::Closed,
            Reason::Fault => ReasonKind::Fault,
            Reason::Answered(_) => ReasonKind::Answered,
        }
    }

    /// Why a line is down on which the last request came to nothing, with this patience in
    /// milliseconds.
    pub(crate) fn of(trouble: &Trouble, patience: u64) -> Reason {
        match trouble {
            Trouble::Absent => Reason::NotYet,
            Trouble::Silent => Reason::Silent(patience),
            Trouble::Closed => Reason::Closed,
            Trouble::Echoed => Reason::Echoed,
            Trouble::Fault => Reason::Fault,
            Trouble::Answered(line) => Reason::Answered(copy_of(line)),
        }
    }
}

/// The same line.
fn copy_of(line: &LineBytes) -> LineBytes {
    let mut copy = LineBytes::new();
    for byte in line.as_slice() {
        if copy.try_push(*byte).is_err() {
            return copy;
        }
    }
    copy
}

impl fmt::Display for Reason {
    fn fmt<W: fmt::Write>(&self, f: &mut fmt::Formatter<W>) -> fmt::Result {
        match self {
            Reason::Unopened(kind) => f.write_str(why_unopened(*kind)),
            Reason::Silent(millis) if millis % 1000 == 0 => {
                write!(f, "silent for {} s", millis / 1000)
            }
            Reason::Silent(millis) => write!(f, "silent for {millis} ms"),
            Reason::Answered(line) => write_answer(f, line.as_slice()),
            Reason::NotYet => f.write_str("not open yet"),
            Reason::RegularFile => f.write_str("is a regular file"),
            Reason::Ungreeted => f.write_str("answers no greeting"),
            Reason::Echoed => f.write_str("gives back what is said, set it by stty raw -echo"),
            Reason::SpeaksOn => f.write_str("still speaks at the end"),
            Reason::Closed => f.write_str("closed"),
            Reason::Fault => f.write_str("fault"),
        }
    }
}

/// What kind of reason it is where a line cannot be opened.
fn unopened_kind(kind: ErrorKind) -> ReasonKind {
    match kind {
        ErrorKind::NotFound => ReasonKind::NoFile,
        ErrorKind::PermissionDenied => ReasonKind::Denied,
        ErrorKind::OutOfMemory => ReasonKind::Memory,
        ErrorKind::ResourceBusy => ReasonKind::Busy,
        ErrorKind::IsADirectory => ReasonKind::Directory,
        _ => ReasonKind::Unopened,
    }
}

/// Why a line cannot be opened.
fn why_unopened(kind: ErrorKind) -> &'static str {
    match unopened_kind(kind) {
        ReasonKind::NoFile => "no such file",
        ReasonKind::Denied => "permission denied",
        ReasonKind::Memory => "out of memory",
        ReasonKind::Busy => "busy",
        ReasonKind::Directory => "is a directory",
        _ => "cannot be opened",
    }
}

/// What was answered, in quotes. A byte that is no printable ASCII is shown as a question mark.
fn write_answer<W: fmt::Write>(f: &mut fmt::Formatter<W>, line: &[u8]) -> fmt::Result {
    f.write_str("answered '")?;
    for byte in line {
        let shown = match *byte {
            32..=126 => char::from(*byte),
            _ => '?',
        };
        f.write_char(shown)?;
    }
    f.write_str("'")
}
