//! The faults of files of lines.

use std::alloc::AllocFailed;
use std::error::Error;
use std::fmt;
use std::marker::{Model, PhantomData};

/// What a file of lines says: a kind of file, whose faults have a word of their own.
pub trait FileKind {
    ghost use Rattle.std.specs.Prelude.{◌≡◌, ℕ, List};

    ghost word: { List ℕ };

    /// The word with which its faults are printed.
    fn word() -> &'static str
        ensures { result.now ≡ word };
}

/// What is wrong with a line of a file.
#[derive(Clone, Copy, PartialEq, Eq, Debug)]
pub enum LineCause {
    /// It is no line of its kind of file, or cannot stand after those before it, or the file lacks
    /// a line.
    BadLine,
    /// There are more than [`limits::MOST_BYTES`] bytes.
    TooLong,
}

impl LineCause {
    ghost use Rattle.std.specs.Prelude.{◌≡◌};
    ghost use Rattle.wordlines.specs.LineFaults.{cause_number};

    /// The number of the cause. It is not printed.
    pub fn number(self) -> u8
        ensures { result ≡ cause_number self }
    {
        match self {
            LineCause::BadLine => 2,
            LineCause::TooLong => 3,
        }
    }
}

/// The number of a line, counted from 1, of a file of what `Of` is. Contracts see the number alone.
#[derive_where(Clone, Copy, Debug, PartialEq, Eq)]
pub struct LineNumber<Of> {
    number: usize,
    of: PhantomData<Of>,
}

impl<Of> Model for LineNumber<Of> {
    ghost use Rattle.std.specs.Prelude.{ℕ};

    ghost Value = { ℕ };

    ghost view = { λ line. line.number };

    ghost inverse = { λ line. record { number = line; of = record {} } };
}

impl<Of> LineNumber<Of> {
    ghost use Rattle.std.specs.Prelude.{◌≡◌};

    /// The line of this number.
    fn new(number: usize) -> Self
        ensures { result ≡ number }
    {
        LineNumber {
            number,
            of: PhantomData,
        }
    }

    /// Its number.
    pub fn number(&self) -> usize
        ensures { result ≡ self.now }
    {
        self.number
    }
}

/// Why bytes are no file of what `Of` is.
#[derive(Drop)]
#[derive_where(Debug)]
pub enum LineFault<Of> {
    /// Memory was refused.
    Memory,
    /// The line that is at fault.
    At {
        line: LineNumber<Of>,
        cause: LineCause,
    },
}

impl<Of> LineFault<Of> {
    ghost use Rattle.std.specs.Prelude.{◌≡◌};
    ghost use Rattle.wordlines.specs.LineFaults.{fault_number};

    /// The line of this number is bad.
    pub fn bad_line(number: usize) -> Self
        ensures { result ≡ LineFault.At number LineCause.BadLine }
    {
        LineFault::At {
            line: LineNumber::new(number),
            cause: LineCause::BadLine,
        }
    }

    /// There are too many bytes, which is reported at line 1.
    pub fn too_long() -> Self
        ensures { result ≡ LineFault.At 1 LineCause.TooLong }
    {
        LineFault::At {
            line: LineNumber::new(1),
            cause: LineCause::TooLong,
        }
    }

    /// The number of the fault: 1 where memory was refused, else that of the cause. It is not
    /// printed.
    pub fn number(&self) -> u8
        ensures { result ≡ fault_number self.now }
    {
        match self {
            LineFault::Memory => 1,
            LineFault::At { cause, .. } => cause.number(),
        }
    }
}

impl<Of: FileKind> fmt::Display for LineFault<Of> {
    ghost use Rattle.std.specs.Prelude.{Some};
    ghost use Rattle.wordlines.specs.LineFaults.{printed_fault};

    ghost output = { λ fault. Some (printed_fault Of.word fault) };

    fn fmt<W: fmt::Write>(&self, f: &mut fmt::Formatter<W>) -> fmt::Result {
        match self {
            LineFault::Memory => write!(f, "no memory"),
            LineFault::At { line, .. } => write!(f, "{} fault at {}", Of::word(), line.number()),
        }
    }
}

impl<Of: FileKind> Error for LineFault<Of> {}

impl<T: Drop, Of> From<AllocFailed<T>> for LineFault<Of> {
    ghost use Rattle.std.specs.Prelude.{◌≡◌};
    ghost use Rattle.wordlines.specs.declared.fault.LineFault.TheVariants.{Memory};

    ghost from_gives = { λ _ fault. fault ≡ Memory };

    fn from(_refused: AllocFailed<T>) -> Self {
        LineFault::Memory
    }
}
