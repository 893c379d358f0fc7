//! Why bytes are no code file.

ghost use Rattle.std.specs.Prelude.{◌≡◌, Some};
ghost use Rattle.ilcodefile.specs.Faults.{cause_number, fault_number};

use std::alloc::AllocError;
use std::fmt;

/// What is wrong with bytes that are no code file.
#[derive(Clone, Copy, PartialEq, Eq, Debug)]
pub enum FileCause {
    /// They do not begin as a code file.
    Magic,
    /// They end before the file does.
    Cut,
    /// Bytes follow the file.
    Trailing,
    /// A field has a value that it never has.
    BadField,
    /// A count is beyond its limit.
    TooMany,
}

impl FileCause {
    /// The number by which the cause is printed.
    pub fn number(self) -> u8
        ensures { result ≡ cause_number self }
    {
        match self {
            FileCause::Magic => 2,
            FileCause::Cut => 3,
            FileCause::Trailing => 4,
            FileCause::BadField => 5,
            FileCause::TooMany => 6,
        }
    }
}

/// Why bytes were not read as a code.
#[derive(Clone, Copy, PartialEq, Eq, Debug)]
pub enum FileFault {
    /// The allocator is out of memory.
    Memory,
    /// The first fault of the bytes.
    Of(FileCause),
}

impl FileFault {
    /// The number by which the fault is printed.
    pub fn number(self) -> u8
        ensures { result ≡ fault_number self }
    {
        match self {
            FileFault::Memory => 1,
            FileFault::Of(cause) => cause.number(),
        }
    }
}

impl From<AllocError> for FileFault {
    ghost use Rattle.std.specs.Prelude.{◌≡◌};
    ghost use Rattle.ilcodefile.specs.declared.fault.FileFault.TheVariants.{Memory};

    ghost from_gives = { λ _ fault. fault ≡ Memory };

    fn from(_error: AllocError) -> FileFault {
        FileFault::Memory
    }
}

impl fmt::Display for FileFault {
    ghost use Rattle.ilcodefile.specs.Printed.{printed};

    ghost output = { λ fault. Some (printed fault) };

    fn fmt<W: fmt::Write>(&self, f: &mut fmt::Formatter<W>) -> fmt::Result {
        match self {
            FileFault::Memory => write!(f, "no memory"),
            FileFault::Of(cause) => write!(f, "code file fault {}", cause.number()),
        }
    }
}
