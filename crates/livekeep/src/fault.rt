//! Why bytes are no file of kept values.

use crate::kept::Kept;
use std::alloc::AllocError;
use std::error::Error;
use std::fmt;
use wordlines::LineFault;

/// Why bytes are no file of kept values.
#[derive(Clone, Copy, PartialEq, Eq, Debug)]
pub enum KeptFault {
    /// The allocator is out of memory.
    Memory,
    /// There are no bytes.
    Empty,
    /// A line is bad, a name comes twice, the end is missing or says another number of values, the
    /// check sum is another, or there are more than [`limits::MOST_BYTES`] bytes.
    Torn,
}

impl fmt::Display for KeptFault {
    fn fmt<W: fmt::Write>(&self, f: &mut fmt::Formatter<W>) -> fmt::Result {
        match self {
            KeptFault::Memory => write!(f, "no memory"),
            KeptFault::Empty => write!(f, "empty"),
            KeptFault::Torn => write!(f, "torn"),
        }
    }
}

impl Error for KeptFault {}

impl From<AllocError> for KeptFault {
    ghost use Rattle.std.specs.Prelude.{◌≡◌};
    ghost use Rattle.livekeep.specs.declared.fault.KeptFault.TheVariants.{Memory};

    ghost from_gives = { λ _ fault. fault ≡ Memory };

    fn from(_refused: AllocError) -> Self {
        KeptFault::Memory
    }
}

impl From<LineFault<Kept>> for KeptFault {
    ghost use Rattle.std.specs.Prelude.{◌≡◌};
    ghost use Rattle.livekeep.specs.Faults.{of_line};

    ghost from_gives = { λ fault own. own ≡ of_line fault };

    fn from(fault: LineFault<Kept>) -> Self {
        match fault {
            LineFault::Memory => KeptFault::Memory,
            LineFault::At { .. } => KeptFault::Torn,
        }
    }
}
