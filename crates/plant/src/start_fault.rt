//! Why a plant does not start on its buses.

use crate::open_fault::OpenFault;
use std::alloc::AllocError;
use std::fmt;

/// Why a plant does not start on its buses.
#[derive(Clone, Copy)]
pub enum StartFault {
    /// The allocator had no memory for the buses.
    Memory,
    /// The plant was not opened.
    Plant(OpenFault),
}

impl fmt::Display for StartFault {
    fn fmt<W: fmt::Write>(&self, f: &mut fmt::Formatter<W>) -> fmt::Result {
        match self {
            StartFault::Memory => write!(f, "no memory"),
            StartFault::Plant(OpenFault::Memory) => write!(f, "cannot start 1"),
            StartFault::Plant(OpenFault::BadCount) => write!(f, "cannot start 2"),
            StartFault::Plant(OpenFault::Limit) => write!(f, "cannot start 7"),
        }
    }
}

impl From<AllocError> for StartFault {
    ghost use Rattle.std.specs.Prelude.{◌≡◌};
    ghost use Rattle.plant.specs.declared.start_fault.StartFault.TheVariants.{Memory};

    ghost from_gives = { λ _ fault. fault ≡ Memory };

    fn from(_refused: AllocError) -> Self {
        StartFault::Memory
    }
}
