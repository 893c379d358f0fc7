//! Why the driving of a plant halts.

use plant::{CallError, CallRefusal};
use std::alloc::AllocError;
use std::io;

/// Why the driving of a plant halts.
#[derive(Drop)]
pub enum Halt {
    /// The plant refused a call.
    Refused(CallRefusal),
    /// 1: the allocator is out of memory.
    Memory,
    /// An observer could not keep what it was told.
    Unwritten(io::Error),
}

impl From<CallRefusal> for Halt {
    ghost use Rattle.std.specs.Prelude.{◌≡◌};
    ghost use Rattle.plantdriving.specs.declared.halt.Halt.TheVariants.{Refused};

    ghost from_gives = { λ refusal halt. halt ≡ Refused refusal };

    fn from(refusal: CallRefusal) -> Self {
        Halt::Refused(refusal)
    }
}

impl From<CallError> for Halt {
    ghost use Rattle.plantdriving.specs.Halts.{IsHaltOf};

    ghost from_gives = { λ error halt. IsHaltOf error halt };

    fn from(error: CallError) -> Self {
        match error {
            CallError::Refused(refusal) => Halt::Refused(refusal),
            CallError::Memory => Halt::Memory,
        }
    }
}

impl From<AllocError> for Halt {
    ghost use Rattle.std.specs.Prelude.{◌≡◌};
    ghost use Rattle.plantdriving.specs.declared.halt.Halt.TheVariants.{Memory};

    ghost from_gives = { λ _ halt. halt ≡ Memory };

    fn from(_refused: AllocError) -> Self {
        Halt::Memory
    }
}

impl From<io::Error> for Halt {
    ghost use Rattle.std.specs.Prelude.{◌≡◌};
    ghost use Rattle.plantdriving.specs.declared.halt.Halt.TheVariants.{Unwritten};

    ghost from_gives = { λ error halt. halt ≡ Unwritten error };

    fn from(error: io::Error) -> Self {
        Halt::Unwritten(error)
    }
}
