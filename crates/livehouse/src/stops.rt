//! Why a building does not run.

use crate::lineup::LineupFault;
use plant::StartFault;
use std::alloc::AllocError;
use std::fmt;

/// Why a building does not run. Nothing was sent on any bus.
#[derive(Clone, Copy)]
pub enum LiveStop {
    /// The words of `--line` are not the lines of the binding's buses.
    Lineup(LineupFault),
    /// The machine's clock cannot be read.
    NoClock,
    /// There is a file at the path that ends the building, before its first moment.
    Ended,
    /// The plant does not start, or the allocator is out of memory.
    Start(StartFault),
}

impl fmt::Display for LiveStop {
    fn fmt<W: fmt::Write>(&self, f: &mut fmt::Formatter<W>) -> fmt::Result {
        match self {
            LiveStop::Lineup(fault) => write!(f, "error: {fault}"),
            LiveStop::NoClock => write!(f, "cannot read the clock"),
            LiveStop::Ended => write!(f, "the file of --stop is there: nothing begins"),
            LiveStop::Start(fault) => write!(f, "{fault}"),
        }
    }
}

impl From<AllocError> for LiveStop {
    ghost use Rattle.std.specs.Prelude.{◌≡◌};
    ghost use Rattle.plant.specs.declared.start_fault.StartFault.TheVariants.{Memory};
    ghost use Rattle.livehouse.specs.declared.stops.LiveStop.TheVariants.{Start};

    ghost from_gives = { λ _ stop. stop ≡ Start Memory };

    fn from(_refused: AllocError) -> Self {
        LiveStop::Start(StartFault::Memory)
    }
}
