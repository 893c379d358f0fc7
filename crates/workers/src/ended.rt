//! The end of a run.

use crate::bell::Bell;
use plantturns::Halt;
use std::sync::{OnceLock, OnceToken, Wait};

/// Why a run ended.
#[derive(Clone, Copy, PartialEq, Eq, Debug)]
pub enum Ended {
    /// The clock gave no moment more.
    Asked,
    /// The history has no place left beside those that are kept back.
    Limit,
    /// The allocator is out of memory.
    NoMemory,
    /// A thread could not be made.
    NoThread,
}

impl From<Halt> for Ended {
    ghost use Rattle.std.specs.Prelude.{◌≡◌};
    ghost use Rattle.workers.specs.Endings.{ended_of};

    ghost from_gives = { λ halt ended. ended ≡ ended_of halt };

    /// A worker is refused a place in the history, or memory. A gate never fails.
    fn from(halt: Halt) -> Self {
        match halt {
            Halt::Memory | Halt::Unwritten(_) => Ended::NoMemory,
            Halt::Refused(_) => Ended::Limit,
        }
    }
}

/// Shows that the end was told, and why. Whoever has one came to it by the cell of the end.
pub(crate) type ToldEnd<'e> = OnceToken<'e, Ended>;

/// Whether the end was told, and why, with the bell that wakes the workers: it rings where something
/// happened, and at the end. All workers read it.
#[derive(Drop)]
pub(crate) struct End {
    pub told: OnceLock<Ended>,
    pub bell: Bell,
}

impl End {
    ghost use Rattle.std.specs.Prelude.{◌≡◌, IfSome};
    ghost use Rattle.workers.specs.declared.ended.Ended.TheVariants.{Asked};

    /// Nobody told the end yet.
    pub fn new() -> End {
        End {
            told: OnceLock::new(),
            bell: Bell::new(),
        }
    }

    /// Tells the end, and shows that it is told. Only what is told first counts.
    pub fn tell<R: Wait>(&self, rt: &R, ended: Ended) -> ToldEnd<'_>
        ensures { result.of ≡ self.now.told.id }
    {
        let told = match self.told.try_insert(rt, ended) {
            Ok(told) | Err((told, _)) => told,
        };
        self.bell.ring(rt);
        told
    }

    /// Shows that the end was told, where it was.
    pub fn told(&self) -> Option<ToldEnd<'_>>
        ensures { IfSome result (λ told. told.of ≡ self.now.told.id) }
    {
        self.told.witness()
    }

    /// Why it ended, if the end was told and is not that of the clock.
    pub fn cut_short(&self) -> Option<Ended>
        ensures { IfSome result (λ ended. ¬ (ended ≡ Asked)) }
    {
        let told = self.told()?;
        match *self.told.value(&told) {
            Ended::Asked => None,
            other => Some(other),
        }
    }
}
