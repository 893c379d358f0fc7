//! Why calls are refused.

use std::alloc::AllocError;

/// Why a call of the plant was refused. A refused call changes nothing.
#[derive(Clone, Copy, PartialEq, Eq, Debug)]
pub enum CallRefusal {
    /// 2: the moment is below the last one.
    ClockBack,
    /// 3: no task is ready without an open scan, nothing is to be sent on the bus, or the bus that
    /// is to come up is not down.
    NothingReady,
    /// 4: there is no such worker or bus, or what was given back is not what is open there.
    Stranger,
    /// 5: the worker has a scan open, or the bus a transaction.
    Busy,
    /// 6: the bus is down.
    BusDown,
    /// 7: the history has no place left beside those that are kept back.
    Full,
}

/// Why a call that takes memory was not accepted. The plant is unchanged.
#[derive(Clone, Copy, PartialEq, Eq, Debug)]
pub enum CallError {
    /// 1: the allocator is out of memory.
    Memory,
    /// The call was refused.
    Refused(CallRefusal),
}

impl From<CallRefusal> for CallError {
    ghost use Rattle.std.specs.Prelude.{◌≡◌};
    ghost use Rattle.plant.specs.declared.refusal.CallError.TheVariants.{Refused};

    ghost from_gives = { λ refusal error. error ≡ Refused refusal };

    fn from(refusal: CallRefusal) -> Self {
        CallError::Refused(refusal)
    }
}

impl From<AllocError> for CallError {
    ghost use Rattle.std.specs.Prelude.{◌≡◌};
    ghost use Rattle.plant.specs.declared.refusal.CallError.TheVariants.{Memory};

    ghost from_gives = { λ _ error. error ≡ Memory };

    fn from(_refused: AllocError) -> Self {
        CallError::Memory
    }
}
