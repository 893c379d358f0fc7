//! Steps and their replies.

use buslink::{Mark, Transaction};
use daliframe::Frame24;
use plant::{CallError, CallRefusal};
use plantevents::Origin;

/// What is asked of a plant.
#[derive(Drop)]
pub enum Step {
    /// It is this moment, in milliseconds.
    Tick {
        moment: u64,
    },
    /// A 24-bit frame was heard on a bus.
    Heard {
        bus: u8,
        frame: Frame24,
    },
    /// A scan worker takes the next task.
    Take {
        worker: usize,
    },
    /// A scan worker makes the scan that it has open, and writes what it came to.
    Commit {
        worker: usize,
    },
    /// A bus is handed what is to be sent next.
    Hand {
        bus: u8,
    },
    /// The frames of the transaction that a bus was handed under this number got these marks.
    Done {
        bus: u8,
        number: u64,
        marks: Vec<Mark>,
    },
    /// A bus goes down.
    Down {
        bus: u8,
    },
    /// A bus that is down comes up again.
    Up {
        bus: u8,
    },
}

/// What a step is answered.
#[derive(Drop)]
pub enum StepReply {
    /// Its event was noted.
    Noted,
    /// A task was taken under this number, the place of the event.
    Taken {
        number: u64,
        task: usize,
    },
    /// A transaction was handed out under this number, the place of the event.
    Handed {
        number: u64,
        origin: Origin,
        transaction: Transaction,
    },
    /// The step was refused.
    Refused(CallRefusal),
    /// 1: the allocator is out of memory.
    Memory,
}

impl From<CallError> for StepReply {
    ghost use Rattle.std.specs.Prelude.{◌≡◌};
    ghost use Rattle.plantscript.specs.DeskSteps.{reply_of};

    ghost from_gives = { λ error reply. reply ≡ reply_of error };

    fn from(error: CallError) -> Self {
        match error {
            CallError::Refused(refusal) => StepReply::Refused(refusal),
            CallError::Memory => StepReply::Memory,
        }
    }
}
