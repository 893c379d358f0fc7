//! What happens at a plant, as whoever looks on is told of it.

use buslink::{Report, Transaction};
use daliframe::Frame24;
use plantevents::Origin;

/// An event of a plant's history.
#[derive(Drop)]
pub enum Happened {
    /// It is this moment, in milliseconds.
    Ticked {
        moment: u64,
    },
    /// A 24-bit frame was heard on a bus.
    Heard {
        bus: u8,
        frame: Frame24,
    },
    /// A scan worker took a task.
    Took {
        worker: usize,
        task: usize,
    },
    /// A scan worker committed the scan of a task, which took these steps.
    Committed {
        worker: usize,
        task: usize,
        steps: u32,
    },
    /// A bus was handed a transaction, made of this.
    Handed {
        bus: u8,
        origin: Origin,
        transaction: Transaction,
    },
    /// A bus reported what became of its transaction.
    Reported {
        bus: u8,
        report: Report,
    },
    /// A bus went down, since its interface failed.
    WentDown {
        bus: u8,
    },
    /// A bus that was down is up again, since its interface answers.
    CameUp {
        bus: u8,
    },
}

/// An event with its place in the history, from 0.
#[derive(Drop)]
pub struct Told {
    pub place: u64,
    pub happened: Happened,
}
