//! Events.

use crate::noted::{NotedResult, NotedSnapshot};
use buslink::{Report, Transaction};
use daliframe::Frame24;
use gearcmd::Request;

/// What a transaction was made of.
#[derive(Clone, Copy)]
pub enum Origin {
    /// A request that waited.
    Queued(Request),
    /// A level that a located variable owed to its address.
    Output {
        /// 0 to 63 for a short address, 64 to 79 for a group, 80 for broadcast.
        address: u8,
        /// 0 off, 1 to 254, 255 no new level.
        level: u8,
    },
}

/// What happened to a plant. The place of an event is the number of events before it. A scan is
/// known by the place of its `Take`, and a transaction by the place of its `Hand`.
#[derive(Drop)]
pub enum Event {
    /// It is this moment, in milliseconds.
    Tick {
        moment: u64,
    },
    /// A 24-bit frame was heard on a bus.
    Heard {
        bus: u8,
        frame: Frame24,
    },
    /// A scan worker took a task with a snapshot.
    Take {
        worker: usize,
        task: usize,
        snapshot: NotedSnapshot,
    },
    /// A scan worker wrote what its scan, of this number, came to.
    Commit {
        worker: usize,
        number: u64,
        result: NotedResult,
    },
    /// A bus was handed a transaction, and what that was made of.
    Hand {
        bus: u8,
        origin: Origin,
        transaction: Transaction,
    },
    /// A bus gave the report of its transaction, of this number.
    Done {
        bus: u8,
        number: u64,
        report: Report,
    },
    /// A bus went down.
    Down {
        bus: u8,
    },
    /// A bus that was down is up again.
    Up {
        bus: u8,
    },
}
