//! Events that were told, in the order in which workers told them.

use plantturns::Happened;
use std::alloc::Global;

/// An event with its place in the history.
#[derive(Drop)]
pub(crate) struct Told {
    pub(crate) place: u64,
    pub(crate) happened: Happened,
}

/// How many events may wait to be written. Thousands come in a second at most, and they are taken
/// at each tick.
const MOST_TOLD: usize = 1_000_000;

/// Events that were told and were not taken yet.
#[derive(Drop)]
pub(crate) struct Unsorted {
    told: Vec<Told>,
    /// Whether an event was not held, so that nothing after it can be told either.
    has_gap: bool,
}

impl Unsorted {
    /// Nothing was told yet.
    pub(crate) fn new(alloc: Global) -> Unsorted {
        Unsorted {
            told: Vec::new(alloc),
            has_gap: false,
        }
    }

    /// Holds an event, where there is room.
    pub(crate) fn push(&mut self, told: Told) {
        if self.has_gap || self.told.len() >= MOST_TOLD || self.told.push(told).is_err() {
            self.has_gap = true;
        }
    }

    /// Moves what was told behind the others. Answers whether all of it is there.
    pub(crate) fn take_into(&mut self, others: &mut Vec<Told>) -> bool {
        let all = others.append(&mut self.told).is_ok();
        all && !self.has_gap
    }
}
