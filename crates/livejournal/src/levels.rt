//! Which level was handed out last for each level output.

use ilplan::{Location, Plan};
use plantevents::Origin;
use std::alloc::{AllocError, Global};

/// The level that was handed out last for each global variable that is located at one; of the
/// others there is none.
#[derive(Drop)]
pub(crate) struct Levels {
    handed: Vec<Option<u8>>,
}

impl Levels {
    /// No level was handed out yet.
    ///
    /// # Errors
    ///
    /// The allocator is out of memory.
    pub(crate) fn new(alloc: Global, plan: &Plan) -> Result<Levels, AllocError> {
        let mut handed = Vec::new(alloc);
        for _ in 0..plan.globals() {
            handed.push(None)?;
        }
        Ok(Levels { handed })
    }

    /// The level that was handed out last for a global variable.
    pub(crate) fn of(&self, global: usize) -> Option<u8> {
        match self.handed.get(global) {
            Some(level) => *level,
            None => None,
        }
    }

    /// Notes what a bus was handed.
    pub(crate) fn note(&mut self, plan: &Plan, bus: u8, origin: Origin) {
        let Origin::Output { address, level } = origin else {
            return;
        };
        let Some(global) = located_at(plan, bus, address) else {
            return;
        };
        if let Some(place) = self.handed.get_mut(global) {
            *place = Some(level);
        }
    }
}

/// The global variable that is located at the level of an address.
fn located_at(plan: &Plan, bus: u8, address: u8) -> Option<usize> {
    for global in 0..plan.globals() {
        match plan.global(global).location {
            Some(Location::Level { bus: b, address: a }) if b == bus && a == address => return Some(
                global,
            ),
            _ => {}
        }
    }
    None
}
