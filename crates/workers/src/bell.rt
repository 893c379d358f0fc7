//! The bell that wakes who sleeps until something happens.

use std::sync::{Condvar, Mutex, Wait};
use std::time::{Clock as Timer, Duration};

/// How long a worker sleeps at most where the bell does not ring, in milliseconds.
const LONGEST: u64 = 100;

/// A bell. It counts how often it rang, so that whoever looked for something to do, and found
/// nothing, does not sleep through what came meanwhile.
#[derive(Drop)]
pub(crate) struct Bell {
    rings: Mutex<u64>,
    rung: Condvar,
}

impl Bell {
    /// A bell that did not ring yet.
    pub(crate) fn new() -> Bell {
        Bell {
            rings: Mutex::new(0),
            rung: Condvar::new(),
        }
    }

    /// How often it rang so far, modulo 2^64: to be asked before looking for something to do.
    pub(crate) fn rings<R: Wait>(&self, rt: &R) -> u64 {
        *self.rings.lock(rt)
    }

    /// Rings: who sleeps wakes.
    pub(crate) fn ring<R: Wait>(&self, rt: &R) {
        let mut rings = self.rings.lock(rt);
        *rings = rings.wrapping_add(1);
        self.rung.notify_all();
    }

    /// Sleeps until it rings, or for a tenth of a second; not at all where it rang since it had
    /// rung so often.
    pub(crate) fn wait_past<R: Wait + Timer>(&self, rt: &R, seen: u64) {
        let rings = self.rings.lock(rt);
        let longest = Duration::from_millis(LONGEST);
        let _woken = self
            .rung
            .wait_timeout_while(rt, rings, longest, |now| *now == seen);
    }
}
