//! The bell of a line, which wakes the worker of its bus.

use crossbeam_channel::{Receiver, Sender, bounded};
use std::alloc::{AllocError, Global};
use std::sync::Wait;
use std::time::{Clock, Duration};

/// How long a bus rests at most where its bell does not ring, in milliseconds.
const LONGEST: u64 = 100;

/// Rings the bell of a line: something came on it, or may be to be sent.
#[derive(Drop)]
pub struct LineBell {
    to: Sender<()>,
}

/// Whoever rests until the bell rings. A bell that rang meanwhile is not missed.
#[derive(Drop)]
pub(crate) struct Resting {
    rung: Receiver<()>,
}

/// A bell that did not ring yet, and who rests until it does.
///
/// # Errors
///
/// The allocator is out of memory.
pub(crate) fn new_bell(alloc: Global) -> Result<(LineBell, Resting), AllocError> {
    let (to, rung) = bounded::<(), Global>(alloc, 1)?;
    Ok((LineBell { to }, Resting { rung }))
}

impl LineBell {
    /// Wakes who rests, or who rests next.
    pub fn ring<R: Wait>(&self, rt: &R) {
        let _is_rung_already = self.to.try_send(rt, ());
    }

    /// The same bell.
    ///
    /// # Errors
    ///
    /// The allocator is out of memory.
    pub fn another(&self) -> Result<LineBell, AllocError> {
        Ok(LineBell {
            to: self.to.clone()?,
        })
    }
}

impl Resting {
    /// Rests until the bell rings, for a tenth of a second at most.
    pub(crate) fn rest<R: Wait + Clock>(&self, rt: &R) {
        let _woken = self.rung.recv_timeout(rt, Duration::from_millis(LONGEST));
    }
}
