//! Waits that end in time.

use crossbeam_channel::{Receiver, RecvTimeoutError};
use std::io;
use std::io::ErrorKind;
use std::sync::Wait;
use std::time::{Clock, Duration, Instant};

/// A wait that is over this number of milliseconds late shows that the machine stood still. Whoever
/// was to hand something on stood still too, and has the same time more.
const STANDSTILL: u64 = 100;

/// When something is to have come.
#[derive(Clone, Copy)]
pub(crate) struct Deadline {
    at: Instant,
}

impl Deadline {
    /// The given number of milliseconds from now.
    ///
    /// # Errors
    ///
    /// The clock cannot be read, or has no such moment.
    pub(crate) fn after<R: Clock>(rt: &R, millis: u64) -> io::Result<Deadline> {
        let now = Instant::now(rt)?;
        match now.checked_add(Duration::from_millis(millis)) {
            Some(at) => Ok(Deadline { at }),
            None => Err(io::Error::from(ErrorKind::InvalidInput)),
        }
    }

    /// What is received by then, or a little later where the machine stood still.
    ///
    /// # Errors
    ///
    /// Nothing came in time, or nobody sends any more.
    pub(crate) fn receive<T: Drop, R: Wait + Clock>(
        self,
        rt: &R,
        from: &Receiver<T>,
    ) -> Result<T, RecvTimeoutError> {
        match from.recv_deadline(rt, self.at) {
            Err(RecvTimeoutError::Timeout) if self.is_long_past(rt) => {
                from.recv_timeout(rt, Duration::from_millis(STANDSTILL))
            }
            received => received,
        }
    }

    /// Whether it is so long past that no wait for it could have ended now. It is not where the
    /// clock cannot be read.
    fn is_long_past<R: Clock>(self, rt: &R) -> bool {
        match self.at.elapsed(rt) {
            Ok(late) => late >= Duration::from_millis(STANDSTILL),
            Err(_) => false,
        }
    }
}
