//! Interfaces of a program's own.

use buslink::{Fault, Reply};
use daliframe::{Frame, Frame24};

/// What a program has in place of a bus. No contract speaks of what it does: whatever it answers, a
/// controller sends only what was decided, and its history says what was answered.
pub trait Interface: Drop {
    /// Sends a frame with a priority, 1 to 5, of which 1 is the highest (IEC 62386-101, clause 9),
    /// and tells what it was answered.
    ///
    /// # Errors
    ///
    /// The interface failed. Its bus goes down, and nothing more is sent there.
    fn send(&mut self, frame: Frame, priority: u8) -> Result<Reply, Fault>;

    /// The next 24-bit frame that came, where there is one. The call does not wait for one.
    ///
    /// # Errors
    ///
    /// The interface failed. Its bus goes down, and nothing more is heard there.
    fn hear(&mut self) -> Result<Option<Frame24>, Fault>;
}
