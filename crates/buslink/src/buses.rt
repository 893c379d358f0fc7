//! What the controller asks of a bus interface.
ghost use Rattle.std.specs.Prelude.{◌≡◌, ◌<◌, ◌≤◌, IsOk, OnOk, true};
ghost use Rattle.buslink.specs.BusLog.{TellsAll, after_send, after_hear, with_spare};
ghost use Rattle.buslink.specs.BusLog.{after_mend, after_resume};

use crate::Fault;
use crate::marks::Reply;
use daliframe::{Frame, Frame24};
use std::alloc::AllocError;

/// A bus interface, with its number, what comes on it where that is known, and what became of it so
/// far: the frames that were sent and heard, and how often it failed, heard and was taken up again.
/// The two lists grow in `room` alone; `send` and `hear` take no memory. No call changes the number
/// or what comes.
pub trait Bus: Drop {
    ghost use Rattle.buslink.specs.BusLog.{BusLog};

    ghost log: { Self → BusLog };

    /// Makes room for the given number of frames more, sent or heard. Where there is room already
    /// it succeeds, and room is never given up.
    ///
    /// # Errors
    ///
    /// A growth was refused. No frame was sent or heard.
    fn room(&mut self, frames: usize) -> Result<(), AllocError>
        ensures made { OnOk result (frames ≤ (log self.new).spare) }
        ensures already { frames ≤ (log self.old).spare → IsOk result }
        ensures keeps { (log self.old).spare ≤ (log self.new).spare }
        ensures same { log self.new ≡ with_spare (log self.new).spare (log self.old) };

    /// Sends a frame with a priority, 1 to 5, of which 1 is the highest (IEC 62386-101, clause 9),
    /// and tells what it was answered.
    ///
    /// # Errors
    ///
    /// The interface failed. The frame counts as sent, with the mark `Failed`.
    fn send(&mut self, frame: Frame, priority: u8) -> Result<Reply, Fault>
        requires { 0 < (log self.old).spare }
        ensures { log self.new ≡ after_send frame priority result (log self.old) };

    /// The next 24-bit frame that came on the bus, where there is one. Where there is none, all
    /// that has come was heard.
    ///
    /// # Errors
    ///
    /// The interface failed. No frame was heard.
    fn hear(&mut self) -> Result<Option<Frame24>, Fault>
        requires { 0 < (log self.old).spare }
        ensures logged { log self.new ≡ after_hear result (log self.old) }
        ensures all { TellsAll result (log self.old) };

    /// Whether the interface of a bus that is down answers again. The call never waits: where the
    /// bus cannot tell yet, it answers false.
    fn mend(&mut self) -> bool
        ensures { log self.new ≡ after_mend result (log self.old) };

    /// Takes the bus up again, once the history says that it is up.
    fn resume(&mut self)
        requires { (log self.old).is_mended ≡ true }
        ensures { log self.new ≡ after_resume (log self.old) };

    /// Waits until something may have come on the bus, or is to be sent, for a short while at most,
    /// and tells whether it waited. A bus that is not told when something comes answers false at
    /// once: it has to be asked again and again.
    fn rest(&mut self) -> bool
        ensures { log self.new ≡ log self.old }
    {
        false
    }
}

/// A call goes to the bus in the box, and what became of that one became of the box.
impl Bus for Box<dyn Bus + Send> {
    ghost log = { λ b. (Bus-box b).log b.value };

    fn room(&mut self, frames: usize) -> Result<(), AllocError> {
        (**self).room(frames)
    }

    fn send(&mut self, frame: Frame, priority: u8) -> Result<Reply, Fault> {
        (**self).send(frame, priority)
    }

    fn hear(&mut self) -> Result<Option<Frame24>, Fault> {
        (**self).hear()
    }

    fn mend(&mut self) -> bool {
        (**self).mend()
    }

    fn resume(&mut self) {
        (**self).resume();
    }

    fn rest(&mut self) -> bool {
        (**self).rest()
    }
}
