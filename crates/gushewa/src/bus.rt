//! Buses over interfaces of a program's own.

ghost use Rattle.std.specs.Prelude.{◌≡◌, ◌<◌};
ghost use Rattle.buslink.specs.BusLog.{with_sent};
ghost use Rattle.gushewa.specs.Controllers.{fresh_bus};

use crate::interface::Interface;
use buslink::{Bus, Fault, Mark, Reply, Sent};
use daliframe::{BusNumber, Frame, Frame24};
use ghosts::Trace;
use std::alloc::AllocError;
use std::marker::Model;

/// A bus over an interface. What was sent and heard has no bytes: contracts alone see it.
#[derive(Drop)]
pub struct InterfaceBus<I> {
    interface: I,
    number: BusNumber,
    sent: Trace<Sent>,
    heard: Trace<Frame24>,
    spare: usize,
    failures: u64,
    hears: u64,
    heard_none: bool,
    mends: u64,
    is_mended: bool,
}

impl<I> Model for InterfaceBus<I> {
    ghost use Rattle.std.specs.Prelude.{None, reverse};
    ghost use Rattle.buslink.specs.BusLog.{BusLog};

    ghost Value = { BusLog };

    ghost view = { λ b. record {
      number = b.number;
      arrivals = None;
      sent = reverse b.sent.items;
      heard = reverse b.heard.items;
      spare = b.spare;
      failures = b.failures;
      hears = b.hears;
      heard_none = b.heard_none;
      mends = b.mends;
      is_mended = b.is_mended;
    } };
}

impl<I> InterfaceBus<I> {
    /// The bus of this number over the interface. It has sent and heard nothing.
    pub fn new(number: BusNumber, interface: I) -> InterfaceBus<I>
        ensures { result ≡ fresh_bus number }
    {
        InterfaceBus {
            interface,
            number,
            sent: Trace::new(),
            heard: Trace::new(),
            spare: 0,
            failures: 0,
            hears: 0,
            heard_none: false,
            mends: 0,
            is_mended: false,
        }
    }

    /// The interface, to read it.
    pub fn interface(&self) -> &I {
        &self.interface
    }

    /// Notes a frame that was sent, and what became of it.
    fn note_sent(&mut self, frame: Frame, priority: u8, mark: Mark)
        requires { 0 < self.old.spare }
        ensures { self.new ≡ with_sent frame priority mark self.old }
    {
        self.sent.push(&Sent {
            frame,
            priority,
            mark,
        });
        self.spare -= 1;
    }
}

impl<I: Interface> InterfaceBus<I> {
    ghost use Rattle.std.specs.Prelude.{◌≡◌};

    /// Has the interface send a frame. What was sent and heard stays what it was.
    fn ask_to_send(&mut self, frame: &Frame, priority: u8) -> Result<Reply, Fault>
        ensures { self.new ≡ self.old }
    {
        self.interface.send(*frame, priority)
    }
}

impl<I: Interface> Bus for InterfaceBus<I> {
    ghost log = { λ b. b };

    fn room(&mut self, frames: usize) -> Result<(), AllocError> {
        self.spare = self.spare.max(frames);
        Ok(())
    }

    fn send(&mut self, frame: Frame, priority: u8) -> Result<Reply, Fault> {
        match self.ask_to_send(&frame, priority) {
            Ok(reply) => {
                self.note_sent(frame, priority, Mark::from(reply));
                Ok(reply)
            }
            Err(Fault) => {
                self.note_sent(frame, priority, Mark::Failed);
                self.failures = self.failures.wrapping_add(1);
                Err(Fault)
            }
        }
    }

    fn hear(&mut self) -> Result<Option<Frame24>, Fault> {
        let message = self.interface.hear();
        self.hears = self.hears.saturating_add(1);
        self.heard_none = matches!(message, Ok(None));
        match message {
            Ok(Some(frame)) => {
                self.heard.push(&frame);
                self.spare -= 1;
                Ok(Some(frame))
            }
            Ok(None) => Ok(None),
            Err(Fault) => {
                self.failures = self.failures.wrapping_add(1);
                Err(Fault)
            }
        }
    }

    fn mend(&mut self) -> bool {
        self.is_mended = false;
        false
    }

    fn resume(&mut self) {
        self.mends = self.mends.wrapping_add(1);
        self.is_mended = false;
    }
}
