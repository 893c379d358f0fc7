//! Buses that count and wait at a gate, and a clock that does so and comes to its end twice.
ghost use Rattle.std.specs.Prelude.{◌≤◌, None};
ghost use Rattle.buslink.specs.BusLog.{with_spare};

use crate::watch::{Until, Watch};
use buslink::{Bus, Clock, Fault, Reply};
use daliframe::{Frame, Frame24};
use simbus::{ScriptedClock, SimBus};
use std::alloc::AllocError;
use std::time::Clock as Timer;

/// The turns that a clock rests before each answer for which it needn't wait.
const REST: u64 = 100;

/// A simulated bus that counts what it hears and sends, and may wait within its first frame.
#[derive(Drop)]
pub struct WatchedBus<'w, 'r, R> {
    bus: SimBus,
    watch: &'w Watch<'r, R>,
    number: usize,
    has_memory: bool,
    spare: usize,
    ghost fits: { spare ≤ bus.log.spare },
}

impl<'w, 'r, R: Timer> WatchedBus<'w, 'r, R> {
    /// The bus, over which nothing went, with its number.
    pub fn new(
        bus: SimBus,
        watch: &'w Watch<'r, R>,
        number: usize,
        has_memory: bool,
    ) -> WatchedBus<'w, 'r, R> {
        WatchedBus {
            bus,
            watch,
            number,
            has_memory,
            spare: 0,
        }
    }
}

impl<'w, 'r, R: Timer> Bus for WatchedBus<'w, 'r, R> {
    ghost log = { λ b. with_spare b.spare b.bus.log };

    fn room(&mut self, frames: usize) -> Result<(), AllocError> {
        if frames <= self.spare {
            return Ok(());
        }
        if !self.has_memory {
            return Err(AllocError);
        }
        self.bus.room(frames)?;
        self.spare = frames;
        Ok(())
    }

    fn send(&mut self, frame: Frame, priority: u8) -> Result<Reply, Fault> {
        self.watch.begin_frame(self.number);
        self.spare -= 1;
        match self.bus.send(frame, priority) {
            Ok(reply) => Ok(reply),
            Err(fault) => Err(fault),
        }
    }

    fn hear(&mut self) -> Result<Option<Frame24>, Fault> {
        match self.bus.hear() {
            Ok(Some(frame)) => {
                self.spare -= 1;
                self.watch.note_frame(self.number);
                Ok(Some(frame))
            }
            Ok(None) => {
                self.watch.note_idle(self.number);
                Ok(None)
            }
            Err(fault) => Err(fault),
        }
    }

    fn mend(&mut self) -> bool {
        self.bus.mend()
    }

    fn resume(&mut self) {
        self.bus.resume();
    }
}

/// The clock of a scenario that comes to its end at one of its answers, and then goes on.
#[derive(Drop)]
pub struct PausedClock {
    clock: ScriptedClock,
    /// It gives no moment after the given number of answers.
    pause: u64,
    asks: u64,
    gave_none: bool,
}

impl PausedClock {
    /// The clock, which was not asked yet.
    pub fn new(clock: ScriptedClock, pause: u64) -> PausedClock {
        PausedClock {
            clock,
            pause,
            asks: 0,
            gave_none: false,
        }
    }
}

impl Clock for PausedClock {
    ghost log = { λ c. record {
      moments = None;
      given = c.clock.log.given;
      asks = c.asks;
      gave_none = c.gave_none;
    } };

    fn now(&mut self) -> Option<u64> {
        let answers = self.asks;
        self.asks = self.asks.saturating_add(1);
        if answers == self.pause {
            self.gave_none = true;
            return None;
        }
        let moment = self.clock.now();
        self.gave_none = moment.is_none();
        moment
    }
}

/// Such a clock, which waits before each of its answers, or rests.
#[derive(Drop)]
pub struct WaitingClock<'w, 'r, R> {
    clock: PausedClock,
    watch: &'w Watch<'r, R>,
    waits: &'static [Until],
    answers: usize,
}

impl<'w, 'r, R: Timer> WaitingClock<'w, 'r, R> {
    /// The clock, which was not asked yet. Its answer of the number `k` waits for `waits[k]`, and
    /// later ones rest.
    pub fn new(clock: PausedClock, watch: &'w Watch<'r, R>, waits: &'static [Until]) -> Self {
        WaitingClock {
            clock,
            watch,
            waits,
            answers: 0,
        }
    }

    /// Whether it gave no moment when it was asked last.
    pub fn gave_none(&self) -> bool {
        self.clock.gave_none
    }
}

impl<'w, 'r, R: Timer> Clock for WaitingClock<'w, 'r, R> {
    ghost log = { λ c. record {
      moments = None;
      given = c.clock.clock.log.given;
      asks = c.clock.asks;
      gave_none = c.clock.gave_none;
    } };

    fn now(&mut self) -> Option<u64> {
        match self.waits.get(self.answers) {
            Some(until) => {
                self.watch.wait_until(*until);
                self.answers += 1;
            }
            None => self.watch.rest(REST),
        }
        let moment = self.clock.now();
        if moment.is_none() {
            self.watch.note_end();
        }
        moment
    }
}
