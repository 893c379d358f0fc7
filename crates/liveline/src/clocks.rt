//! Clocks of a building.

ghost use Rattle.std.specs.Prelude.{◌≡◌, ◌≤◌, IfSome, IfOk};
ghost use Rattle.std.specs.Int.NonZero.{non_zero_u64_get};
ghost use Rattle.buslink.specs.ClockLog.{IsNotBefore, TellsEnd, after_now};
ghost use Rattle.liveline.specs.ClockStates.{fresh_clock, with_moment};

use crate::moments::{millis_since, next_period, sleep_until};
use crate::stops::StopCondition;
use buslink::Clock;
use ghosts::Trace;
use std::io;
use std::marker::Model;
use std::num::NonZeroU64;
use std::time::{Clock as Timer, Instant};

/// A clock of milliseconds, which begins at a moment and goes on from there while time passes. What
/// it gave has no bytes.
#[derive(Drop)]
pub struct LiveClock<T: Timer, S: StopCondition> {
    timer: T,
    stop: S,
    start: Instant,
    /// The milliseconds from one moment to the next.
    period: NonZeroU64,
    /// The moment at which it was made.
    begins: u64,
    /// The last moment that may be given.
    until: u64,
    /// The latest moment that was given, 0 before the first.
    latest: u64,
    given: Trace<u64>,
    asks: u64,
    gave_none: bool,
}

impl<T: Timer, S: StopCondition> Model for LiveClock<T, S> {
    ghost use Rattle.std.specs.Prelude.{◌≤◌, All, None, reverse};
    ghost use Rattle.std.specs.Int.NonZero.{non_zero_u64_get};
    ghost use Rattle.liveline.specs.ClockStates.{ClockState};

    ghost Value = { ClockState S };

    ghost view = { λ c. record {
      log = record {
        moments = None;
        given = reverse c.given.items;
        asks = c.asks;
        gave_none = c.gave_none;
      };
      period = non_zero_u64_get c.period;
      begins = c.begins;
      until = c.until;
      stop = c.stop;
    } };

    ghost invariant = { λ c. All (λ earlier. earlier ≤ c.latest) (reverse c.given.items) };
}

impl<T: Timer + Drop, S: StopCondition> LiveClock<T, S> {
    /// A clock at which it is `begins` now, which is the first moment that it gives, at once. It
    /// gives one more in each period, and none after `until`.
    ///
    /// # Errors
    ///
    /// The timer could not be read.
    pub fn new(
        timer: T,
        period: NonZeroU64,
        begins: u64,
        until: u64,
        stop: S,
    ) -> io::Result<LiveClock<T, S>>
        ensures { IfOk result (λ c.
            c ≡ fresh_clock (non_zero_u64_get period) begins until stop) }
    {
        let start = Instant::now(&timer)?;
        Ok(LiveClock {
            timer,
            stop,
            start,
            period,
            begins,
            until,
            latest: 0,
            given: Trace::new(),
            asks: 0,
            gave_none: false,
        })
    }

    /// Notes a moment that is given.
    fn note(&mut self, moment: u64)
        requires { IsNotBefore moment self.old.log }
        ensures { self.new ≡ with_moment moment self.old }
    {
        self.latest = moment;
        self.given.push(&moment);
    }

    /// The moment that it is, where the timer can be read and the moment has 64 bits.
    fn moment(&self) -> Option<u64>
        ensures { IfSome result (λ moment. self.now.begins ≤ moment) }
    {
        let passed = millis_since(&self.timer, self.start)?;
        self.begins.checked_add(passed)
    }

    /// What the clock says: at its first call the moment at which it begins, whatever became of the
    /// timer since. Before each later one it sleeps until the next period, and there is none once
    /// the end is wanted.
    fn read(&self) -> Option<u64>
        ensures { IfSome result (λ moment. self.now.begins ≤ moment) }
    {
        if self.asks <= 1 {
            return Some(self.begins);
        }
        let before = self.moment()?;
        sleep_until(&self.timer, before, next_period(self.latest, self.period));
        if self.stop.is_wanted() {
            return None;
        }
        self.moment()
    }

    /// The next moment. There is none once the end has come. Periods that passed meanwhile have no
    /// moment.
    fn wait(&self) -> Option<u64>
        ensures { IfSome result (λ moment. IsNotBefore moment self.now.log
            × (self.now.begins ≤ moment) × (moment ≤ self.now.until)) }
    {
        let moment = self.read()?.max(self.latest);
        if moment > self.until {
            return None;
        }
        Some(moment)
    }
}

impl<T: Timer + Drop, S: StopCondition> Clock for LiveClock<T, S> {
    ghost log = { λ c. c.log };

    fn now(&mut self) -> Option<u64>
        ensures logged { self.new.log ≡ after_now result self.old.log }
        ensures never_falls { IfSome result (λ moment. IsNotBefore moment self.old.log) }
        ensures ends { TellsEnd result self.old.log }
        ensures begun { IfSome result (λ moment. self.old.begins ≤ moment) }
        ensures within { IfSome result (λ moment. moment ≤ self.old.until) }
        ensures begins { self.new.begins ≡ self.old.begins }
        ensures until { self.new.until ≡ self.old.until }
        ensures period { self.new.period ≡ self.old.period }
        ensures stop { self.new.stop ≡ self.old.stop }
    {
        self.asks = self.asks.saturating_add(1);
        let moment = self.wait();
        self.gave_none = moment.is_none();
        let Some(moment) = moment else {
            self.stop.note_end();
            return None;
        };
        self.note(moment);
        Some(moment)
    }
}
