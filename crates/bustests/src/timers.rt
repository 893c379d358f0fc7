//! The clock of a building over a timer that moves as the test says: which moments it gives, how it
//! sleeps, and when it ends.

use buslink::Clock;
use liveline::{LiveClock, NoStop, StopCondition};
use std::cell::Cell;
use std::io;
use std::num::NonZeroU64;
use std::test::Fail;
use std::time::{Clock as Timer, Duration};

/// A timer that moves while someone sleeps, and between calls. Out of time, it cannot be read.
#[derive(Drop)]
struct FakeTimer {
    millis: Cell<Option<u64>>,
}

impl FakeTimer {
    fn pass(&self, millis: u64) {
        let now = self.millis.get();
        self.millis.set(now.map(|now| now.saturating_add(millis)));
    }
}

impl Timer for FakeTimer {
    fn monotonic(&self) -> io::Result<Duration> {
        match self.millis.get() {
            Some(millis) => Ok(Duration::from_millis(millis)),
            None => Err(io::Error::from(io::ErrorKind::Other)),
        }
    }

    fn since_1970(&self) -> io::Result<Duration> {
        self.monotonic()
    }

    fn sleep(&self, duration: Duration) {
        self.pass(u64::try_from(duration.as_millis()).unwrap_or(u64::MAX));
    }
}

/// The end is wanted where the cell says so.
#[derive(Clone, Copy)]
struct StopFlag<'a>(&'a Cell<bool>);

impl StopCondition for StopFlag<'_> {
    fn is_wanted(&self) -> bool {
        self.0.get()
    }
}

/// How many milliseconds pass before a call, and the moment that it gives. None is given after
/// 1000.
const MOMENTS: [(u64, Option<u64>); 9] = [
    (0, Some(0)),
    (0, Some(100)),
    (30, Some(200)),
    (250, Some(450)),
    (0, Some(500)),
    (450, Some(950)),
    (0, Some(1000)),
    (0, None),
    (0, None),
];

/// The milliseconds between two moments.
fn period() -> Option<NonZeroU64> {
    NonZeroU64::new(100)
}

#[test]
fn it_sleeps_to_the_next_period(rt: HostRuntime) -> Result<(), Fail> {
    let timer = FakeTimer {
        millis: Cell::new(Some(7000)),
    };
    let mut clock = LiveClock::new(&timer, period().ok_or("a period")?, 0, 1000, NoStop)?;
    for (passed, wanted) in MOMENTS {
        timer.pass(passed);
        let moment = clock.now();
        assert!(rt; moment == wanted, "{passed} {moment:?}");
    }
    Ok(())
}

#[test]
fn it_ends_when_it_is_asked_to(rt: HostRuntime) -> Result<(), Fail> {
    let timer = FakeTimer {
        millis: Cell::new(Some(0)),
    };
    let flag = Cell::new(false);
    let mut clock = LiveClock::new(
        &timer,
        period().ok_or("a period")?,
        0,
        1000,
        StopFlag(&flag),
    )?;
    flag.set(true);
    assert!(rt; clock.now() == Some(0), "the first moment is given at once");
    assert!(rt; clock.now().is_none());
    Ok(())
}

#[test]
fn it_ends_where_its_timer_fails(rt: HostRuntime) -> Result<(), Fail> {
    let timer = FakeTimer {
        millis: Cell::new(Some(0)),
    };
    let mut clock = LiveClock::new(&timer, period().ok_or("a period")?, 0, 1000, NoStop)?;
    timer.millis.set(None);
    assert!(rt; clock.now() == Some(0), "the first moment needs no timer");
    assert!(rt; clock.now().is_none());
    assert!(rt; LiveClock::new(&timer, period().ok_or("a period")?, 0, 1000, NoStop).is_err());
    Ok(())
}
