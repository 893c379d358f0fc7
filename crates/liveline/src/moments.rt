//! Moments of a timer.

use std::num::NonZeroU64;
use std::time::{Clock as Timer, Duration, Instant};

/// The milliseconds since the start, where the timer can be read and they have 64 bits.
pub(crate) fn millis_since<T: Timer>(timer: &T, start: Instant) -> Option<u64> {
    let elapsed = start.elapsed(timer).ok()?;
    u64::try_from(elapsed.as_millis()).ok()
}

/// The first whole period after a moment.
pub(crate) fn next_period(moment: u64, period: NonZeroU64) -> u64 {
    let periods = moment / period.get();
    periods.saturating_add(1).saturating_mul(period.get())
}

/// Sleeps from one moment to a later one.
pub(crate) fn sleep_until<T: Timer>(timer: &T, from: u64, to: u64) {
    std::thread::sleep(timer, Duration::from_millis(to.saturating_sub(from)));
}
