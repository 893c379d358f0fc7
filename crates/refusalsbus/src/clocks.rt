//! The clock of a building.

ghost use Rattle.std.specs.Prelude.{◌≡◌, ◌≤◌, IfSome};

use buslink::Clock;
use liveline::{LiveClock, StopCondition};
use std::time::Clock as Timer;

/// `it_begins_at_zero_again`: a clock that begins at a later moment began at 0.
pub fn clock_gives_nothing_before_it_begins<T: Timer + Drop, S: StopCondition>(
    clock: &mut LiveClock<T, S>,
) -> Option<u64>
    requires { clock.old.begins ≡ 5000 }
    ensures { IfSome result (λ moment. 5000 ≤ moment) }
{
    clock.now()
}

/// `it_goes_on_after_its_time`: a clock gave a moment after the last that it is to give.
pub fn clock_gives_nothing_after_its_time<T: Timer + Drop, S: StopCondition>(
    clock: &mut LiveClock<T, S>,
) -> Option<u64>
    requires { clock.old.until ≡ 8000 }
    ensures { IfSome result (λ moment. moment ≤ 8000) }
{
    clock.now()
}
