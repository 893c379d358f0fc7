//! How often a text wants the time.

ghost use Rattle.std.specs.Prelude.{◌≡◌, ◌≤◌, min};
ghost use Rattle.std.specs.Option.{unwrap_or};
ghost use Rattle.plantlive.specs.Periods.{IsPeriod, most_period};

use ilplan::{Activation, Plan};

/// The period of a clock where no task is cyclic, in milliseconds.
const USUAL_PERIOD: u64 = 100;

/// The greatest period of a clock, in milliseconds.
const MOST_PERIOD: u64 = 1000;

/// The lesser of an interval and the least one before it; of the first one and the greatest period.
fn lesser(least: Option<u64>, interval: u32) -> u64
    ensures { result ≡ min (unwrap_or least most_period) interval }
{
    least.unwrap_or(MOST_PERIOD).min(u64::from(interval))
}

/// The period of a clock that suits a text, 1 to 1000 milliseconds: the least interval of its
/// cyclic tasks, but not above 1000; and 100 where it has no cyclic task.
pub fn period_of(plan: &Plan) -> u64
    ensures value { IsPeriod plan.now result }
    ensures range { (1 ≤ result) × (result ≤ most_period) }
{
    let mut least = None;
    for task in 0..plan.tasks() {
        if let Activation::Cyclic { interval } = plan.task(task).activation() {
            least = Some(lesser(least, interval));
        }
    }
    least.unwrap_or(USUAL_PERIOD)
}
