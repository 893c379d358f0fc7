//! How the program ends where a building does not run.

ghost use Rattle.std.specs.Prelude.{◌≡◌};
ghost use Rattle.commandlives.specs.Buildings.{status_of_live_stop};

use commandfiles::ExitStatus;
use livehouse::LiveStop;

/// How the program ends where this stands against a building.
pub fn status_of_live_stop(stop: &LiveStop) -> ExitStatus
    ensures { result ≡ status_of_live_stop stop.now }
{
    match stop {
        LiveStop::Lineup(_) => ExitStatus::Misused,
        LiveStop::Ended => ExitStatus::Accepted,
        LiveStop::NoClock | LiveStop::Start(_) => ExitStatus::Failed,
    }
}
