//! How the program ends.

ghost use Rattle.std.specs.Prelude.{◌≡◌};

use exitstatus::{ExitStatus, PlayStop};
use wordlines::LineFault;
use workers::Ended;

/// `usage_exits_with_1`: words that are no command line ended the program as a refused text does.
pub fn misuse_exits_with_2() -> u8
    ensures { result ≡ 2 }
{
    ExitStatus::Misused.number()
}

/// `bad_scenario_exits_with_3`: a bad line of a scenario counted as a failure.
pub fn scenario_with_a_bad_line_is_refused() -> ExitStatus
    ensures { result ≡ ExitStatus.Refused }
{
    PlayStop::Scenario(LineFault::bad_line(2)).status()
}

/// `a_run_at_its_limit_exits_with_0`: a run whose history is full counted as one that came to its
/// end.
pub fn run_at_its_limit_has_failed() -> ExitStatus
    ensures { result ≡ ExitStatus.Failed }
{
    ExitStatus::of_run(Ended::Limit, false)
}
