//! Why a scenario is not played or run.

use crate::exit_status::ExitStatus;
use simbus::ScenarioFault;
use std::fmt;
use textanswers::Stop;
use workers::StartFault;

/// The first of what stands against playing or running a scenario, in the order in which it is
/// reported.
#[derive(Drop)]
pub enum PlayStop {
    /// Of the binding or the text.
    Text(Stop),
    /// Of the scenario.
    Scenario(ScenarioFault),
    /// The plant cannot start.
    Start(StartFault),
}

impl PlayStop {
    ghost use Rattle.std.specs.Prelude.{◌≡◌};
    ghost use Rattle.exitstatus.specs.ExitStatuses.{status_of_play_stop};

    /// How the program ends.
    pub fn status(&self) -> ExitStatus
        ensures { result ≡ status_of_play_stop self.now }
    {
        match self {
            PlayStop::Text(stop) => ExitStatus::of_stop(stop),
            PlayStop::Scenario(ScenarioFault::At { .. }) => ExitStatus::Refused,
            PlayStop::Scenario(ScenarioFault::Memory) | PlayStop::Start(_) => ExitStatus::Failed,
        }
    }
}

impl fmt::Display for PlayStop {
    fn fmt<W: fmt::Write>(&self, f: &mut fmt::Formatter<W>) -> fmt::Result {
        match self {
            PlayStop::Text(stop) => write!(f, "{stop}"),
            PlayStop::Scenario(fault) => write!(f, "{fault}"),
            PlayStop::Start(fault) => write!(f, "{fault}"),
        }
    }
}

impl From<Stop> for PlayStop {
    ghost use Rattle.std.specs.Prelude.{◌≡◌};
    ghost use Rattle.exitstatus.specs.declared.play_stop.PlayStop.TheVariants.{Text};

    ghost from_gives = { λ stop play_stop. play_stop ≡ Text stop };

    fn from(stop: Stop) -> Self {
        PlayStop::Text(stop)
    }
}

impl From<ScenarioFault> for PlayStop {
    ghost use Rattle.std.specs.Prelude.{◌≡◌};
    ghost use Rattle.exitstatus.specs.declared.play_stop.PlayStop.TheVariants.{Scenario};

    ghost from_gives = { λ fault play_stop. play_stop ≡ Scenario fault };

    fn from(fault: ScenarioFault) -> Self {
        PlayStop::Scenario(fault)
    }
}

impl From<StartFault> for PlayStop {
    ghost use Rattle.std.specs.Prelude.{◌≡◌};
    ghost use Rattle.exitstatus.specs.declared.play_stop.PlayStop.TheVariants.{Start};

    ghost from_gives = { λ fault play_stop. play_stop ≡ Start fault };

    fn from(fault: StartFault) -> Self {
        PlayStop::Start(fault)
    }
}
