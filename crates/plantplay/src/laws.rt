//! What is so of every play of a scenario.

ghost use Rattle.std.specs.Prelude.{ℕ, List};
ghost use Rattle.wordlines.specs.declared.statements.Statement.{Statement};
ghost use Rattle.wordlines.specs.Happenings.{happenings};
ghost use Rattle.simbus.specs.Simulated.{Simulated};
ghost use Rattle.ilcompile.specs.Loaded.{Loaded};
ghost use Rattle.plantplay.specs.declared.ending.Ending.{Ending as Ended};
ghost use Rattle.plantplay.specs.declared.installation.Installation.{Installation as Installed};
ghost use Rattle.plantplay.specs.ByScenario.{IsByScenario};
ghost use Rattle.plantplay.specs.Installations.{IsInstallation, stage_of};
ghost use Rattle.plantplay.specs.Stage.{IsPlayedTo, Stage};

/// What a play of a scenario leaves is by the scenario's words, where it began with an installation
/// to which nothing had happened.
pub fn plays_are_by_scenario()
    ensures { (setup : Loaded) (scenario : List Statement) (limit : ℕ) (start : Installed Simulated)
        (left : Stage) (ending : Ended) → IsInstallation setup scenario limit start
        → IsPlayedTo ending (happenings scenario) (stage_of start) left
        → IsByScenario setup scenario ending left }
{}
