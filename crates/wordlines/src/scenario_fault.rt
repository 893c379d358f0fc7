//! The faults of a scenario.

ghost use Rattle.std.specs.Prelude.{codes};

use crate::scenario::Scenario;
use crate::{FileKind, LineFault};

/// Why bytes are no scenario.
pub type ScenarioFault = LineFault<Scenario>;

impl FileKind for Scenario {
    ghost word = { codes "scenario" };

    fn word() -> &'static str {
        "scenario"
    }
}
