//! What a line of a scenario stands for.

ghost use Rattle.std.specs.Prelude.{◌≡◌};
ghost use Rattle.std.specs.List.{fold};
ghost use Rattle.wordlines.specs.Entries.{statements_of};
ghost use Rattle.wordlines.specs.Following.{clock_after};

use crate::statements::Statement;
use crate::tick_row::TickRow;

/// What a line of a scenario stands for.
#[derive(Clone, Copy)]
pub(crate) enum ScenarioEntry {
    /// A statement.
    One { statement: Statement },
    /// A statement for each of these ticks.
    Ticks { row: TickRow },
}

impl ScenarioEntry {
    /// The moment to which the clock comes, where it came to `now`.
    pub(crate) fn clock_after(&self, now: Option<u64>) -> Option<u64>
        ensures { result ≡ fold clock_after now (statements_of self.now) }
    {
        match self {
            ScenarioEntry::One { statement } => statement.clock_after(now),
            ScenarioEntry::Ticks { row } => Some(row.last()),
        }
    }
}
