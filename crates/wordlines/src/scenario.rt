//! Scenarios, and the faults of their lines.

ghost use Rattle.std.specs.Prelude.{◌≡◌, ◌↔◌, ℕ, List, MatchOption, Err};
ghost use Rattle.std.specs.Str.Lines.{lines};
ghost use Rattle.wordlines.specs.WordLines.{IsSkipped};
ghost use Rattle.wordlines.specs.LineRules.{Adds};
ghost use Rattle.wordlines.specs.declared.entries.ScenarioEntry.{ScenarioEntry};
ghost use Rattle.wordlines.specs.declared.statements.Statement.{Statement};
ghost use Rattle.wordlines.specs.Following.{clock};
ghost use Rattle.wordlines.specs.Scenarios.{scenario_rules, AddsSome, GivesIfRoom};
ghost use Rattle.wordlines.specs.Scenarios.{IsBadScenario, IsJudged, IsScenario, IsTooLong};

use crate::entries::ScenarioEntry;
use crate::follow::may_stand;
use crate::happenings::Happenings;
use crate::known::Known;
use crate::scenario_fault::ScenarioFault;
use crate::scenario_lines::entry_of;
use crate::statements::Statement;
use crate::{LineCause, LineFault, LineState, read_lines};
use std::alloc::Global;
use std::marker::Model;

/// What happens on simulated buses: statements in order.
#[derive(Drop)]
pub struct Scenario {
    statements: Vec<Statement>,
}

impl Model for Scenario {
    ghost use Rattle.std.specs.Prelude.{List, []};
    ghost use Rattle.wordlines.specs.Following.{FollowOneAnother};
    ghost use Rattle.wordlines.specs.declared.statements.Statement.{Statement};

    ghost Value = { List Statement };

    ghost view = { λ s. s.statements.items };

    ghost invariant = { λ s. FollowOneAnother [] s.statements.items };
}

impl Scenario {
    ghost use Rattle.std.specs.Prelude.{◌≡◌, []};
    ghost use Rattle.wordlines.specs.Following.{FollowOneAnother};
    ghost use Rattle.wordlines.specs.Happenings.{happenings};

    /// The statements in order.
    pub fn lines(&self) -> &[Statement]
        ensures statements { result.now ≡ self.now }
        ensures order { FollowOneAnother [] self.now }
    {
        self.statements.as_slice()
    }

    /// What happens, in order: each tick, each event and each fault of hearing, and nothing else.
    pub fn happenings(&self) -> Happenings<'_>
        ensures { result ≡ happenings self.now }
    {
        Happenings::of(self.lines())
    }
}

/// The scenario that a file spells: lines of words between single spaces. Empty lines and lines
/// that begin with `#` are skipped; a line ends with LF or CR LF, and the last needs no end.
///
/// # Errors
///
/// The first bad line, or line 1 where there are more than [`limits::MOST_BYTES`] bytes. Memory is
/// refused only where a statement is to be kept, which a line stands for.
pub fn parse(alloc: Global, bytes: &[u8]) -> Result<Scenario, ScenarioFault>
    ensures scenario { (statements : List Statement) → result ≡ Ok statements
        → IsScenario bytes.now statements }
    ensures is_given { (statements : List Statement) → IsScenario bytes.now statements
        → GivesIfRoom result (Ok statements) }
    ensures bad_line { (line : ℕ) → result ≡ Err (LineFault.At line LineCause.BadLine)
        → IsBadScenario bytes.now line }
    ensures bad_is_reported { (line : ℕ) → IsBadScenario bytes.now line
        → GivesIfRoom result (Err (LineFault.At line LineCause.BadLine)) }
    ensures memory { result ≡ Err LineFault.Memory → AddsSome (lines bytes.now) }
    ensures too_long { (line : ℕ) → (result ≡ Err (LineFault.At line LineCause.TooLong))
        ↔ IsTooLong bytes.now line }
{
    statements_of(alloc, bytes)
}

/// The scenario that lines say, or the first bad line.
fn statements_of(alloc: Global, bytes: &[u8]) -> Result<Scenario, ScenarioFault>
    ensures judged { IsJudged bytes.now result }
    ensures too_long { (line : ℕ) → (result ≡ Err (LineFault.At line LineCause.TooLong))
        ↔ IsTooLong bytes.now line }
{
    let start = Read {
        known: Known::new(alloc),
        now: None,
    };
    let read = read_lines(start, bytes)?;
    Ok(Scenario {
        statements: read.known.into_statements(),
    })
}

/// What the lines of a scenario that were read say.
#[derive(Drop)]
struct Read {
    known: Known,
    /// The moment to which the clock came.
    now: Option<u64>,
}

impl Model for Read {
    ghost use Rattle.std.specs.Prelude.{◌≡◌, List, []};
    ghost use Rattle.wordlines.specs.Following.{FollowOneAnother, clock};
    ghost use Rattle.wordlines.specs.declared.statements.Statement.{Statement};

    ghost Value = { List Statement };

    ghost view = { λ read. read.known };

    ghost invariant = { λ read. (read.now ≡ clock read.known)
        × FollowOneAnother [] read.known };
}

impl LineState<Scenario> for Read {
    ghost use Rattle.wordlines.specs.Scenarios.{scenario_rules, IsKept};
    ghost use Rattle.wordlines.specs.declared.entries.ScenarioEntry.{ScenarioEntry};

    ghost Entry = { ScenarioEntry };

    ghost rules = { scenario_rules };

    ghost IsKept = { IsKept };

    fn after(self, line: &[u8]) -> Result<Option<Self>, ScenarioFault> {
        let Read { known, now } = self;
        let Some(entry) = next_entry(&known, now, line) else {
            return Ok(None);
        };
        let known = known.with_entry(&entry)?;
        let now = entry.clock_after(now);
        Ok(Some(Read { known, now }))
    }
}

/// What a line adds to statements, at which the clock came to `now`.
fn next_entry(before: &Known, now: Option<u64>, line: &[u8]) -> Option<ScenarioEntry>
    requires read { ¬ (IsSkipped line.now) }
    requires clock { now ≡ clock before.now }
    ensures { MatchOption result
        ((entry : ScenarioEntry) → ¬ Adds scenario_rules before.now line.now entry)
        (Adds scenario_rules before.now line.now) }
{
    let entry = entry_of(line)?;
    if may_stand(before, now, &entry) {
        Some(entry)
    } else {
        None
    }
}
