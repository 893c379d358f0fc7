//! The statements of a scenario so far, and what they declare.

ghost use Rattle.std.specs.Prelude.{◌≡◌, ◌+◌, ◌++◌, IfOk, OnErr, Err};
ghost use Rattle.wordlines.specs.declared.fault.LineFault.TheVariants.{Memory};
ghost use Rattle.wordlines.specs.Entries.{first_ticks, statements_of};
ghost use Rattle.wordlines.specs.Known.{declared_by};
ghost use Rattle.wordlines.specs.TickRows.{further};

use crate::entries::ScenarioEntry;
use crate::scenario_fault::ScenarioFault;
use crate::statements::Statement;
use crate::tick_row::TickRow;
use std::alloc::Global;
use std::collections::HashSet;
use std::marker::Model;

/// What a statement declares, which no later one may declare again: a key to be hashed, so the
/// numbers stand as they are read.
#[derive(Clone, Copy, PartialEq, Eq, Hash)]
pub(crate) enum Declaration {
    /// A control gear.
    Gear { bus: u8, short: u8 },
    /// A control device.
    Device { bus: u8, short: u8 },
    /// An instance of a control device.
    Instance { bus: u8, short: u8, number: u8 },
    /// What becomes of a frame.
    Reply { bus: u8, place: u64 },
}

/// Statements in order. What they declare is found by hashing, so that a line costs the same
/// however many stand before it.
#[derive(Drop)]
pub(crate) struct Known {
    statements: Vec<Statement>,
    declared: HashSet<Declaration>,
}

impl Model for Known {
    ghost use Rattle.std.specs.Prelude.{List};
    ghost use Rattle.std.specs.HashSet.{contains};
    ghost use Rattle.wordlines.specs.Known.{AreDeclared};
    ghost use Rattle.wordlines.specs.contracts.known.DeclarationPartialEq.TheImpl.{eq-value};
    ghost use Rattle.wordlines.specs.declared.statements.Statement.{Statement};

    ghost Value = { List Statement };

    ghost view = { λ k. k.statements.items };

    ghost invariant = { λ k. AreDeclared (contains eq-value.it k.declared) k.statements.items };
}

impl Known {
    ghost use Rattle.std.specs.Prelude.{[], ◌∷◌, length};
    ghost use Rattle.std.specs.List.{list_any};
    ghost use Rattle.wordlines.specs.Known.{declares};

    /// No statements.
    pub(crate) fn new(alloc: Global) -> Known
        ensures { result ≡ [] }
    {
        Known {
            statements: Vec::new(alloc),
            declared: HashSet::new(alloc),
        }
    }

    /// How many they are.
    pub(crate) fn len(&self) -> usize
        ensures { result ≡ length self.now }
    {
        self.statements.len()
    }

    /// Whether one of them makes a declaration.
    pub(crate) fn has(&self, declaration: Declaration) -> bool
        ensures { result ≡ list_any (declares declaration) self.now }
    {
        self.declared.contains(&declaration)
    }

    /// These and one more.
    pub(crate) fn with(mut self, statement: Statement) -> Result<Known, ScenarioFault>
        ensures more { IfOk result (λ more. more ≡ self ++ statement ∷ []) }
        ensures memory { OnErr result (result ≡ Err Memory) }
    {
        if let Some(declaration) = declared_by(&statement) {
            self.declared.insert(declaration)?;
        }
        self.statements.push(statement)?;
        Ok(self)
    }

    /// These, and those that a line stands for.
    pub(crate) fn with_entry(self, entry: &ScenarioEntry) -> Result<Known, ScenarioFault>
        ensures more { IfOk result (λ more. more ≡ self ++ statements_of entry.now) }
        ensures memory { OnErr result (result ≡ Err Memory) }
    {
        match entry {
            ScenarioEntry::One { statement } => self.with(*statement),
            ScenarioEntry::Ticks { row } => with_ticks(self, row),
        }
    }

    /// They alone.
    pub(crate) fn into_statements(self) -> Vec<Statement>
        ensures { result.items ≡ self }
    {
        self.statements
    }
}

/// Statements, and a tick for each of a row.
fn with_ticks(known: Known, row: &TickRow) -> Result<Known, ScenarioFault>
    ensures more { IfOk result (λ more. more ≡ known ++ first_ticks row.now (further row.now + 1)) }
    ensures memory { OnErr result (result ≡ Err Memory) }
{
    let moment = row.first();
    let mut known = known.with(Statement::Tick { moment })?;
    for place in 0..row.further() {
        let moment = row.moment_at(place + 1);
        known = known.with(Statement::Tick { moment })?;
    }
    Ok(known)
}

/// What a statement declares, where it declares something.
fn declared_by(statement: &Statement) -> Option<Declaration>
    ensures { result ≡ declared_by statement.now }
{
    match *statement {
        Statement::Gear { bus, short, .. } => Some(Declaration::Gear {
            bus: bus.number(),
            short: short.number(),
        }),
        Statement::Device { bus, short } => Some(Declaration::Device {
            bus: bus.number(),
            short: short.number(),
        }),
        Statement::InputInstance {
            bus,
            short,
            number,
            ..
        } => Some(Declaration::Instance {
            bus: bus.number(),
            short: short.number(),
            number: number.number(),
        }),
        Statement::Reply { bus, place, .. } => Some(Declaration::Reply {
            bus: bus.number(),
            place,
        }),
        Statement::LampFailure { .. }
        | Statement::Memory { .. }
        | Statement::HearFault { .. }
        | Statement::Tick { .. }
        | Statement::Event { .. } => None,
    }
}
