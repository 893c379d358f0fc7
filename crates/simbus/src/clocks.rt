//! The clock of a scenario.
ghost use Rattle.std.specs.Prelude.{◌≡◌, IfOk, IfSome};
ghost use Rattle.buslink.specs.ClockLog.{TellsEnd, after_now, IsNotBefore};
ghost use Rattle.wordlines.specs.Happenings.{tick_in, ticks};
ghost use Rattle.simbus.specs.ScriptedTicks.{IsByScript, new_clock, next_moment, after_tick};

use buslink::Clock;
use std::alloc::{AllocError, Global};
use std::marker::Model;
use wordlines::{Scenario, Statement};

/// A clock that gives the ticks of a scenario in order, and then none. It makes its room when it is
/// made.
#[derive(Drop)]
pub struct ScriptedClock {
    moments: Vec<u64>,
    /// How many of them were given.
    given: usize,
    asks: u64,
    gave_none: bool,
}

impl Model for ScriptedClock {
    ghost use Rattle.simbus.specs.ScriptedTicks.{ScriptedTicks};
    ghost use Rattle.simbus.specs.Insides.{scripted, IsScriptedClock};

    ghost Value = { ScriptedTicks };

    ghost view = { scripted };

    ghost invariant = { IsScriptedClock };
}

impl ScriptedClock {
    /// The clock of a scenario, which was never asked.
    ///
    /// # Errors
    ///
    /// Memory was refused.
    pub fn of(alloc: Global, scenario: &Scenario) -> Result<Self, AllocError>
        ensures { IfOk result (λ c. c ≡ new_clock (ticks scenario.now)) }
    {
        let moments = ticks_in(alloc, scenario.lines())?;
        Ok(ScriptedClock {
            moments,
            given: 0,
            asks: 0,
            gave_none: false,
        })
    }

    /// What was given and what is still to come are all that it is to give.
    pub fn is_by_script(&self)
        ensures { IsByScript self.now }
    {
        let _given = self.given;
    }
}

/// The moments of the ticks.
fn ticks_in(alloc: Global, statements: &[Statement]) -> Result<Vec<u64>, AllocError>
    ensures { IfOk result (λ v. v.items ≡ ticks statements.now) }
{
    statements
        .iter()
        .filter_map(|statement| tick_in(statement))
        .collect(alloc)
}

/// The moment of a tick.
fn tick_in(statement: &Statement) -> Option<u64>
    ensures { result ≡ tick_in statement.now }
{
    match *statement {
        Statement::Tick { moment } => Some(moment),
        _ => None,
    }
}

impl Clock for ScriptedClock {
    ghost log = { λ c. c.log };

    fn now(&mut self) -> Option<u64>
        ensures moment { result ≡ next_moment self.old.later }
        ensures after { self.new ≡ after_tick self.old }
        ensures logged { self.new.log ≡ after_now result self.old.log }
        ensures never_falls { IfSome result (λ moment. IsNotBefore moment self.old.log) }
        ensures ends { TellsEnd result self.old.log }
    {
        self.asks = self.asks.saturating_add(1);
        self.gave_none = self.given >= self.moments.len();
        if self.gave_none {
            return None;
        }
        let moment = self.moments[self.given];
        self.given += 1;
        Some(moment)
    }
}
