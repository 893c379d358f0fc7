//! A plant with nothing open.

ghost use Rattle.std.specs.Prelude.{◌≡◌, ◌<◌, IfErr, OnOk, vec_len};
ghost use Rattle.plantdriving.specs.Driven.{CannotGoOn, IsDriven, IsHeardFirst, IsInOrder};
ghost use Rattle.plantdriving.specs.Links.{logs};
ghost use Rattle.plantdriving.specs.Open.{HasNothingOpen};
ghost use Rattle.plantdriving.specs.Quiet.{IsQuiet};
ghost use Rattle.plantdriving.specs.Tellings.{TellsEach};
ghost use Rattle.plantdriving.specs.Ticks.{TicksAt};

use crate::settling::settle;
use crate::{Halt, Happened, Observer};
use buslink::Bus;
use plant::Plant;
use std::alloc::Global;
use std::marker::Model;

/// A plant in which no scan worker has a scan open, and no bus a transaction.
#[derive(Drop)]
pub struct IdlePlant {
    plant: Plant,
}

impl Model for IdlePlant {
    ghost use Rattle.std.specs.Coded.{codes};
    ghost use Rattle.ilplan.specs.contracts.plan.Plan as inner;
    ghost use Rattle.plant.specs.Shown.{Shown};
    ghost use Rattle.plantdriving.specs.Open.{HasNothingOpen};

    ghost Value = { Shown };

    ghost coded = { Prim.hlevel (codes, inner.the_row.coded) };

    ghost view = { λ p. p.plant };

    ghost invariant = { λ p. HasNothingOpen p.plant };
}

impl IdlePlant {
    /// A plant in which nothing is open.
    pub fn new(plant: Plant) -> Self
        requires { HasNothingOpen plant }
        ensures { result ≡ plant }
    {
        IdlePlant { plant }
    }

    /// The plant, to read it.
    pub fn as_plant(&self) -> &Plant
        ensures plant { result.now ≡ self.now }
        ensures idle { HasNothingOpen self.now }
    {
        &self.plant
    }

    /// It is this moment, in milliseconds.
    ///
    /// # Errors
    ///
    /// The plant refuses the tick, and is unchanged. Or the observer failed, once the tick was
    /// noted.
    pub fn tick<B, O: Observer<B>>(&mut self, moment: u64, observer: &mut O) -> Result<(), Halt>
        ensures ticks { TicksAt moment self.old self.new result }
        ensures told { TellsEach self.old self.new (O.told observer.old) (O.told observer.new)
            result }
    {
        let place = self.plant.len();
        self.plant.tick(moment)?;
        observer.note(place, Happened::Ticked { moment })?;
        Ok(())
    }

    /// Hears what came on each bus, and then scans, sends and hears, until nothing is left to do,
    /// as [`settle`] does.
    ///
    /// # Errors
    ///
    /// The history is full, the allocator is out of memory, or the observer failed.
    pub fn settle<B: Bus, O: Observer<B>>(
        &mut self,
        alloc: Global,
        lines: &mut Vec<B>,
        observer: &mut O,
    ) -> Result<(), Halt>
        requires workers { 0 < self.old.plant.workers }
        requires count { vec_len lines.old ≡ self.old.plant.plan.buses }
        ensures driven { IsDriven self.old self.new (logs B.log lines.old) (logs B.log lines.new) }
        ensures order { IsInOrder self.old self.new }
        ensures heard { OnOk result (IsHeardFirst self.old self.new (logs B.log lines.old)
            (logs B.log lines.new)) }
        ensures quiet { OnOk result
            (IsQuiet self.new (logs B.log lines.old) (logs B.log lines.new)) }
        ensures stops { IfErr result (CannotGoOn self.new) }
        ensures told { TellsEach self.old self.new (O.told observer.old) (O.told observer.new)
            result }
    {
        settle(alloc, &mut self.plant, lines, observer)
    }
}
