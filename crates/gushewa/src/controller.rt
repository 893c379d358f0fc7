//! A plant on buses of a program's own.

ghost use Rattle.std.specs.Prelude.{◌≡◌, ◌<◌, vec_len};

use crate::not_opened::NotOpened;
use buslink::Bus;
use ilcompile::Setup;
use plant::Plant;
use plantdriving::{Halt, IdlePlant, Observer};
use std::alloc::Global;

/// One scan worker scans.
const WORKERS: usize = 1;

/// A plant on its buses, on one thread. Between its calls nothing is open: no scan, and no
/// transaction.
#[derive(Drop)]
pub struct Controller<B> {
    plant: IdlePlant,
    /// In the order of their numbers.
    buses: Vec<B>,
    ghost workers: { 0 < plant.plant.workers },
    ghost count: { vec_len buses ≡ plant.plant.plan.buses },
}

impl<B: Drop> Controller<B> {
    ghost use Rattle.std.specs.Prelude.{◌≡◌, IfErr, IfOk, option_map, slice_get};
    ghost use Rattle.gushewa.specs.Controllers.{IsNotOpened, IsOpened};

    /// The plant of a setup, to which nothing has happened, with one scan worker, on these buses:
    /// one for each bus of the plan, in the order of their numbers. Its history has the given
    /// number of events at most, 100 to 1,000,000, and with more than 16 buses at least 500.
    ///
    /// # Errors
    ///
    /// There are not as many buses as the plan has; else the limit is another, or the allocator is
    /// out of memory.
    pub fn open(
        alloc: Global,
        setup: Setup,
        buses: Vec<B>,
        limit: u64,
    ) -> Result<Controller<B>, NotOpened>
        ensures opened { IfOk result (IsOpened setup limit buses.items) }
        ensures refused { IfErr result (IsNotOpened setup.plan.buses (vec_len buses) limit) }
    {
        if buses.len() != usize::from(setup.plan().buses()) {
            return Err(NotOpened::Buses);
        }
        match Plant::open(alloc, setup, WORKERS, limit) {
            Ok(plant) => Ok(Controller {
                plant: IdlePlant::new(plant),
                buses,
            }),
            Err(fault) => Err(NotOpened::Plant(fault)),
        }
    }

    /// The plant, to read it.
    pub fn plant(&self) -> &Plant
        ensures value { result.now ≡ self.now.plant }
    {
        self.plant.as_plant()
    }

    /// The bus of this number, to read it, where there is one.
    pub fn bus(&self, number: u8) -> Option<&B>
        ensures { option_map (λ bus. bus.now) result ≡ slice_get self.now.buses.items number }
    {
        self.buses.get(usize::from(number))
    }
}

impl<B: Bus> Controller<B> {
    ghost use Rattle.std.specs.Prelude.{◌≡◌, IfErr, OnOk};
    ghost use Rattle.plantdriving.specs.Driven.{CannotGoOn, IsDriven, IsHeardFirst, IsInOrder};
    ghost use Rattle.plantdriving.specs.Links.{logs};
    ghost use Rattle.plantdriving.specs.Quiet.{IsQuiet};
    ghost use Rattle.plantdriving.specs.Tellings.{TellsEach};
    ghost use Rattle.plantdriving.specs.Ticks.{TicksAt};

    /// It is this moment, in milliseconds: what waits for it happens at the next
    /// [`Controller::settle`].
    ///
    /// # Errors
    ///
    /// The moment is below one before, or the history is full; nothing changes then. Or the
    /// observer failed, once the moment was noted.
    pub fn tick<O: Observer<B>>(&mut self, moment: u64, observer: &mut O) -> Result<(), Halt>
        ensures plant { TicksAt moment self.old.plant self.new.plant result }
        ensures buses { self.new.buses ≡ self.old.buses }
        ensures told { TellsEach self.old.plant self.new.plant (O.told observer.old)
            (O.told observer.new) result }
    {
        self.plant.tick(moment, observer)
    }

    /// Hears what came on each bus, and then scans, sends and hears, in rounds, until nothing is
    /// left to do.
    ///
    /// # Errors
    ///
    /// The history is full, the allocator is out of memory, or the observer failed.
    pub fn settle<O: Observer<B>>(&mut self, alloc: Global, observer: &mut O) -> Result<(), Halt>
        ensures driven { IsDriven self.old.plant self.new.plant (logs B.log self.old.buses)
            (logs B.log self.new.buses) }
        ensures order { IsInOrder self.old.plant self.new.plant }
        ensures heard { OnOk result (IsHeardFirst self.old.plant self.new.plant
            (logs B.log self.old.buses) (logs B.log self.new.buses)) }
        ensures quiet { OnOk result (IsQuiet self.new.plant (logs B.log self.old.buses)
            (logs B.log self.new.buses)) }
        ensures stops { IfErr result (CannotGoOn self.new.plant) }
        ensures told { TellsEach self.old.plant self.new.plant (O.told observer.old)
            (O.told observer.new) result }
    {
        self.plant.settle(alloc, &mut self.buses, observer)
    }
}
