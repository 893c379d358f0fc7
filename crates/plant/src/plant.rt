//! The plant.

ghost use Rattle.std.specs.Prelude.{◌≡◌, ◌+◌, ◌<◌, ◌≤◌, true, false, length, not, nat_lt, ◌&&◌};
ghost use Rattle.std.specs.Prelude.{OnOk, OnErr, IfOk, IfErr};
ghost use Rattle.plantevents.specs.declared.event.Event.TheVariants as event;
ghost use Rattle.plantevents.specs.declared.role.Role.TheVariants as roles;
ghost use Rattle.plantevents.specs.Histories.{moment as last_moment, is_down};
ghost use Rattle.plantevents.specs.Legal.{AreLegal, IsUp};
ghost use Rattle.plant.specs.Shown.{Shown, grown, kept, reserving, is_reserved, is_full, opened};
ghost use Rattle.limits.specs.Limits.{most_total};
ghost use Rattle.plant.specs.Shown.{IsWorkerCount, IsLimit, IsRoomy, IsOpenFault};
ghost use Rattle.plant.specs.Refusals.{GivesFirst, tick_cases, may_tick_cases, heard_cases};
ghost use Rattle.plant.specs.Refusals.{down_cases, is_full_for};

mod coming_up;
mod committing;
mod handing;
mod owing;
mod readers;
mod reporting;
mod taking;

use crate::first_counts::first_counts;
use crate::index::{BusInputs, inputs_of};
use crate::inputs::write_message;
use crate::messages::count_message;
use crate::open_fault::OpenFault;
use crate::opening::first_image;
use crate::place::{keep_place, keep_place_of, use_place, use_place_of};
use crate::refusal::CallRefusal;
use crate::setups::task_setups;
use daliframe::Frame24;
use ghosts::Trace;
pub use handing::Handed;
use ilcompile::Setup;
use ilmachine::Image;
use limits::{FEW_BUSES, LEAST_EVENTS_OF_MANY};
pub use limits::{LEAST_EVENTS as LEAST_LIMIT, MOST_EVENTS as MOST_LIMIT, MOST_WORKERS};
use plantbuses::{
    BusOutputs, BusState, OwedLevels, RunningScan, fresh_buses, idle_workers, note_down,
    note_heard, outputs_of, owed_levels,
};
use plantevents::Event;
use readytasks::{Tasks, other_events_leave_tasks};
use std::alloc::{AllocError, Global};
use std::marker::Model;
pub use taking::Order;

/// A plan with its verified codes, scan workers and buses, as it runs. Its history has no bytes.
pub struct Plant {
    setup: Setup,
    workers: usize,
    limit: u64,
    history: Trace<Event>,
    tasks: Tasks,
    image: Image,
    /// The count of each source.
    counts: Vec<u16>,
    /// How often each task was taken.
    takes: Vec<u64>,
    scans: Vec<Option<RunningScan>>,
    buses: Vec<BusState>,
    /// What is located at inputs of each bus.
    inputs: Vec<BusInputs>,
    /// What is located at the levels of each bus.
    outputs: Vec<BusOutputs>,
    /// The levels of each bus that are owed.
    owed: Vec<OwedLevels>,
    /// Whether a place is kept back for a tick, and for a frame of each bus.
    clock_place: bool,
    bus_places: Vec<bool>,
    moment: u64,
    /// How many events there were, and how many places are kept for events to come.
    length: u64,
    kept: u64,
}

/// Written out, so that it is proved here alone.
impl Drop for Plant {
    fn drop(self) {
        let Self {
            setup: _,
            workers: _,
            limit: _,
            history: _,
            tasks: _,
            image: _,
            counts: _,
            takes: _,
            scans: _,
            buses: _,
            inputs: _,
            outputs: _,
            owed: _,
            clock_place: _,
            bus_places: _,
            moment: _,
            length: _,
            kept: _,
        } = self;
    }
}

impl Model for Plant {
    ghost use Rattle.std.specs.Coded.{codes};
    ghost use Rattle.ilplan.specs.contracts.plan.Plan as inner;
    ghost use Rattle.plant.specs.Shown.{Shown, plant_of};
    ghost use Rattle.plant.specs.KeptSteps.{KeptPlant, Says};

    ghost Value = { Shown };

    ghost coded = { Prim.hlevel (codes, inner.the_row.coded) };

    ghost view = { λ p. record {
      plant = plant_of p.setup p.workers;
      limit = p.limit;
      history = p.history.items;
      reserved = record { clock = p.clock_place; buses = p.bus_places.items };
    } };

    ghost invariant = { λ p. Says (record {
      plant = plant_of p.setup p.workers;
      limit = p.limit;
      history = p.history.items;
      reserved = record { clock = p.clock_place; buses = p.bus_places.items };
    }) (record {
      tasks = p.tasks;
      image = p.image;
      counts = p.counts.items;
      takes = p.takes.items;
      scans = p.scans.items;
      buses = p.buses.items;
      inputs = p.inputs.items;
      outputs = p.outputs.items;
      owed = p.owed.items;
      moment = p.moment;
      length = p.length;
      kept = p.kept;
    }) };
}

impl Plant {
    /// A plant to which nothing has happened, with the memory of all that may wait and be pending.
    ///
    /// # Errors
    ///
    /// There are not 1 to 16 scan workers; else the limit is not 100 to 1,000,000, or below 500
    /// with more than 16 buses; else the allocator may be out of memory.
    pub fn open(alloc: Global, setup: Setup, workers: usize, limit: u64) -> Result<Plant, OpenFault>
        ensures opened { IfOk result (λ plant. plant ≡ opened setup workers limit) }
        ensures workers { OnOk result (IsWorkerCount workers) }
        ensures limit { OnOk result (IsLimit limit) }
        ensures roomy { OnOk result (IsRoomy setup.plan.buses limit) }
        ensures fault { IfErr result (IsOpenFault setup.plan.buses workers limit) }
    {
        if workers < 1 || workers > MOST_WORKERS {
            return Err(OpenFault::BadCount);
        }
        if limit < LEAST_LIMIT || limit > MOST_LIMIT {
            return Err(OpenFault::Limit);
        }
        if setup.plan().buses() > FEW_BUSES && limit < LEAST_EVENTS_OF_MANY {
            return Err(OpenFault::Limit);
        }
        Plant::fresh(alloc, setup, workers, limit).map_err(|_| OpenFault::Memory)
    }

    /// A plant to which nothing has happened.
    fn fresh(alloc: Global, setup: Setup, workers: usize, limit: u64) -> Result<Plant, AllocError>
        requires workers { IsWorkerCount workers }
        requires limit { IsLimit limit }
        ensures { IfOk result (λ plant. plant ≡ opened setup workers limit) }
    {
        let buses = setup.plan().buses();
        let setups = task_setups(alloc, setup.plan())?;
        let tasks = Tasks::new(alloc, &setups)?;
        let image = first_image(alloc, &setup)?;
        let counts = first_counts(alloc, setup.plan())?;
        let takes = vec![in alloc; 0u64; setup.plan().tasks()]?;
        let scans = idle_workers(alloc, workers)?;
        let states = fresh_buses(alloc, buses)?;
        let inputs = inputs_of(alloc, setup.plan())?;
        let outputs = outputs_of(alloc, setup.plan())?;
        let owed = owed_levels(alloc, &outputs, &states, &image)?;
        let bus_places = vec![in alloc; false; usize::from(buses)]?;
        Ok(Plant {
            setup,
            workers,
            limit,
            history: Trace::new(),
            tasks,
            image,
            counts,
            takes,
            scans,
            buses: states,
            inputs,
            outputs,
            owed,
            clock_place: false,
            bus_places,
            moment: 0,
            length: 0,
            kept: u64::from(buses),
        })
    }

    /// Sets the limit, which leaves room for what happened and for what is kept for events to come.
    /// It is 2^59 at most.
    pub fn set_limit(&mut self, limit: u64)
        requires room { length self.old.history + kept self.old ≤ limit }
        requires most { limit ≤ most_total }
        ensures { self.new ≡ record self.old { limit = limit } }
    {
        self.limit = limit;
    }

    /// Keeps a place of the history back for a tick, until it is used.
    pub fn may_tick(&mut self) -> Result<(), CallRefusal>
        ensures refused { GivesFirst (may_tick_cases self.old) result }
        ensures ok { OnOk result (self.new ≡ reserving roles.Clock self.old) }
        ensures keeps { OnOk result (is_reserved roles.Clock self.new ≡ true) }
        ensures err { OnErr result (self.new ≡ self.old) }
    {
        if !self.clock_place && self.is_full() {
            return Err(CallRefusal::Full);
        }
        keep_place(&mut self.clock_place, &mut self.kept);
        Ok(())
    }

    /// Whether a tick to this moment is possible, and else why not.
    pub(crate) fn allows_tick(&self, moment: u64) -> Result<(), CallRefusal>
        ensures refused { GivesFirst (tick_cases self.now moment) result }
        ensures allowed { OnOk result ((last_moment self.now.history ≤ moment)
            × (is_full_for roles.Clock self.now ≡ false)) }
    {
        if moment < self.moment {
            return Err(CallRefusal::ClockBack);
        }
        if !self.clock_place && self.is_full() {
            return Err(CallRefusal::Full);
        }
        Ok(())
    }

    /// Notes that it is this moment, in milliseconds.
    pub fn tick(&mut self, moment: u64) -> Result<(), CallRefusal>
        ensures refused { GivesFirst (tick_cases self.old moment) result }
        ensures ok { OnOk result (self.new ≡ grown self.old (event.Tick moment)) }
        ensures err { OnErr result (self.new ≡ self.old) }
    {
        self.allows_tick(moment)?;
        self.tasks.tick(self.length, moment);
        self.history.push(&Event::Tick { moment });
        self.moment = moment;
        use_place(&mut self.clock_place, &mut self.kept);
        self.length += 1;
        Ok(())
    }

    /// Whether there is such a bus that is not down.
    fn is_up(&self, bus: u8) -> Result<(), CallRefusal>
        ensures refused { GivesFirst (down_cases self.now bus) result }
        ensures allowed { OnOk result (IsUp self.now.plant self.now.history bus) }
    {
        if bus >= self.setup.plan().buses() {
            return Err(CallRefusal::Stranger);
        }
        if self.buses[usize::from(bus)].is_down() {
            return Err(CallRefusal::BusDown);
        }
        Ok(())
    }

    /// Closes a bus, and its transaction if one is open.
    pub fn down(&mut self, bus: u8) -> Result<(), CallRefusal>
        ensures refused { GivesFirst (down_cases self.old bus) result }
        ensures ok { OnOk result (self.new ≡ grown self.old (event.Down bus)) }
        ensures err { OnErr result (self.new ≡ self.old) }
    {
        self.is_up(bus)?;
        other_events_leave_tasks();
        note_down(&mut self.buses, bus);
        self.history.push(&Event::Down { bus });
        self.length += 1;
        self.kept -= 1;
        Ok(())
    }

    /// Keeps a place of the history back for a frame of a bus, until it is used.
    pub fn may_hear(&mut self, bus: u8) -> Result<(), CallRefusal>
        ensures refused { GivesFirst (heard_cases self.old bus) result }
        ensures ok { OnOk result (self.new ≡ reserving (roles.Bus bus) self.old) }
        ensures keeps { OnOk result (is_reserved (roles.Bus bus) self.new ≡ true) }
        ensures err { OnErr result (self.new ≡ self.old) }
    {
        self.allows_frame(bus)?;
        keep_place_of(&mut self.bus_places, bus, &mut self.kept);
        Ok(())
    }

    /// Whether a frame of a bus may be heard, and else why not.
    pub(crate) fn allows_frame(&self, bus: u8) -> Result<(), CallRefusal>
        ensures refused { GivesFirst (heard_cases self.now bus) result }
        ensures up { OnOk result (IsUp self.now.plant self.now.history bus) }
        ensures room { OnOk result (is_full_for (roles.Bus bus) self.now ≡ false) }
    {
        self.is_up(bus)?;
        if !self.bus_places[usize::from(bus)] && self.is_full() {
            return Err(CallRefusal::Full);
        }
        Ok(())
    }

    /// Notes a frame that was heard on a bus.
    pub fn note_frame(&mut self, bus: u8, frame: Frame24) -> Result<(), CallRefusal>
        ensures refused { GivesFirst (heard_cases self.old bus) result }
        ensures ok { OnOk result (self.new ≡ grown self.old (event.Heard bus frame)) }
        ensures err { OnErr result (self.new ≡ self.old) }
    {
        self.allows_frame(bus)?;
        self.tasks.note_frame(self.length, bus, frame);
        let inputs = &self.inputs[usize::from(bus)];
        count_message(
            self.setup.plan().sources(),
            inputs.sources(),
            &mut self.counts,
            bus,
            frame,
        );
        write_message(
            self.setup.plan(),
            inputs,
            &self.counts,
            &mut self.image,
            bus,
            frame,
        );
        note_heard(&mut self.buses, bus);
        use_place_of(&mut self.bus_places, bus, &mut self.kept);
        self.history.push(&Event::Heard { bus, frame });
        self.length += 1;
        Ok(())
    }
}
