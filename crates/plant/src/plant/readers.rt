//! What is read of a plant.

ghost use Rattle.std.specs.Prelude.{◌≡◌, ℕ, ◌+◌, ◌≤◌, ◌<◌, length, option_map, Some};
ghost use Rattle.std.specs.Prelude.{IfOk, IfSome, option_and_then, slice_get};
ghost use Rattle.limits.specs.Limits.{AreTries, most_total};
ghost use Rattle.ilplan.specs.Beginnings.{HasEach};
ghost use Rattle.ilmachine.specs.Images.{Global as GlobalVariable, variable_in};
ghost use Rattle.busqueue.specs.Queues.{class_number};
ghost use Rattle.plantevents.specs.Plants.{activator, layout, tries_of};
ghost use Rattle.plantevents.specs.Histories.{frames, hand, heards, is_down, scans};
ghost use Rattle.plantevents.specs.Readiness.{lost};
ghost use Rattle.plantevents.specs.Variables.{blocks, value};
ghost use Rattle.plantevents.specs.Waiting.{dropped, waiting};
ghost use Rattle.plantevents.specs.Legal.{AreLegal};
ghost use Rattle.plant.specs.Shown.{is_full, is_reserved, kept, used};

use super::Plant;
use busqueue::Class;
use ilcells::ValueRow;
use ilcompile::Setup;
use ilplan::TaskState;
use iltypes::Value;
use plantevents::Role;
use std::alloc::{AllocError, Global};

impl Plant {
    /// The plan with its verified codes.
    pub fn setup(&self) -> &Setup
        ensures plan { result.now.plan ≡ self.now.plant.plan }
        ensures codes { result.now.codes ≡ self.now.plant.codes }
    {
        &self.setup
    }

    /// How many scan workers there are.
    pub fn workers(&self) -> usize
        ensures value { result ≡ self.now.plant.workers }
    {
        self.workers
    }

    /// The attempts that a bus has for a transaction, 1 to 5: those of its binding's line `tries`,
    /// and else 3.
    pub fn tries(&self, bus: u8) -> u8
        requires { bus < self.now.plant.plan.buses }
        ensures value { result ≡ tries_of self.now.plant bus }
        ensures range { AreTries result }
    {
        self.setup.plan().tries(bus)
    }

    /// The most events and places that are kept for events to come.
    pub fn limit(&self) -> u64
        ensures value { result ≡ self.now.limit }
        ensures most { self.now.limit ≤ most_total }
    {
        self.limit
    }

    /// How many events there were.
    pub fn len(&self) -> u64
        ensures value { result ≡ length self.now.history }
        ensures legal { AreLegal self.now.plant self.now.history }

        // With what is kept for events to come they are no more than the limit.
        ensures within { length self.now.history + kept self.now ≤ self.now.limit }

        // A place may be kept back for each bus.
        ensures places { length self.now.reserved.buses ≡ self.now.plant.plan.buses }
    {
        self.length
    }

    /// How many places of the history are used: by its events, and by what is kept for events to
    /// come.
    pub fn used_places(&self) -> u64
        ensures value { result ≡ used self.now }
    {
        self.length + self.kept
    }

    /// Whether no place of the history is left for an event and the one that it keeps.
    pub fn is_full(&self) -> bool
        ensures value { result ≡ is_full self.now }
    {
        self.limit < self.length + self.kept + 2
    }

    /// Whether a place of the history is kept back for a role: for the clock's next tick, or for
    /// the next frame of a bus.
    pub fn keeps(&self, role: Role) -> bool
        ensures value { result ≡ is_reserved role self.now }
    {
        match role {
            Role::Clock => self.clock_place,
            Role::Bus(bus) => match self.bus_places.get(usize::from(bus)) {
                Some(place) => *place,
                None => false,
            },
            Role::Worker(_) => false,
        }
    }

    /// Whether a bus is down.
    pub fn is_down(&self, bus: u8) -> bool
        requires { bus < self.now.plant.plan.buses }
        ensures value { result ≡ is_down bus self.now.history }
    {
        self.buses[usize::from(bus)].is_down()
    }

    /// The number of the transaction that a bus has open.
    pub fn open_hand(&self, bus: u8) -> Option<u64>
        requires { bus < self.now.plant.plan.buses }
        ensures value { result ≡ option_map (λ handed. handed.place) (hand bus self.now.history) }
    {
        match self.buses[usize::from(bus)].hand() {
            Some(open) => Some(open.place()),
            None => None,
        }
    }

    /// The value of a global variable: what was written to it last, else its initial value.
    pub fn value(&self, global: usize) -> Value
        requires { global < length self.now.plant.plan.globals }
        ensures value { value self.now.plant (GlobalVariable global) self.now.history
            ≡ Some result }
    {
        let _values = self.image.values();
        self.image.value(global)
    }

    /// What lasts of a task: the value of the variable in each of its slots, which was written to
    /// it last, else its initial value; and what each of its block instances keeps.
    ///
    /// # Errors
    ///
    /// The allocator is out of memory.
    pub fn task_state(&self, alloc: Global, task: usize) -> Result<TaskState, AllocError>
        requires { task < length self.now.plant.plan.tasks }
        ensures each { IfOk result (λ state. IfSome (slice_get self.now.plant.plan.tasks task)
            (λ t. HasEach t state)) }
        ensures values { IfOk result (λ state. (slot : ℕ) → slice_get state.slots slot
            ≡ option_and_then (λ v. value self.now.plant v self.now.history)
            (variable_in (layout self.now.plant) task slot)) }
        ensures blocks { IfOk result (λ state.
            blocks self.now.plant task self.now.history ≡ Some state.blocks) }
    {
        let _codes = self.setup.plan();
        let state = self.image.take(task, self.moment)?;
        let copies = state.copy_lasting()?;
        let values = row_values(alloc, &copies.0)?;
        Ok(TaskState::new(values, copies.1))
    }

    /// How many requests of a class wait for a bus, at most 64.
    pub fn waiting(&self, bus: u8, class: Class) -> usize
        requires { bus < self.now.plant.plan.buses }
        ensures value { result
            ≡ length (waiting self.now.plant bus (class_number class) self.now.history) }
    {
        self.buses[usize::from(bus)].queues().waiting(class)
    }

    /// How many requests of a class were dropped at a bus.
    pub fn drop_count(&self, bus: u8, class: Class) -> u64
        requires { bus < self.now.plant.plan.buses }
        ensures value { result
            ≡ dropped self.now.plant bus (class_number class) self.now.history }
    {
        self.buses[usize::from(bus)].queues().drop_count(class)
    }

    /// How many events were given up for a task, since 32 later ones came before it was taken.
    pub fn loss_count(&self, task: usize) -> u64
        requires { task < length self.now.plant.plan.tasks }
        ensures value { result ≡ lost (activator self.now.plant task) task self.now.history }
    {
        self.tasks.loss_count(task)
    }

    /// How many frames are in the reports of a bus.
    pub fn frames(&self, bus: u8) -> u64
        requires { bus < self.now.plant.plan.buses }
        ensures value { result ≡ frames bus self.now.history }
    {
        self.buses[usize::from(bus)].frames()
    }

    /// How many frames were heard on a bus.
    pub fn heards(&self, bus: u8) -> u64
        requires { bus < self.now.plant.plan.buses }
        ensures value { result ≡ heards bus self.now.history }
    {
        self.buses[usize::from(bus)].heards()
    }

    /// How often a task was taken.
    pub fn scans(&self, task: usize) -> u64
        requires { task < length self.now.plant.plan.tasks }
        ensures value { result ≡ scans task self.now.history }
    {
        self.takes[task]
    }
}

/// The values of a row.
#[tactic(auto, using(crate::proofs::States::take_at))]
fn row_values(alloc: Global, row: &ValueRow) -> Result<Vec<Value>, AllocError>
    ensures { IfOk result (λ values. values.items ≡ row.now) }
{
    let mut values = Vec::new(alloc);
    for slot in 0..row.len() {
        values.push(row.get(slot))?;
    }
    Ok(values)
}
