//! How tasks are taken.

ghost use Rattle.std.specs.Prelude.{ℕ, None, false};
ghost use Rattle.std.specs.Prelude.{◌≡◌, ◌<◌, All, Option, OnErr, IfOk, IfSome, length, not};
ghost use Rattle.std.specs.Prelude.{is_some, slice_get};
ghost use Rattle.iltypes.specs.declared.value.Value.{Value as AnyValue};
ghost use Rattle.ilmachine.specs.Images.{overridden};
ghost use Rattle.plantevents.specs.declared.event.Event.TheVariants as event;
ghost use Rattle.plantevents.specs.Plants.{Plant as Made, trigger_of};
ghost use Rattle.plantevents.specs.Histories.{scan};
ghost use Rattle.plantevents.specs.Choices.{IsNextTask};
ghost use Rattle.plantevents.specs.Variables.{IsSnapshot, newest};
ghost use Rattle.plantevents.specs.Legal.{IsTake};
ghost use Rattle.plant.specs.Refusals.{GivesFirst, GivesFirstOrMemory, take_cases, none_free};
ghost use Rattle.plant.specs.Shown.{grown, is_full};
ghost use Rattle.plant.specs.TakingSteps.{IsInType, taken_at};

use super::Plant;
use crate::overrides::overrides;
use crate::refusal::{CallError, CallRefusal};
use crate::setups::{trigger_of, trigger_place};
use ilmachine::{Override, Snapshot};
use plantbuses::{note_scan, note_take};
use plantevents::{Event, NotedSnapshot, Work};
use std::alloc::{AllocError, Global};

/// A task that a scan worker has taken.
#[derive(Drop)]
pub struct Order {
    /// The place of the Take in the history.
    pub number: u64,
    /// The number of the task.
    pub task: usize,
    /// The scan to be made, under that number, with all the room that it needs.
    pub work: Work,
}

impl Plant {
    /// The task that is to be taken.
    fn next(&self) -> Option<usize>
        ensures next { IfSome result (IsNextTask self.now.plant self.now.history) }
        ensures none { none_free self.now.plant self.now.history (length self.now.plant.plan.tasks)
            ≡ not (is_some result) }
    {
        self.tasks.next()
    }

    /// The task that a worker may take, or why it may take none.
    fn task_for(&self, worker: usize) -> Result<usize, CallRefusal>
        ensures refused { GivesFirst (take_cases self.now worker) result }
        ensures idle { IfOk result (λ t. (worker < self.now.plant.workers)
            × (scan worker self.now.history ≡ None) × (is_full self.now ≡ false)) }
        ensures next { IfOk result (IsNextTask self.now.plant self.now.history) }
    {
        if worker >= self.workers {
            return Err(CallRefusal::Stranger);
        }
        if self.scans[worker].is_some() {
            return Err(CallRefusal::Busy);
        }
        let Some(task) = self.next() else {
            return Err(CallRefusal::NothingReady);
        };
        if self.is_full() {
            return Err(CallRefusal::Full);
        }
        Ok(task)
    }

    /// What an event task takes in place of the image's values.
    fn overrides_for(&self, alloc: Global, task: usize) -> Result<Vec<Override>, AllocError>
        requires { task < length self.now.plant.plan.tasks }
        ensures values { IfOk result (λ given. (global : ℕ) (value : Option AnyValue)
            → overridden given.items global value
            ≡ newest (taken_at self.now.plant self.now.history task global) value) }
        ensures in_types { IfOk result (λ given.
            All (IsInType self.now.plant.plan) given.items) }
    {
        let plan = self.setup.plan();
        let Some((bus, number)) = trigger_place(trigger_of(plan, task)) else {
            return Ok(Vec::new(alloc));
        };
        let Some(event) = self.tasks.first_pending(task) else {
            return Ok(Vec::new(alloc));
        };
        let _lawful = plan.buses();
        let inputs = self.inputs[usize::from(bus)].numbers();
        overrides(alloc, plan, inputs, bus, number, event)
    }

    /// A snapshot of a task.
    fn snapshot_of(&self, alloc: Global, task: usize) -> Result<Snapshot, AllocError>
        requires { task < length self.now.plant.plan.tasks }
        ensures { IfOk result (IsSnapshot self.now.plant task self.now.history) }
    {
        let _codes = self.setup.plan();
        let given = self.overrides_for(alloc, task)?;
        self.image.take_with(task, self.moment, &given)
    }

    /// Takes the next task for a scan worker: of those that are ready without an open scan the one
    /// of the least priority number, of these the one that has been ready longest, of these the
    /// first that was declared.
    ///
    /// # Errors
    ///
    /// There is no such worker, it has a scan open, no task is ready, or the history is full: the
    /// first of these. Else the allocator may be out of memory. The plant is unchanged then.
    pub fn take(&mut self, alloc: Global, worker: usize) -> Result<Order, CallError>
        ensures refused { GivesFirstOrMemory (take_cases self.old worker) result }
        ensures number { IfOk result (λ order. (order.number ≡ length self.old.history)
            × (order.work.number ≡ length self.old.history)) }
        ensures taken { IfOk result (λ order. IsTake self.old.plant self.old.history worker
            order.task order.work.snapshot) }
        ensures grown { IfOk result (λ order. self.new
            ≡ grown self.old (event.Take worker order.task order.work.snapshot)) }
        ensures err { OnErr result (self.new ≡ self.old) }
    {
        let task = self.task_for(worker)?;
        let number = self.length;
        let snapshot = self.snapshot_of(alloc, task)?;
        let noted = NotedSnapshot::of(&snapshot);
        let began = NotedSnapshot::of(&snapshot);
        let work = Work::new(number, snapshot)?;
        let _ = self.tasks.take_event(number, task);
        note_take(&mut self.takes, task);
        note_scan(&mut self.scans, worker, number, task, began);
        self.history.push(&Event::Take {
            worker,
            task,
            snapshot: noted,
        });
        self.length += 1;
        self.kept += 1;
        Ok(Order { number, task, work })
    }
}
