//! The tasks of a plant.
ghost use Rattle.std.specs.Prelude.{◌≡◌, ℕ, ◌+◌, ◌<◌, ◌≤◌, ◌^◌, [], ◌∷◌, List, length, slice_get};
ghost use Rattle.std.specs.Prelude.{IfOk, All};
ghost use Rattle.plantevents.specs.Snapshots.{ScanStart};
ghost use Rattle.plantevents.specs.Scans.{Scan};
ghost use Rattle.limits.specs.Limits.{most_tasks};
ghost use Rattle.plantevents.specs.declared.event.Event.{Event};
ghost use Rattle.plantevents.specs.declared.event.Event.TheVariants.{Tick, Heard, Take, Commit};
ghost use Rattle.plantevents.specs.Plants.{Plant, activator};
ghost use Rattle.plantevents.specs.Histories.{OpenScan, scan};
ghost use Rattle.plantevents.specs.Readiness.{ready, pending, lost};
ghost use Rattle.plantevents.specs.Choices.{Chooses, is_free, rank};
ghost use Rattle.readytasks.specs.declared.setup.TaskSetup.{TaskSetup as Setup};
ghost use Rattle.readytasks.specs.TaskSets.{HasInterval, TaskFollows, AreSetups};
ghost use Rattle.readytasks.specs.TaskSets.{Follows, task_at};
ghost use Rattle.readytasks.specs.TaskSetSteps.{setup_at};

use crate::choice::choose;
use crate::noting::{heard_all, tick_all};
use crate::ready_list::{ReadyList, first_ready, leave, relist};
use crate::setup::TaskSetup;
use crate::task_state::TaskState;
use daliframe::Frame24;
use plantevents::PendingEvent;
use std::alloc::{AllocError, Global};
use std::marker::Model;

/// The tasks of a plant: for each what is pending, when it was taken, and since when it is ready;
/// and the list of those that are ready, in the order in which they go. After `new` no call takes
/// memory.
///
/// A place is the number of events before an event. It has 64 bits, and so has the number of events
/// after it: the caller knows that there are fewer than 2^64.
#[derive(Drop)]
pub struct Tasks {
    moment: u64,
    states: Vec<TaskState>,
    ready: ReadyList,
}

impl Model for Tasks {
    ghost use Rattle.readytasks.specs.TaskSets.{TaskSet};
    ghost use Rattle.readytasks.specs.ReadyLists.{IsReadyList};

    ghost Value = { TaskSet };

    ghost view = { λ t. record { moment = t.moment; tasks = t.states.items } };

    ghost invariant = { λ t. IsReadyList t.states.items t.moment t.ready.items };
}

impl Tasks {
    /// The tasks of a plant to which nothing has happened, in declared order, with the memory of
    /// all that may be pending. An interval has 1 millisecond or more. There are at most 16, as in
    /// a plan.
    pub fn new(alloc: Global, setups: &[TaskSetup]) -> Result<Tasks, AllocError>
        requires few { length setups.now ≤ most_tasks }
        requires intervals { All (λ s. HasInterval s.activator) setups.now }
        ensures follows { IfOk result (λ tasks. (p : Plant)
            → AreSetups p setups.now → Follows p [] tasks) }
    {
        let states = fresh_states(alloc, setups)?;
        let ready = first_ready(&states);
        Ok(Tasks {
            moment: 0,
            states,
            ready,
        })
    }

    /// How many there are.
    pub fn len(&self) -> usize
        ensures value { result ≡ length self.now.tasks }
    {
        self.states.len()
    }

    /// Notes that it is this moment, in milliseconds: a tick at this place of the history.
    pub fn tick(&mut self, place: u64, moment: u64)
        requires small { place + 1 < 2 ^ 64 }
        ensures follows { (p : Plant) (h : List Event)
            → Follows p h self.old → place ≡ length h → Follows p (Tick moment ∷ h) self.new }
    {
        tick_all(
            &mut self.states,
            &mut self.ready,
            place,
            self.moment,
            moment,
        );
        self.moment = moment;
    }

    /// Notes a frame that was heard on a bus, at this place of the history: it activates each task
    /// whose source it is a message of. At most 32 events are pending for a task; one more gives up
    /// the oldest.
    pub fn note_frame(&mut self, place: u64, bus: u8, frame: Frame24)
        requires small { place + 1 < 2 ^ 64 }
        ensures follows { (p : Plant) (h : List Event)
            → Follows p h self.old → place ≡ length h → Follows p (Heard bus frame ∷ h) self.new }
    {
        heard_all(&mut self.states, &mut self.ready, place, bus, frame);
    }

    /// Whether a task is ready.
    pub fn ready(&self, task: usize) -> bool
        requires known { task < length self.now.tasks }
        ensures value { (p : Plant) (h : List Event)
            → Follows p h self.now → result ≡ ready (activator p task) task h }
    {
        self.states[task].is_ready(self.moment)
    }

    /// The task that is to be taken: of those that are ready, and of which no scan is open, the one
    /// with the least priority number; of these the one that has been ready longest; of these the
    /// first that was declared.
    pub fn next(&self) -> Option<usize>
        ensures next { (p : Plant) (h : List Event) → Follows p h self.now
            → Chooses (is_free p h) (rank p h) (length p.plan.tasks) result }
    {
        choose(self.ready.as_slice(), &self.states)
    }

    /// The oldest event that is pending for a task.
    pub fn first_pending(&self, task: usize) -> Option<PendingEvent>
        requires known { task < length self.now.tasks }
        ensures value { (p : Plant) (h : List Event) → Follows p h self.now
            → result ≡ slice_get (pending (activator p task) task h) 0 }
    {
        self.states[task].first_pending()
    }

    /// Notes that a worker took a task, at this place of the history. The answer is the oldest
    /// event that was pending for it, which this uses up.
    pub fn take_event(&mut self, place: u64, task: usize) -> Option<PendingEvent>
        requires small { place + 1 < 2 ^ 64 }
        requires known { task < length self.old.tasks }
        ensures first { (p : Plant) (h : List Event) → Follows p h self.old
            → result ≡ slice_get (pending (activator p task) task h) 0 }
        ensures follows { (p : Plant) (w : ℕ) (s : ScanStart) (h : List Event)
            → Follows p h self.old → place ≡ length h → Follows p (Take w task s ∷ h) self.new }
    {
        leave(&mut self.ready, task);
        let event = self.states[task].took(place, self.moment);
        let is = self.states[task].is_ready(self.moment);
        relist(&mut self.ready, &self.states, task, false, is);
        event
    }

    /// Notes that a worker wrote what its scan of a task came to.
    pub fn note_commit(&mut self, task: usize)
        requires known { task < length self.old.tasks }
        ensures follows { (p : Plant) (w n : ℕ) (result : Scan) (running : OpenScan)
            (h : List Event) → Follows p h self.old → scan w h ≡ Some running
            → running.task ≡ task → Follows p (Commit w n result ∷ h) self.new }
    {
        self.states[task].ended();
    }

    /// How many events were given up, since 32 later ones came before the task was taken.
    pub fn loss_count(&self, task: usize) -> u64
        requires known { task < length self.now.tasks }
        ensures value { (p : Plant) (h : List Event)
            → Follows p h self.now → result ≡ lost (activator p task) task h }
    {
        self.states[task].loss_count()
    }
}

/// A state for each task, to which nothing has happened.
fn fresh_states(alloc: Global, setups: &[TaskSetup]) -> Result<Vec<TaskState>, AllocError>
    requires intervals { All (λ s. HasInterval s.activator) setups.now }
    ensures count { IfOk result (λ s. length s.items ≡ length setups.now) }
    ensures follows { IfOk result (λ s. (t : ℕ) → t < length setups.now
        → TaskFollows (setup_at setups.now t) t [] (task_at s.items t)) }
{
    let mut states = Vec::new(alloc);
    for setup in setups {
        states.push(TaskState::new(alloc, *setup)?)?;
    }
    Ok(states)
}
