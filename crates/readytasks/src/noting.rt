//! How an event is noted for each task.
ghost use Rattle.std.specs.Prelude.{◌≡◌, ℕ, ◌+◌, ◌<◌, ◌≤◌, ◌^◌, ◌∷◌, List, length};
ghost use Rattle.limits.specs.Limits.{most_tasks};
ghost use Rattle.plantevents.specs.declared.event.Event.{Event};
ghost use Rattle.plantevents.specs.declared.event.Event.TheVariants.{Tick, Heard};
ghost use Rattle.plantevents.specs.Histories.{moment as last_moment};
ghost use Rattle.readytasks.specs.declared.setup.TaskSetup.{TaskSetup as Setup};
ghost use Rattle.readytasks.specs.TaskSets.{TaskFollows, task_at};
ghost use Rattle.readytasks.specs.TaskSetSteps.{is_ready};
ghost use Rattle.readytasks.specs.ReadyLists.{IsOrderOf, IsReadyList, AreOthersSame, is_listed};

use crate::ready_list::{ReadyList, relist};
use crate::task_state::TaskState;
use daliframe::Frame24;

/// Notes a tick for a task, at this place of the history, before which the moment was `now`.
fn tick_task(
    states: &mut Vec<TaskState>,
    ready: &mut ReadyList,
    task: usize,
    place: u64,
    now: u64,
    moment: u64,
)
    requires small { place + 1 < 2 ^ 64 }
    requires few { length states.old.items ≤ most_tasks }
    requires known { task < length states.old.items }
    requires order { IsOrderOf states.old.items ready.old.items }
    requires listed { is_listed ready.old.items task
        ≡ is_ready (task_at states.old.items task) now }
    ensures order { IsOrderOf states.new.items ready.new.items }
    ensures listed { is_listed ready.new.items task
        ≡ is_ready (task_at states.new.items task) moment }
    ensures others { AreOthersSame task states.old.items ready.old.items
        states.new.items ready.new.items }
    ensures follows { (setup : Setup) (h : List Event)
        → TaskFollows setup task h (task_at states.old.items task) → now ≡ last_moment h
        → place ≡ length h
        → TaskFollows setup task (Tick moment ∷ h) (task_at states.new.items task) }
{
    let was = states[task].is_ready(now);
    let is = states[task].is_ready(moment);
    states[task].tick(place, was, is);
    relist(ready, states, task, was, is);
}

/// Notes a frame that was heard on a bus for a task.
fn heard_task(
    states: &mut Vec<TaskState>,
    ready: &mut ReadyList,
    task: usize,
    place: u64,
    bus: u8,
    frame: Frame24,
)
    requires small { place + 1 < 2 ^ 64 }
    requires known { task < length states.old.items }
    requires ready { (m : ℕ) × IsReadyList states.old.items m ready.old.items }
    ensures ready { (m : ℕ) → IsReadyList states.old.items m ready.old.items
        → IsReadyList states.new.items m ready.new.items }
    ensures others { AreOthersSame task states.old.items ready.old.items
        states.new.items ready.new.items }
    ensures follows { (setup : Setup) (h : List Event)
        → TaskFollows setup task h (task_at states.old.items task) → place ≡ length h
        → TaskFollows setup task (Heard bus frame ∷ h) (task_at states.new.items task) }
{
    let begins = states[task].heard(place, bus, frame);
    if begins {
        relist(ready, states, task, false, true);
    }
}

/// Notes a tick for each task, at this place of the history, before which the moment was `now`.
pub(crate) fn tick_all(
    states: &mut Vec<TaskState>,
    ready: &mut ReadyList,
    place: u64,
    now: u64,
    moment: u64,
)
    requires small { place + 1 < 2 ^ 64 }
    requires ready { IsReadyList states.old.items now ready.old.items }
    ensures count { length states.new.items ≡ length states.old.items }
    ensures ready { IsReadyList states.new.items moment ready.new.items }
    ensures follows { (t : ℕ) → t < length states.old.items → (setup : Setup) (h : List Event)
        → TaskFollows setup t h (task_at states.old.items t) → now ≡ last_moment h
        → place ≡ length h → TaskFollows setup t (Tick moment ∷ h) (task_at states.new.items t) }
{
    for i in 0..states.len() {
        tick_task(states, ready, i, place, now, moment);
    }
}

/// Notes a frame that was heard on a bus for each task.
pub(crate) fn heard_all(
    states: &mut Vec<TaskState>,
    ready: &mut ReadyList,
    place: u64,
    bus: u8,
    frame: Frame24,
)
    requires small { place + 1 < 2 ^ 64 }
    requires ready { (m : ℕ) × IsReadyList states.old.items m ready.old.items }
    ensures count { length states.new.items ≡ length states.old.items }
    ensures ready { (m : ℕ) → IsReadyList states.old.items m ready.old.items
        → IsReadyList states.new.items m ready.new.items }
    ensures follows { (t : ℕ) → t < length states.old.items → (setup : Setup) (h : List Event)
        → TaskFollows setup t h (task_at states.old.items t) → place ≡ length h
        → TaskFollows setup t (Heard bus frame ∷ h) (task_at states.new.items t) }
{
    for i in 0..states.len() {
        heard_task(states, ready, i, place, bus, frame);
    }
}
