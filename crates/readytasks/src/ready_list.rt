//! The list of the tasks that are ready, in the order in which they go.
ghost use Rattle.std.specs.Prelude.{◌≡◌, ◌≢◌, ℕ, ◌<◌, ◌≤◌, ◌||◌, ◌==◌, false, length};
ghost use Rattle.std.specs.Prelude.{◌↔◌, IsTrue, MatchOption, slice_index};
ghost use Rattle.limits.specs.Limits.{most_tasks};
ghost use Rattle.plantevents.specs.Choices.{Rank};
ghost use Rattle.readytasks.specs.TaskSetSteps.{rank_at};
ghost use Rattle.readytasks.specs.ReadyLists.{Leads, AreInOrder, IsPlaceFor, IsOrderOf};
ghost use Rattle.readytasks.specs.ReadyLists.{IsReadyList, is_listed};

use crate::task_state::TaskState;
use arrayvec::ArrayVec;
use limits::MOST_TASKS;

/// The tasks that are ready, each by its number, in the order in which they go.
pub(crate) type ReadyList = ArrayVec<usize, MOST_TASKS>;

/// Whether a task goes before another, where both are ready: by its priority, then by how long it
/// has been ready, then by where it was declared.
fn goes_before(states: &[TaskState], task: usize, other: usize) -> bool
    requires task { task < length states.now }
    requires other { other < length states.now }
    ensures value { IsTrue result ↔ Leads (rank_at states.now task) (rank_at states.now other) }
{
    let (one, second) = (&states[task], &states[other]);
    if one.priority() != second.priority() {
        return one.priority() < second.priority();
    }
    if one.since() != second.since() {
        return one.since() < second.since();
    }
    task < other
}

/// Where a task goes that is not in the list: behind those that go before it. It is sought from the
/// end, since what has just become ready has waited least: it goes behind those of no greater
/// priority number.
fn place_for(ready: &[usize], states: &[TaskState], task: usize) -> usize
    requires known { task < length states.now }
    requires absent { is_listed ready.now task ≡ false }
    requires order { IsOrderOf states.now ready.now }
    ensures place { IsPlaceFor (rank_at states.now) ready.now task result }
{
    let mut place = ready.len();
    while place > 0 && goes_before(states, task, ready[place - 1]) {
        place -= 1;
    }
    place
}

/// Puts a task that has become ready in its place.
fn join(ready: &mut ReadyList, states: &[TaskState], task: usize)
    requires few { length states.now ≤ most_tasks }
    requires known { task < length states.now }
    requires absent { is_listed ready.old.items task ≡ false }
    requires order { IsOrderOf states.now ready.old.items }
    ensures order { IsOrderOf states.now ready.new.items }
    ensures listed { (t : ℕ) → is_listed ready.new.items t
        ≡ (t == task || is_listed ready.old.items t) }
{
    let place = place_for(ready.as_slice(), states, task);
    ready.insert(place, task);
}

/// The place of a task, if it is in the list.
fn place_of(ready: &[usize], task: usize) -> Option<usize>
    ensures place { MatchOption result (is_listed ready.now task ≡ false)
        (λ place. (place < length ready.now) × (slice_index ready.now place ≡ task)) }
{
    for place in 0..ready.len() {
        if ready[place] == task {
            return Some(place);
        }
    }
    None
}

/// Takes a task out of the list, if it is there.
pub(crate) fn leave(ready: &mut ReadyList, task: usize)
    ensures order { (rank : ℕ → Rank) (n : ℕ) → AreInOrder rank n ready.old.items
        → AreInOrder rank n ready.new.items }
    ensures left { (rank : ℕ → Rank) (n : ℕ) → AreInOrder rank n ready.old.items
        → is_listed ready.new.items task ≡ false }
    ensures others { (t : ℕ) → t ≢ task
        → is_listed ready.new.items t ≡ is_listed ready.old.items t }
{
    if let Some(place) = place_of(ready.as_slice(), task) {
        ready.remove(place);
    }
}

/// Puts a task into the list, or takes it out, by whether it was ready before and is ready now.
pub(crate) fn relist(ready: &mut ReadyList, states: &[TaskState], task: usize, was: bool, is: bool)
    requires few { length states.now ≤ most_tasks }
    requires known { task < length states.now }
    requires order { IsOrderOf states.now ready.old.items }
    requires was { is_listed ready.old.items task ≡ was }
    ensures order { IsOrderOf states.now ready.new.items }
    ensures listed { is_listed ready.new.items task ≡ is }
    ensures others { (t : ℕ) → t ≢ task
        → is_listed ready.new.items t ≡ is_listed ready.old.items t }
{
    if is == was {
        return;
    }
    if is {
        join(ready, states, task);
    } else {
        leave(ready, task);
    }
}

/// The list of the tasks that are ready before anything has happened.
pub(crate) fn first_ready(states: &[TaskState]) -> ReadyList
    requires few { length states.now ≤ most_tasks }
    ensures { IsReadyList states.now 0 result.items }
{
    let mut ready = ReadyList::new();
    for task in 0..states.len() {
        let is = states[task].is_ready(0);
        relist(&mut ready, states, task, false, is);
    }
    ready
}
