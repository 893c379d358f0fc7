//! What is pending for tasks, and which task goes next.

ghost use Rattle.std.specs.Prelude.{◌≡◌, ◌≢◌, ◌+◌, ◌<◌, ◌≤◌, ◌^◌, [], ◌∷◌, All, IfOk, IfSome, Some};
ghost use Rattle.std.specs.Prelude.{false, length, true};
ghost use Rattle.limits.specs.Limits.{most_tasks};
ghost use Rattle.dalievent.specs.Messages.{is_message};
ghost use Rattle.plantevents.specs.Choices.{is_free};
ghost use Rattle.plantevents.specs.Histories.{moment};
ghost use Rattle.plantevents.specs.Plants.{activator, priority};
ghost use Rattle.plantevents.specs.Readiness.{activates, last_take, pending, since};
ghost use Rattle.readytasks.specs.TaskSets.{AreSetups, Follows, HasInterval};
ghost use Rattle.refusalsplant.specs.Turns.{scanned};

use dalievent::EventSource;
use daliframe::Frame24;
use plant::Plant;
use plantevents::{Activator, NotedResult, NotedSnapshot, PendingEvent};
use readytasks::{TaskSetup, Tasks};
use std::alloc::{AllocError, Global};

/// `the_newest_event_comes_first`: of two events of a task the newest was taken, so that its
/// information was scanned twice, and that of the oldest never.
pub fn oldest_event_is_first(
    tasks: &Tasks,
    plant: &Plant,
    oldest: PendingEvent,
    newest: PendingEvent,
) -> Option<PendingEvent>
    requires known { 2 < length tasks.now.tasks }
    requires follows { Follows plant.now.plant plant.now.history tasks.now }
    requires both { pending (activator plant.now.plant 2) 2 plant.now.history ≡ oldest ∷ newest ∷ [] }
    ensures { result ≡ Some oldest }
{
    tasks.first_pending(2)
}

/// `newest_of_33_events_given_up`: of 33 events of a task the newest was given up, and not the
/// oldest.
pub fn oldest_of_33_events_is_given_up(
    tasks: &mut Tasks,
    plant: &Plant,
    place: u64,
    bus: u8,
    frame: Frame24,
    oldest: PendingEvent,
    next: PendingEvent,
    more: &[PendingEvent],
) -> Option<PendingEvent>
    requires known { 2 < length tasks.old.tasks }
    requires follows { Follows plant.now.plant plant.now.history tasks.old }
    requires place { place ≡ length plant.now.history }
    requires small { place + 1 < 2 ^ 64 }
    requires message { activates (activator plant.now.plant 2) bus frame ≡ true }
    requires full { pending (activator plant.now.plant 2) 2 plant.now.history ≡ oldest ∷ next ∷ more.now }
    requires count { length more.now ≡ 30 }
    ensures { result ≡ Some next }
{
    tasks.note_frame(place, bus, frame);
    tasks.first_pending(2)
}

/// `cyclic_task_ready_twice_in_an_interval`: a task that was taken in an interval was ready in the
/// same one again.
pub fn cyclic_task_is_ready_once_in_an_interval(tasks: &Tasks, plant: &Plant) -> bool
    requires known { 0 < length tasks.now.tasks }
    requires follows { Follows plant.now.plant plant.now.history tasks.now }
    requires cyclic { activator plant.now.plant 0 ≡ Some (Activator.Interval 100) }
    requires taken { last_take 0 plant.now.history ≡ Some 110 }
    requires moment { moment plant.now.history ≡ 190 }
    ensures { result ≡ false }
{
    tasks.ready(0)
}

/// `task_keeps_its_place_after_its_take`: a task that is ready again once it was scanned stood in
/// front of one that has been ready for longer. `ones_own_scan_is_no_break`: so it did by `since`
/// itself, to which a Take of the task was no break.
pub fn scanned_task_goes_behind(
    tasks: &mut Tasks,
    plant: &Plant,
    place: u64,
    snapshot: &NotedSnapshot,
    made: &NotedResult,
) -> Option<usize>
    requires known { 1 < length tasks.old.tasks }
    requires follows { Follows plant.now.plant plant.now.history tasks.old }
    requires place { place ≡ length plant.now.history }
    requires small { place + 1 < 2 ^ 64 }
    requires alike { priority plant.now.plant 0 ≡ priority plant.now.plant 1 }
    requires waits { is_free plant.now.plant (scanned snapshot.now made.now plant.now.history) 1 ≡ true }
    requires longer { since (activator plant.now.plant 1) 1 (scanned snapshot.now made.now plant.now.history) ≤ length plant.now.history }
    ensures { result ≢ Some 0 }
{
    let _ = tasks.take_event(place, 0);
    tasks.note_commit(0);
    tasks.next()
}

/// `task_stays_listed_when_it_is_not_ready`: a task without a further event was taken again.
pub fn task_without_events_is_passed_over(
    tasks: &mut Tasks,
    plant: &Plant,
    place: u64,
    snapshot: &NotedSnapshot,
    made: &NotedResult,
) -> Option<usize>
    requires known { 1 < length tasks.old.tasks }
    requires follows { Follows plant.now.plant plant.now.history tasks.old }
    requires place { place ≡ length plant.now.history }
    requires small { place + 1 < 2 ^ 64 }
    requires none { is_free plant.now.plant (scanned snapshot.now made.now plant.now.history) 0 ≡ false }
    ensures { result ≢ Some 0 }
{
    let _ = tasks.take_event(place, 0);
    tasks.note_commit(0);
    tasks.next()
}

/// `a_message_of_another_bus_activates`: a message activated a task whose source is on another bus.
pub fn message_of_another_bus_activates_nothing(
    tasks: &mut Tasks,
    plant: &Plant,
    place: u64,
    frame: Frame24,
    source: EventSource,
    first: u16,
) -> bool
    requires known { 2 < length tasks.old.tasks }
    requires follows { Follows plant.now.plant plant.now.history tasks.old }
    requires place { place ≡ length plant.now.history }
    requires small { place + 1 < 2 ^ 64 }
    requires bus { activator plant.now.plant 2 ≡ Some (Activator.Messages 0 source first) }
    requires none { pending (activator plant.now.plant 2) 2 plant.now.history ≡ [] }
    ensures { result ≡ false }
{
    tasks.note_frame(place, 1, frame);
    tasks.ready(2)
}

/// `a_count_begins_at_zero`: the count of a source that begins at 100 was 1 at its first message.
pub fn count_goes_on_from_its_first_value(
    alloc: Global,
    setups: &[TaskSetup],
    plant: &Plant,
    frame: Frame24,
    source: EventSource,
) -> Result<Option<PendingEvent>, AllocError>
    requires few { length setups.now ≤ most_tasks }
    requires some { 0 < length setups.now }
    requires intervals { All (λ s. HasInterval s.activator) setups.now }
    requires setups { AreSetups plant.now.plant setups.now }
    requires bus { activator plant.now.plant 0 ≡ Some (Activator.Messages 0 source 100) }
    requires message { is_message source frame ≡ true }
    ensures { IfOk result (λ event. IfSome event (λ e. e.count ≡ 101)) }
{
    let mut tasks = Tasks::new(alloc, setups)?;
    tasks.note_frame(0, 0, frame);
    Ok(tasks.first_pending(0))
}
