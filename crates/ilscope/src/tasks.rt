//! Faults of tasks and of program instances.

ghost use Rattle.std.specs.Prelude.{◌≡◌, ◌↔◌, IsTrue, option_and_then, option_map, slice_get};
ghost use Rattle.ildeclared.specs.Faults.{IsNextOf, OfCause, SomeOf};
ghost use Rattle.ildeclared.specs.Kept.{kept_under};
ghost use Rattle.ildeclared.specs.declared.fault.NameCause.TheVariants.{BadAddress, NoTask};
ghost use Rattle.ildeclared.specs.declared.fault.NameCause.TheVariants.{BadDeclaration};
ghost use Rattle.ilscope.specs.Faults.{IsBadlyStarted, IsBadTask, IsBadTaskAt, HasNoTaskAt};
ghost use Rattle.ilscope.specs.Faults.{IsNoTriggerOf, IsTrigger};

use ildeclared::{DeclaredGlobal, Found, NameCause, Names, found_where, lesser_of};
use ilsource::{InstanceDeclaration, Name, TaskDeclaration};
use iltokens::AddressKind;

/// The next fault after `after` of a task as such: of how it is started, or of its priority.
pub(crate) fn bad_tasks(tasks: &[TaskDeclaration], after: Option<Found>) -> Option<Found>
    ensures { IsNextOf after
        (OfCause BadDeclaration (λ place. SomeOf (IsBadTaskAt place) tasks.now)) result }
{
    let mut least = None;
    for task in tasks {
        least = lesser_of(least, bad_task(task, after));
    }
    least
}

/// The fault of one such task.
fn bad_task(task: &TaskDeclaration, after: Option<Found>) -> Option<Found>
    ensures { IsNextOf after (OfCause BadDeclaration (λ place. IsBadTaskAt place task.now)) result }
{
    found_where(
        is_bad(task),
        task.name.from,
        NameCause::BadDeclaration,
        after,
    )
}

/// Whether a task is not started in one way, or has a priority outside 0 to 65535.
fn is_bad(task: &TaskDeclaration) -> bool
    ensures { IsTrue result ↔ IsBadTask task.now }
{
    is_badly_started(task.single, task.interval) || task.priority < 0 || task.priority > 65535
}

/// Whether there are both or none of SINGLE and INTERVAL, or the interval is 0.
fn is_badly_started(single: Option<Name>, interval: Option<u32>) -> bool
    ensures { IsTrue result ↔ IsBadlyStarted single interval }
{
    match (single, interval) {
        (None, None) => true,
        (None, Some(interval)) => interval == 0,
        (Some(_), None) => false,
        (Some(_), Some(_)) => true,
    }
}

/// The next fault after `after` of a program instance without a task.
pub(crate) fn without_task(instances: &[InstanceDeclaration], after: Option<Found>) -> Option<Found>
    ensures { IsNextOf after
        (OfCause NoTask (λ place. SomeOf (HasNoTaskAt place) instances.now)) result }
{
    let mut least = None;
    for instance in instances {
        least = lesser_of(least, lacks_task(instance, after));
    }
    least
}

/// The fault of one such instance.
fn lacks_task(instance: &InstanceDeclaration, after: Option<Found>) -> Option<Found>
    ensures { IsNextOf after (OfCause NoTask (λ place. HasNoTaskAt place instance.now)) result }
{
    found_where(
        instance.task.is_none(),
        instance.name.from,
        NameCause::NoTask,
        after,
    )
}

/// The next fault after `after` of SINGLE on a global variable that is no trigger. `lower` is the
/// text in lower case.
pub(crate) fn no_triggers(
    lower: &[u8],
    numbers: &Names<usize>,
    globals: &[DeclaredGlobal],
    tasks: &[TaskDeclaration],
    after: Option<Found>,
) -> Option<Found>
    ensures { IsNextOf after (OfCause BadAddress (λ place. SomeOf
        (IsNoTriggerOf (λ name. option_and_then (slice_get globals.now)
        (kept_under lower.now numbers.now name)) place) tasks.now)) result }
{
    let mut least = None;
    for task in tasks {
        least = lesser_of(least, no_trigger(lower, numbers, globals, task, after));
    }
    least
}

/// The fault of a task whose SINGLE is on a global variable that is no trigger.
fn no_trigger(
    lower: &[u8],
    numbers: &Names<usize>,
    globals: &[DeclaredGlobal],
    task: &TaskDeclaration,
    after: Option<Found>,
) -> Option<Found>
    ensures { IsNextOf after (OfCause BadAddress (λ place.
        IsNoTriggerOf (λ name. option_and_then (slice_get globals.now)
        (kept_under lower.now numbers.now name)) place task.now)) result }
{
    let name = task.single?;
    let global = global_of(lower, numbers, globals, name)?;
    found_where(!is_trigger(global), name.from, NameCause::BadAddress, after)
}

/// The global variable of a name, if there is one.
fn global_of<'a>(
    lower: &[u8],
    numbers: &Names<usize>,
    globals: &'a [DeclaredGlobal],
    name: Name,
) -> Option<&'a DeclaredGlobal>
    ensures { option_map (λ g. g.now) result
        ≡ option_and_then (slice_get globals.now) (kept_under lower.now numbers.now name) }
{
    globals.get(numbers.get(name.text(lower))?)
}

/// Whether a global variable is the trigger of a source.
fn is_trigger(global: &DeclaredGlobal) -> bool
    ensures { IsTrue result ↔ IsTrigger global.now }
{
    match global.address {
        None => false,
        Some(address) => matches!(address.kind, AddressKind::InputBit),
    }
}
