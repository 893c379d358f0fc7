//! Global variables that two tasks store to.

ghost use Rattle.std.specs.Prelude.{◌≡◌, IfOk, length, map};
ghost use Rattle.ildeclared.specs.Faults.{IsNextOf, OfCause};
ghost use Rattle.ildeclared.specs.declared.fault.NameCause.TheVariants.{WrittenTwice};
ghost use Rattle.ilscope.specs.Configured.{globals_of};
ghost use Rattle.ilscope.specs.Declarations.{declared_programs};
ghost use Rattle.ilsyms.specs.Faults.{IsWrittenTwice};
ghost use Rattle.ilsyms.specs.TaskSteps.{AreInstancesOfTasks};
ghost use Rattle.ilsyms.specs.TaskSetSteps.{AreSetsOf};
ghost use Rattle.ilsyms.specs.WrittenTwiceSteps.{HasInstance, StoresBefore};
ghost use Rattle.ilsyms.specs.declared.task_sets.TaskSet.TheVariants.{Several};

use crate::task_sets::{TaskSet, add_tasks, empty_sets};
use crate::tasks::{TaskInstance, TaskInstances};
use ilscope::{DeclaredGlobal, Found, NameCause, Scope, found_where, lesser_of, stored_globals};
use std::alloc::{AllocError, Global};

/// The next fault after `after` of a global variable that two tasks store to. The lines of each
/// program are read once, in however many tasks it has instances.
pub(crate) fn written_twice(
    alloc: Global,
    scope: &Scope<'_>,
    tasks: &[TaskInstances],
    after: Option<Found>,
) -> Result<Option<Found>, AllocError>
    requires { AreInstancesOfTasks scope.now.tree tasks.now }
    ensures { IfOk result (λ found.
        IsNextOf after (OfCause WrittenTwice (IsWrittenTwice scope.now.tree)) found) }
{
    let sets = tasks_of_globals(alloc, scope, tasks)?;
    let mut least = None;
    for (number, global) in scope.globals().iter().enumerate() {
        least = lesser_of(least, fault_of_global(*global, sets[number], after));
    }
    Ok(least)
}

/// The fault of a global variable that these tasks store to.
fn fault_of_global(global: DeclaredGlobal, tasks: TaskSet, after: Option<Found>) -> Option<Found>
    ensures { IsNextOf after (OfCause WrittenTwice
        (λ place. (tasks ≡ Several) × (place ≡ global.name.from))) result }
{
    let several = matches!(tasks, TaskSet::Several);
    found_where(several, global.name.from, NameCause::WrittenTwice, after)
}

/// For each global variable the tasks that store to it.
fn tasks_of_globals(
    alloc: Global,
    scope: &Scope<'_>,
    tasks: &[TaskInstances],
) -> Result<Vec<TaskSet>, AllocError>
    requires { AreInstancesOfTasks scope.now.tree tasks.now }
    ensures count { IfOk result (λ v. length v.items ≡ length (globals_of scope.now.tree)) }
    ensures sets { IfOk result (λ v. AreSetsOf (StoresBefore scope.now.tree tasks.now
        (length (declared_programs scope.now.tree))) v.items) }
{
    let programs = tasks_of_programs(alloc, scope, tasks)?;
    let mut sets = empty_sets(alloc, scope.globals().len())?;
    for (number, tasks) in programs.iter().enumerate() {
        let stored = stored_globals(alloc, scope, number)?;
        add_tasks(&mut sets, &stored, *tasks);
    }
    Ok(sets)
}

/// For each program the tasks that have an instance of it.
fn tasks_of_programs(
    alloc: Global,
    scope: &Scope<'_>,
    tasks: &[TaskInstances],
) -> Result<Vec<TaskSet>, AllocError>
    requires { AreInstancesOfTasks scope.now.tree tasks.now }
    ensures count { IfOk result (λ v. length v.items ≡ length (declared_programs scope.now.tree)) }
    ensures sets { IfOk result (λ v.
        AreSetsOf (HasInstance tasks.now (length tasks.now)) v.items) }
{
    let mut sets = empty_sets(alloc, scope.programs().len())?;
    for (number, instances) in tasks.iter().enumerate() {
        let programs = program_numbers(alloc, instances.as_slice())?;
        add_tasks(&mut sets, &programs, TaskSet::One(number));
    }
    Ok(sets)
}

/// The numbers of the programs of instances.
fn program_numbers(alloc: Global, instances: &[TaskInstance]) -> Result<Vec<usize>, AllocError>
    ensures { IfOk result (λ v. v.items ≡ map (λ i. i.program) instances.now) }
{
    instances.iter().map(|i| i.program).collect(alloc)
}
