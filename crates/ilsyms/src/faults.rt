//! The faults of a source program: the least, and one after the other.

ghost use Rattle.std.specs.Prelude.{◌≡◌, IfOk, map};
ghost use Rattle.ildeclared.specs.Faults.{IsLeastOf, IsNextOf};
ghost use Rattle.ilscope.specs.Declarations.{declared_functions};
ghost use Rattle.ilsyms.specs.Faults.{IsFault, IsFaultOfUse};
ghost use Rattle.ilsyms.specs.FunctionSteps.{needs_of};
ghost use Rattle.ilsyms.specs.TaskPartSteps.{ArePartsOfTasks};
ghost use Rattle.ilsyms.specs.TaskSteps.{AreInstancesOfTasks};

use crate::excess::too_many;
use crate::needs::{Needs, needs_of_functions};
use crate::task_parts::{TaskParts, parts_of_tasks};
use crate::tasks::{TaskInstances, instances_of_tasks};
use crate::written_twice::written_twice;
use ilscope::{Found, Scope, fault_at_uses, fault_of_lines, lesser_of};
use std::alloc::{AllocError, Global};

/// The least fault that comes after `after`, by its place and there by its cause; the least of all
/// where `after` is `None`. Called again with what it found, it gives one fault after the other.
///
/// # Errors
///
/// The allocator is out of memory.
pub fn next_fault(
    alloc: Global,
    scope: &Scope<'_>,
    after: Option<Found>,
) -> Result<Option<Found>, AllocError>
    ensures { IfOk result (λ found.
        IsNextOf after (IsFault scope.now.tree scope.now.wiring) found) }
{
    let instances = instances_of_tasks(alloc, scope)?;
    let needs = needs_of_functions(alloc, scope)?;
    let tasks = parts_of_tasks(alloc, scope, &needs, &instances)?;
    let used = fault_of_uses(alloc, scope, &instances, &needs, &tasks, after)?;
    Ok(lesser_of(scope.next_fault(alloc, after)?, used))
}

/// The least fault: of declarations, in a line, at a global variable that two tasks store to, or at
/// what exceeds a limit. `instances` are those of each task, `needs` those of each function, and
/// `tasks` the parts of each task.
pub(crate) fn least_of(
    alloc: Global,
    scope: &Scope<'_>,
    instances: &[TaskInstances],
    needs: &[Needs],
    tasks: &[TaskParts<'_>],
) -> Result<Option<Found>, AllocError>
    requires instances { AreInstancesOfTasks scope.now.tree instances.now }
    requires needs { needs.now
        ≡ map (needs_of scope.now.tree) (declared_functions scope.now.tree) }
    requires tasks { ArePartsOfTasks scope.now.tree tasks.now }
    ensures { IfOk result (λ found. IsLeastOf (IsFault scope.now.tree scope.now.wiring) found) }
{
    let used = fault_of_uses(alloc, scope, instances, needs, tasks, None)?;
    Ok(lesser_of(scope.least(), used))
}

/// The least one, of those that come after `after`, that is not in a declaration.
fn fault_of_uses(
    alloc: Global,
    scope: &Scope<'_>,
    instances: &[TaskInstances],
    needs: &[Needs],
    tasks: &[TaskParts<'_>],
    after: Option<Found>,
) -> Result<Option<Found>, AllocError>
    requires instances { AreInstancesOfTasks scope.now.tree instances.now }
    requires needs { needs.now
        ≡ map (needs_of scope.now.tree) (declared_functions scope.now.tree) }
    requires tasks { ArePartsOfTasks scope.now.tree tasks.now }
    ensures { IfOk result (λ found. IsNextOf after (IsFaultOfUse scope.now.tree) found) }
{
    let used = fault_at_uses(alloc, scope, after)?;
    let lines = fault_of_lines(alloc, scope, after)?;
    let written = written_twice(alloc, scope, instances, after)?;
    let many = too_many(alloc, scope, needs, tasks, after)?;
    Ok(lesser_of(lesser_of(used, lines), lesser_of(written, many)))
}
