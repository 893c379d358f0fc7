//! What each task has and uses. It is gathered once: what exceeds a limit is found in it, and the
//! task is planned of it.

ghost use Rattle.std.specs.Prelude.{◌≡◌, IfOk, map};
ghost use Rattle.ilscope.specs.Declarations.{declared_functions};
ghost use Rattle.ilsyms.specs.FunctionSteps.{needs_of};
ghost use Rattle.ilsyms.specs.TaskPartSteps.{ArePartsOfTasks};
ghost use Rattle.ilsyms.specs.TaskSteps.{AreInstancesOfTasks};

use crate::blocks::blocks_of;
use crate::counting::Counted;
use crate::needs::{Needs, ProgramCalls, calls_of_programs};
use crate::slots::slots_of;
use crate::tasks::{TaskInstance, TaskInstances};
use crate::usage::used_functions;
use ilplan::{FunctionBlock, Slot};
use ilscope::Scope;
use std::alloc::{AllocError, Global};

/// The program instances of a task, what they have, and what they use.
#[derive(Drop)]
pub(crate) struct TaskParts<'t> {
    /// In declared order.
    pub(crate) instances: &'t [TaskInstance],
    /// For each function whether the task uses it.
    pub(crate) used: Vec<bool>,
    /// Of more slots than the greatest number one more than that.
    pub(crate) slots: Vec<Slot>,
    /// Of more block instances than the greatest number one more than that.
    pub(crate) blocks: Vec<FunctionBlock>,
    pub(crate) counted: Counted,
}

impl<'t> TaskParts<'t> {
    ghost use Rattle.std.specs.Prelude.{◌≡◌, IfOk, map};
    ghost use Rattle.ilscope.specs.Declarations.{declared_functions, declared_programs};
    ghost use Rattle.ilsyms.specs.FunctionSteps.{calls_of_program, needs_of};
    ghost use Rattle.ilsyms.specs.TaskPartSteps.{AreParts};
    ghost use Rattle.ilsyms.specs.TaskSteps.{AreThere};

    /// Those of a task with these instances. `calls` are those of each program, and `needs` those
    /// of each function.
    fn of(
        alloc: Global,
        scope: &Scope<'_>,
        calls: &[ProgramCalls],
        needs: &[Needs],
        instances: &'t [TaskInstance],
    ) -> Result<TaskParts<'t>, AllocError>
        requires there { AreThere scope.now.tree instances.now }
        requires calls { calls.now
            ≡ map (calls_of_program scope.now.tree) (declared_programs scope.now.tree) }
        requires needs { needs.now
            ≡ map (needs_of scope.now.tree) (declared_functions scope.now.tree) }
        ensures instances { IfOk result (λ parts. parts.instances.now ≡ instances.now) }
        ensures parts { IfOk result (AreParts scope.now.tree) }
    {
        let used = used_functions(alloc, scope, calls, needs, instances)?;
        let slots = slots_of(alloc, scope, instances)?;
        let blocks = blocks_of(alloc, scope, instances)?;
        let counted = Counted::of(alloc, scope, instances, &used, needs)?;
        Ok(TaskParts {
            instances,
            used,
            slots,
            blocks,
            counted,
        })
    }
}

/// The parts of each task, which have these instances. `needs` are those of each function.
pub(crate) fn parts_of_tasks<'t>(
    alloc: Global,
    scope: &Scope<'_>,
    needs: &[Needs],
    tasks: &'t [TaskInstances],
) -> Result<Vec<TaskParts<'t>>, AllocError>
    requires needs { needs.now
        ≡ map (needs_of scope.now.tree) (declared_functions scope.now.tree) }
    requires tasks { AreInstancesOfTasks scope.now.tree tasks.now }
    ensures { IfOk result (λ v. ArePartsOfTasks scope.now.tree v.items) }
{
    let calls = calls_of_programs(alloc, scope)?;
    let mut all = Vec::new(alloc);
    for instances in tasks {
        let parts = TaskParts::of(alloc, scope, &calls, needs, instances.as_slice())?;
        all.push(parts)?;
    }
    Ok(all)
}
