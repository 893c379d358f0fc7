//! The plan of a source program that has no fault.

ghost use Rattle.std.specs.Prelude.{◌≡◌, ◌≤ℤ◌, ℕ, pos, IfOk, None, Some, map, option_map};
ghost use Rattle.std.specs.Prelude.{slice_get};
ghost use Rattle.std.specs.Prelude.{◌<◌, length, string_bytes};
ghost use Rattle.std.specs.List.{AllByRecursion};
ghost use Rattle.ilplan.specs.Plans.{KeepsLimits};
ghost use Rattle.ilsyms.specs.Faults.{IsWellNamed};
ghost use Rattle.ilsyms.specs.TaskPartSteps.{AreParts, ArePartsOfTasks};
ghost use Rattle.ilsyms.specs.TaskSteps.{AreInstancesOfTask, instances_of, task_with};
ghost use Rattle.ilsyms.specs.Resolved.{plan_of_tree, planned_functions, planned_task};
ghost use Rattle.ilsyms.specs.Tasks.{activation_of, priority_of, tasks_of};

use crate::functions::plan_functions;
use crate::globals::plan_globals;
use crate::planning::plan_instances;
use crate::task_parts::TaskParts;
use ilplan::{Activation, DeclaredName, Plan, Task};
use ilscope::{Scope, trigger_number};
use ilsource::{Configuration, TaskDeclaration};
use std::alloc::{AllocError, Global};
use wordlines::Binding;

/// The interval of the task `main`, in milliseconds (profile).
const INTERVAL: u32 = 100;

/// The priority of the task `main` (profile).
const PRIORITY: u16 = 0;

/// The plan of a source program that has no fault with the binding. `tasks` are the parts of each
/// task.
pub(crate) fn plan_of(
    alloc: Global,
    scope: &Scope<'_>,
    binding: &Binding,
    tasks: Vec<TaskParts<'_>>,
) -> Result<Plan, AllocError>
    requires named { IsWellNamed scope.now.tree scope.now.wiring }
    requires wiring { binding.now ≡ scope.now.wiring }
    requires tasks { ArePartsOfTasks scope.now.tree tasks.items }
    ensures { IfOk result (λ plan. plan ≡ plan_of_tree scope.now.tree scope.now.wiring) }
{
    let buses = binding.buses();
    let tasks = plan_tasks(alloc, scope, tasks)?;
    let functions = plan_functions(alloc, scope)?;
    let globals = plan_globals(alloc, scope)?;
    let text = Vec::from_slice(alloc, scope.source().text())?;
    let sources = Vec::from_slice(alloc, binding.sources())?;
    let tries = Vec::from_slice(alloc, binding.tries())?;
    Ok(Plan::new(text, buses, sources, tries, globals, functions, tasks))
}

/// The tasks, which have these parts.
fn plan_tasks(
    alloc: Global,
    scope: &Scope<'_>,
    tasks: Vec<TaskParts<'_>>,
) -> Result<Vec<Task>, AllocError>
    requires named { IsWellNamed scope.now.tree scope.now.wiring }
    requires tasks { ArePartsOfTasks scope.now.tree tasks.items }
    ensures tasks { IfOk result (λ v.
        v.items ≡ map (planned_task scope.now.tree) (tasks_of scope.now.tree)) }
    ensures limits { IfOk result (λ v.
        AllByRecursion (KeepsLimits (planned_functions scope.now.tree)) v.items) }
{
    let mut planned = Vec::new(alloc);
    for parts in tasks {
        let number = planned.len();
        planned.push(plan_task(alloc, scope, number, parts)?)?;
    }
    Ok(planned)
}

/// The task of this number, which has these parts.
fn plan_task(
    alloc: Global,
    scope: &Scope<'_>,
    number: usize,
    parts: TaskParts<'_>,
) -> Result<Task, AllocError>
    requires named { IsWellNamed scope.now.tree scope.now.wiring }
    requires task { AreInstancesOfTask scope.now.tree number parts.instances.now }
    requires parts { AreParts scope.now.tree parts }
    ensures task { IfOk result (λ task. option_map (planned_task scope.now.tree)
        (slice_get (tasks_of scope.now.tree) number) ≡ Some task) }
    ensures limits { IfOk result (KeepsLimits (planned_functions scope.now.tree)) }
{
    match scope.source().configuration() {
        Some(configuration) => plan_declared(alloc, scope, configuration, number, parts),
        None => plan_main(alloc, scope, number, parts),
    }
}

/// The task of this number that a configuration declares.
fn plan_declared(
    alloc: Global,
    scope: &Scope<'_>,
    configuration: &Configuration,
    number: usize,
    parts: TaskParts<'_>,
) -> Result<Task, AllocError>
    requires named { IsWellNamed scope.now.tree scope.now.wiring }
    requires configuration { scope.now.tree.configuration ≡ Some configuration.now }
    requires task { AreInstancesOfTask scope.now.tree number parts.instances.now }
    requires parts { AreParts scope.now.tree parts }
    ensures task { IfOk result (λ task. option_map (planned_task scope.now.tree)
        (slice_get (tasks_of scope.now.tree) number) ≡ Some task) }
    ensures limits { IfOk result (KeepsLimits (planned_functions scope.now.tree)) }
{
    let declared = task_declared(configuration, number);
    let name = DeclaredName {
        bytes: declared.name.text(scope.source().text()),
    };
    let name = name.to_string(alloc)?;
    let activation = activation_of(scope, declared);
    let priority = priority_of(declared);
    task_with(alloc, scope, name, activation, priority, parts)
}

/// The declaration of the task of this number, below the number of tasks.
fn task_declared(configuration: &Configuration, number: usize) -> TaskDeclaration
    requires { number < length configuration.now.tasks }
    ensures { slice_get configuration.now.tasks number ≡ Some result }
{
    configuration.tasks()[number]
}

/// What starts a task that has no fault.
fn activation_of(scope: &Scope<'_>, declared: TaskDeclaration) -> Activation
    ensures { result ≡ activation_of scope.now.tree declared }
{
    match declared.single {
        Some(trigger) => Activation::Event {
            trigger: trigger_number(scope, trigger),
        },
        None => Activation::Cyclic {
            interval: declared.interval.unwrap_or(0),
        },
    }
}

/// The priority of a task that has no fault.
fn priority_of(declared: TaskDeclaration) -> u16
    requires first { pos 0 ≤ℤ declared.priority }
    requires last { declared.priority ≤ℤ pos 65535 }
    ensures { result ≡ priority_of declared.priority }
{
    declared.priority as u16
}

/// The one task of a text without a configuration.
fn plan_main(
    alloc: Global,
    scope: &Scope<'_>,
    number: usize,
    parts: TaskParts<'_>,
) -> Result<Task, AllocError>
    requires named { IsWellNamed scope.now.tree scope.now.wiring }
    requires configuration { scope.now.tree.configuration ≡ None }
    requires task { AreInstancesOfTask scope.now.tree number parts.instances.now }
    requires parts { AreParts scope.now.tree parts }
    ensures task { IfOk result (λ task. option_map (planned_task scope.now.tree)
        (slice_get (tasks_of scope.now.tree) number) ≡ Some task) }
    ensures limits { IfOk result (KeepsLimits (planned_functions scope.now.tree)) }
{
    let name = String::from_str(alloc, "main")?;
    let activation = Activation::Cyclic { interval: INTERVAL };
    task_with(alloc, scope, name, activation, PRIORITY, parts)
}

/// The task of this name with these parts, which is one of the text's.
fn task_with(
    alloc: Global,
    scope: &Scope<'_>,
    name: String,
    activation: Activation,
    priority: u16,
    parts: TaskParts<'_>,
) -> Result<Task, AllocError>
    requires named { IsWellNamed scope.now.tree scope.now.wiring }
    requires parts { AreParts scope.now.tree parts }
    requires task { (number : ℕ) × (slice_get (tasks_of scope.now.tree) number
        ≡ Some (task_with (string_bytes name) activation priority
        (instances_of scope.now.tree parts.instances.now))) }
    ensures task { IfOk result (λ task. task ≡ planned_task scope.now.tree
        (task_with (string_bytes name) activation priority
        (instances_of scope.now.tree parts.entry.instances.now))) }
    ensures limits { IfOk result (KeepsLimits (planned_functions scope.now.tree)) }
{
    let planned = plan_instances(alloc, scope, parts.instances, &parts.slots, &parts.blocks)?;
    Task::new(
        alloc,
        name,
        activation,
        priority,
        parts.slots,
        parts.blocks,
        parts.counted.constants,
        planned,
    )
}
