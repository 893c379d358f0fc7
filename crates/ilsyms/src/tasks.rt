//! The program instances of each task.

ghost use Rattle.std.specs.Prelude.{◌≡◌, ◌<◌, IfOk, None, Some, filter_map, length};
ghost use Rattle.std.specs.Prelude.{slice_get};
ghost use Rattle.ilscope.specs.Declarations.{declared_programs};
ghost use Rattle.ilsyms.specs.TaskSteps.{AreInstances, AreInstancesOfTasks, assigned};
ghost use Rattle.ilsyms.specs.TaskSteps.{given_to};
ghost use Rattle.ilsyms.specs.Tasks.{main_task};

use ilscope::{ProgramScope, Scope};
use ilsource::{Configuration, InstanceDeclaration, Name};
use std::alloc::{AllocError, Global};
use std::marker::Model;

/// A program instance of a task.
#[derive(Clone, Copy)]
pub(crate) struct TaskInstance {
    /// Its name in the text.
    pub(crate) name: Name,
    /// The number of its program among those of the scope.
    pub(crate) program: usize,
}

/// The program instances of one task, in declared order.
#[derive(Drop)]
pub(crate) struct TaskInstances {
    instances: Vec<TaskInstance>,
}

impl Model for TaskInstances {
    ghost use Rattle.std.specs.Prelude.{List};
    ghost use Rattle.ilsyms.specs.declared.tasks.TaskInstance.{TaskInstance};

    ghost Value = { List TaskInstance };

    ghost view = { λ i. i.instances.items };
}

impl TaskInstances {
    ghost use Rattle.std.specs.Prelude.{◌≡◌};

    /// The instances, in declared order.
    pub(crate) fn as_slice(&self) -> &[TaskInstance]
        ensures value { result.now ≡ self.now }
    {
        &self.instances
    }
}

/// The program of this number, below the number of programs.
pub(crate) fn program_of<'a, 's>(scope: &'a Scope<'s>, number: usize) -> &'a ProgramScope<'s>
    requires { number < length (declared_programs scope.now.tree) }
    ensures { slice_get (declared_programs scope.now.tree) number ≡ Some result.now }
{
    &scope.programs()[number]
}

/// A program instance with the number of its task.
#[derive(Clone, Copy)]
struct Assigned {
    task: usize,
    instance: TaskInstance,
}

/// The program instances of each task: of each that is declared, or of the one task `main`, which
/// has one of each program.
pub(crate) fn instances_of_tasks(
    alloc: Global,
    scope: &Scope<'_>,
) -> Result<Vec<TaskInstances>, AllocError>
    ensures { IfOk result (λ v. AreInstancesOfTasks scope.now.tree v.items) }
{
    match scope.source().configuration() {
        Some(configuration) => declared_instances(alloc, scope, configuration),
        None => main_instances(alloc, scope),
    }
}

/// Those that a configuration declares.
fn declared_instances(
    alloc: Global,
    scope: &Scope<'_>,
    configuration: &Configuration,
) -> Result<Vec<TaskInstances>, AllocError>
    requires { scope.now.tree.configuration ≡ Some configuration.now }
    ensures { IfOk result (λ v. AreInstancesOfTasks scope.now.tree v.items) }
{
    let assigned = assigned_instances(alloc, scope, configuration.instances())?;
    let mut tasks = Vec::new(alloc);
    for number in 0..configuration.tasks().len() {
        tasks.push(instances_in(alloc, &assigned, number)?)?;
    }
    Ok(tasks)
}

/// The instances whose task and program are there.
fn assigned_instances(
    alloc: Global,
    scope: &Scope<'_>,
    instances: &[InstanceDeclaration],
) -> Result<Vec<Assigned>, AllocError>
    ensures { IfOk result (λ v.
        v.items ≡ filter_map (assigned scope.now.tree) instances.now) }
{
    let mut assigned = Vec::new(alloc);
    for instance in instances {
        if let Some(one) = assigned_instance(scope, *instance) {
            assigned.push(one)?;
        }
    }
    Ok(assigned)
}

/// An instance with the numbers of its task and its program, where both are there.
fn assigned_instance(scope: &Scope<'_>, instance: InstanceDeclaration) -> Option<Assigned>
    ensures { result ≡ assigned scope.now.tree instance }
{
    let task = scope.task_number(instance.task?)?;
    let program = scope.program_number(instance.program)?;
    Some(Assigned {
        task,
        instance: TaskInstance {
            name: instance.name,
            program,
        },
    })
}

/// The instances of the task with this number.
fn instances_in(
    alloc: Global,
    assigned: &[Assigned],
    task: usize,
) -> Result<TaskInstances, AllocError>
    ensures { IfOk result (λ v. v ≡ filter_map (given_to task) assigned.now) }
{
    let mut instances = Vec::new(alloc);
    for one in assigned {
        if one.task == task {
            instances.push(one.instance)?;
        }
    }
    Ok(TaskInstances { instances })
}

/// Those of the task `main`.
fn main_instances(alloc: Global, scope: &Scope<'_>) -> Result<Vec<TaskInstances>, AllocError>
    requires { scope.now.tree.configuration ≡ None }
    ensures { IfOk result (λ v. AreInstancesOfTasks scope.now.tree v.items) }
{
    let mut tasks = Vec::new(alloc);
    tasks.push(instances_of_programs(alloc, scope)?)?;
    Ok(tasks)
}

/// One instance of each program, under its name.
fn instances_of_programs(alloc: Global, scope: &Scope<'_>) -> Result<TaskInstances, AllocError>
    ensures { IfOk result (λ v. AreInstances scope.now.tree v
        (main_task scope.now.tree).instances) }
{
    let mut instances = Vec::new(alloc);
    for (number, program) in scope.programs().iter().enumerate() {
        let name = program.program().name();
        instances.push(TaskInstance {
            name,
            program: number,
        })?;
    }
    Ok(TaskInstances { instances })
}
