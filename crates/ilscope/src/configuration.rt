//! What a source program has of a configuration; nothing where it has none.

ghost use Rattle.std.specs.Prelude.{◌≡◌, IfOk, map};
ghost use Rattle.ilscope.specs.Configured.{declared_globals_of, instance_declarations};
ghost use Rattle.ilscope.specs.Configured.{task_declarations};

use crate::program_scope::ProgramScope;
use ilsource::{GlobalDeclaration, InstanceDeclaration, Name, Source, TaskDeclaration};
use std::alloc::{AllocError, Global};

/// The declarations of global variables.
pub(crate) fn declared_globals(source: &Source) -> &[GlobalDeclaration]
    ensures { result.now ≡ declared_globals_of source.now }
{
    match source.configuration() {
        Some(configuration) => configuration.globals(),
        None => &[],
    }
}

/// The tasks.
pub(crate) fn tasks_of(source: &Source) -> &[TaskDeclaration]
    ensures { result.now ≡ task_declarations source.now }
{
    match source.configuration() {
        Some(configuration) => configuration.tasks(),
        None => &[],
    }
}

/// The program instances.
pub(crate) fn instances_of(source: &Source) -> &[InstanceDeclaration]
    ensures { result.now ≡ instance_declarations source.now }
{
    match source.configuration() {
        Some(configuration) => configuration.instances(),
        None => &[],
    }
}

/// The names of tasks.
pub(crate) fn task_names(alloc: Global, tasks: &[TaskDeclaration]) -> Result<Vec<Name>, AllocError>
    ensures { IfOk result (λ v. v.items ≡ map (λ t. t.name) tasks.now) }
{
    tasks.iter().map(|task| task.name).collect(alloc)
}

/// The names of program instances.
pub(crate) fn instance_names(
    alloc: Global,
    instances: &[InstanceDeclaration],
) -> Result<Vec<Name>, AllocError>
    ensures { IfOk result (λ v. v.items ≡ map (λ i. i.name) instances.now) }
{
    instances
        .iter()
        .map(|instance| instance.name)
        .collect(alloc)
}

/// The names of programs.
pub(crate) fn program_names(
    alloc: Global,
    programs: &[ProgramScope<'_>],
) -> Result<Vec<Name>, AllocError>
    ensures { IfOk result (λ v. v.items ≡ map (λ p. p.program.name) programs.now) }
{
    programs
        .iter()
        .map(|program| program.program().name())
        .collect(alloc)
}
