//! Names of what a configuration declares, where nothing has the name.

ghost use Rattle.std.specs.Prelude.{IsSomeAnd};
ghost use Rattle.ildeclared.specs.Faults.{IsNextOf, OfCause, SomeOf};
ghost use Rattle.ildeclared.specs.Kept.{kept_under};
ghost use Rattle.ildeclared.specs.declared.fault.NameCause.TheVariants.{Unknown};
ghost use Rattle.ilscope.specs.Faults.{IsUnknownName, IsUnknownExternalIn, IsUnknownTriggerOf};
ghost use Rattle.ilscope.specs.Faults.{IsUnknownTaskOf};

use crate::program_scope::ProgramScope;
use ildeclared::{DeclaredExternal, Found, NameCause, Names, found_where, lesser_of};
use ilsource::{InstanceDeclaration, Name, TaskDeclaration};

/// The next fault after `after` of an external that has the name of no global variable. `lower` is
/// the text in lower case.
pub(crate) fn unknown_externals(
    lower: &[u8],
    globals: &Names<usize>,
    programs: &[ProgramScope<'_>],
    after: Option<Found>,
) -> Option<Found>
    ensures { IsNextOf after (OfCause Unknown (λ place.
        SomeOf (IsUnknownExternalIn (kept_under lower.now globals.now) place) programs.now))
        result }
{
    let mut least = None;
    for program in programs {
        least = lesser_of(
            least,
            unknown_in(lower, globals, program.externals(), after),
        );
    }
    least
}

/// The next fault after `after` of one of a program's externals.
fn unknown_in(
    lower: &[u8],
    globals: &Names<usize>,
    externals: &[DeclaredExternal],
    after: Option<Found>,
) -> Option<Found>
    ensures { IsNextOf after (OfCause Unknown (λ place. SomeOf
        (λ e. IsUnknownName (kept_under lower.now globals.now) place e.name) externals.now))
        result }
{
    let mut least = None;
    for external in externals {
        least = lesser_of(least, unknown_name(lower, globals, external.name, after));
    }
    least
}

/// The next fault after `after` of SINGLE with the name of no global variable.
pub(crate) fn unknown_triggers(
    lower: &[u8],
    globals: &Names<usize>,
    tasks: &[TaskDeclaration],
    after: Option<Found>,
) -> Option<Found>
    ensures { IsNextOf after (OfCause Unknown (λ place.
        SomeOf (IsUnknownTriggerOf (kept_under lower.now globals.now) place) tasks.now)) result }
{
    let mut least = None;
    for task in tasks {
        least = lesser_of(least, unknown_of(lower, globals, task.single, after));
    }
    least
}

/// The next fault after `after` of a program instance WITH the name of no task.
pub(crate) fn unknown_tasks(
    lower: &[u8],
    tasks: &Names<usize>,
    instances: &[InstanceDeclaration],
    after: Option<Found>,
) -> Option<Found>
    ensures { IsNextOf after (OfCause Unknown (λ place.
        SomeOf (IsUnknownTaskOf (kept_under lower.now tasks.now) place) instances.now)) result }
{
    let mut least = None;
    for instance in instances {
        least = lesser_of(least, unknown_of(lower, tasks, instance.task, after));
    }
    least
}

/// The next fault after `after` of an instance of no program.
pub(crate) fn unknown_programs(
    lower: &[u8],
    programs: &Names<usize>,
    instances: &[InstanceDeclaration],
    after: Option<Found>,
) -> Option<Found>
    ensures { IsNextOf after (OfCause Unknown (λ place. SomeOf
        (λ i. IsUnknownName (kept_under lower.now programs.now) place i.program) instances.now))
        result }
{
    let mut least = None;
    for instance in instances {
        least = lesser_of(
            least,
            unknown_name(lower, programs, instance.program, after),
        );
    }
    least
}

/// The fault of a name, if there is one, under which nothing is kept.
fn unknown_of(
    lower: &[u8],
    names: &Names<usize>,
    name: Option<Name>,
    after: Option<Found>,
) -> Option<Found>
    ensures { IsNextOf after (OfCause Unknown (λ place.
        IsSomeAnd name (IsUnknownName (kept_under lower.now names.now) place))) result }
{
    unknown_name(lower, names, name?, after)
}

/// The fault of a name under which nothing is kept.
fn unknown_name(
    lower: &[u8],
    names: &Names<usize>,
    name: Name,
    after: Option<Found>,
) -> Option<Found>
    ensures { IsNextOf after (OfCause Unknown (λ place.
        IsUnknownName (kept_under lower.now names.now) place name)) result }
{
    let is_unknown = names.get(name.text(lower)).is_none();
    found_where(is_unknown, name.from, NameCause::Unknown, after)
}
