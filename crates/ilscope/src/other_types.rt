//! Externals of another type than the global variable.

ghost use Rattle.std.specs.Prelude.{◌≡◌, ◌↔◌, IsTrue, None};
ghost use Rattle.std.specs.Prelude.{option_and_then, slice_get, unwrap_or};
ghost use Rattle.ildeclared.specs.Faults.{IsNextOf, OfCause, SomeOf};
ghost use Rattle.ildeclared.specs.Kept.{kept_under};
ghost use Rattle.ildeclared.specs.declared.fault.NameCause.TheVariants.{BadDeclaration};
ghost use Rattle.ilscope.specs.Faults.{AreOther, IsOtherExternalIn};

use crate::program_scope::ProgramScope;
use ildeclared::{DeclaredExternal, Found, NameCause, Names, found_where, lesser_of};
use ilsource::Name;
use iltypes::IlType;

/// The next fault after `after` of an external that has another type than the global variable of
/// its name. `lower` is the text in lower case; `globals` are the types of the global variables, by
/// number, where they have no fault.
pub(crate) fn other_externals(
    lower: &[u8],
    numbers: &Names<usize>,
    globals: &[Option<IlType>],
    programs: &[ProgramScope<'_>],
    after: Option<Found>,
) -> Option<Found>
    ensures { IsNextOf after (OfCause BadDeclaration (λ place. SomeOf
        (IsOtherExternalIn (λ name. option_and_then
        (λ number. unwrap_or (slice_get globals.now number) None)
        (kept_under lower.now numbers.now name)) place) programs.now)) result }
{
    let mut least = None;
    for program in programs {
        least = lesser_of(
            least,
            other_in(lower, numbers, globals, program.externals(), after),
        );
    }
    least
}

/// The next fault after `after` of one of a program's externals.
fn other_in(
    lower: &[u8],
    numbers: &Names<usize>,
    globals: &[Option<IlType>],
    externals: &[DeclaredExternal],
    after: Option<Found>,
) -> Option<Found>
    ensures { IsNextOf after (OfCause BadDeclaration (λ place. SomeOf
        (λ e. AreOther e.value_type (option_and_then
        (λ number. unwrap_or (slice_get globals.now number) None)
        (kept_under lower.now numbers.now e.name)) × (place ≡ e.name.from)) externals.now)) result }
{
    let mut least = None;
    for external in externals {
        least = lesser_of(
            least,
            other_external(lower, numbers, globals, external, after),
        );
    }
    least
}

/// The fault of one such external.
fn other_external(
    lower: &[u8],
    numbers: &Names<usize>,
    globals: &[Option<IlType>],
    external: &DeclaredExternal,
    after: Option<Found>,
) -> Option<Found>
    ensures { IsNextOf after (OfCause BadDeclaration (λ place.
        AreOther external.now.value_type (option_and_then
        (λ number. unwrap_or (slice_get globals.now number) None)
        (kept_under lower.now numbers.now external.now.name))
        × (place ≡ external.now.name.from))) result }
{
    let its = type_of_global(lower, numbers, globals, external.name);
    let other = are_other(external.value_type, its);
    found_where(other, external.name.from, NameCause::BadDeclaration, after)
}

/// The type of the global variable of a name, if there is one, and it has no fault.
fn type_of_global(
    lower: &[u8],
    numbers: &Names<usize>,
    globals: &[Option<IlType>],
    name: Name,
) -> Option<IlType>
    ensures { result ≡ option_and_then (λ number. unwrap_or (slice_get globals.now number) None)
        (kept_under lower.now numbers.now name) }
{
    let number = numbers.get(name.text(lower))?;
    *globals.get(number)?
}

/// Whether both types are there, and differ.
fn are_other(one: Option<IlType>, other: Option<IlType>) -> bool
    ensures { IsTrue result ↔ AreOther one other }
{
    match (one, other) {
        (Some(one), Some(other)) => one != other,
        _ => false,
    }
}
