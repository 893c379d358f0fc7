//! Faults of declarations.

ghost use Rattle.std.specs.Prelude.{◌↔◌, IsTrue};
ghost use Rattle.ilsource.specs.declared.declaration.Declared.TheVariants.{Variables};
ghost use Rattle.ildeclared.specs.Faults.{IsBadIn, IsBadInitial, IsBadSubrange, IsUnknownIn};
ghost use Rattle.ildeclared.specs.Faults.{IsNextOf, OfCause, SomeOf, IsFaultIn};
ghost use Rattle.ildeclared.specs.Kept.{types_in};
ghost use Rattle.ildeclared.specs.declared.fault.NameCause.TheVariants.{BadDeclaration, Unknown};

use crate::data_type::{DataType, value_in};
use crate::fault::NameCause;
use crate::found::{Found, found_where, lesser_of};
use crate::types::{DeclaredTypes, data_type, type_of_name};
use ilsource::{Constant, Declaration, Declared, Name, Specification};

/// The next fault after `after` of what some declarations say below these types. `lower` is the
/// text in lower case.
pub fn fault_of_all(
    lower: &[u8],
    types: &DeclaredTypes,
    declarations: &[Declaration],
    after: Option<Found>,
) -> Option<Found>
    ensures { IsNextOf after (λ place cause. SomeOf
        (λ d. IsFaultIn (types_in lower.now types.now) d place cause) declarations.now) result }
{
    let mut least = None;
    for declaration in declarations {
        let fault = fault_of(
            lower,
            types,
            declaration.names(),
            declaration.declared_kind(),
            after,
        );
        least = lesser_of(least, fault);
    }
    least
}

/// The next fault after `after` of what a declaration says below these types. `lower` is the text
/// in lower case.
pub fn fault_of(
    lower: &[u8],
    types: &DeclaredTypes,
    names: &[Name],
    declared: Declared,
    after: Option<Found>,
) -> Option<Found>
    ensures { IsNextOf after (IsFaultIn (types_in lower.now types.now)
        (record { names = names.now; declared = declared })) result }
{
    match declared {
        Declared::Variables {
            specification,
            initial,
        } => fault_of_variables(lower, types, names, specification, initial, after),
        Declared::Blocks(_) => None,
        Declared::External(specification) => {
            fault_of_variables(lower, types, names, specification, None, after)
        }
    }
}

/// The same of a declaration of variables, of externals, or of a type.
fn fault_of_variables(
    lower: &[u8],
    types: &DeclaredTypes,
    names: &[Name],
    specification: Specification,
    initial: Option<Constant>,
    after: Option<Found>,
) -> Option<Found>
    ensures { IsNextOf after (IsFaultIn (types_in lower.now types.now)
        (record { names = names.now; declared = Variables specification initial })) result }
{
    lesser_of(
        unknown_type(lower, types, specification, after),
        bad_declaration(lower, types, names, specification, initial, after),
    )
}

/// The fault of a type's name that no type above has.
fn unknown_type(
    lower: &[u8],
    types: &DeclaredTypes,
    specification: Specification,
    after: Option<Found>,
) -> Option<Found>
    ensures { IsNextOf after (OfCause Unknown
        (λ place. IsUnknownIn (types_in lower.now types.now) place specification)) result }
{
    let Specification::Named(name) = specification else {
        return None;
    };
    let is_unknown = type_of_name(lower, types, name).is_none();
    found_where(is_unknown, name.from, NameCause::Unknown, after)
}

/// The fault of a declaration with a bad subrange or a bad initial value.
fn bad_declaration(
    lower: &[u8],
    types: &DeclaredTypes,
    names: &[Name],
    specification: Specification,
    initial: Option<Constant>,
    after: Option<Found>,
) -> Option<Found>
    ensures { IsNextOf after (OfCause BadDeclaration (λ place.
        IsBadIn (types_in lower.now types.now) place
        (record { names = names.now; declared = Variables specification initial }))) result }
{
    let name = names.first()?;
    let declared = data_type(lower, types, specification);
    let bad = is_bad_subrange(specification) || is_bad_initial(declared, initial);
    found_where(bad, name.from, NameCause::BadDeclaration, after)
}

/// Whether a subrange is empty, or has numbers outside its base.
fn is_bad_subrange(specification: Specification) -> bool
    ensures { IsTrue result ↔ IsBadSubrange specification }
{
    let Specification::Subrange { base, low, high } = specification else {
        return false;
    };
    let base = base.range();
    high < low || low < base.lo || base.hi < high
}

/// Whether a type, where it has no fault itself, does not have an initial value that is written.
fn is_bad_initial(declared: Option<DataType>, initial: Option<Constant>) -> bool
    ensures { IsTrue result ↔ IsBadInitial declared initial }
{
    match (declared, initial) {
        (Some(declared), Some(constant)) => value_in(declared.value_type, constant).is_none(),
        _ => false,
    }
}
