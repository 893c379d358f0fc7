//! Faults of functions as such.

ghost use Rattle.ildeclared.specs.Faults.{IsNextOf, OfCause, SomeOf};
ghost use Rattle.ildeclared.specs.declared.fault.NameCause.TheVariants.{BadDeclaration};
ghost use Rattle.ilscope.specs.Faults.{HasNoInput, IsBadFunction};

use crate::function_scope::FunctionScope;
use ildeclared::{Found, NameCause, fault_of_blocks, found_where, lesser_of};

/// The next fault after `after` of a function without an input, or with a block instance in its
/// VAR.
pub(crate) fn bad_functions(functions: &[FunctionScope<'_>], after: Option<Found>) -> Option<Found>
    ensures { IsNextOf after
        (OfCause BadDeclaration (λ place. SomeOf (IsBadFunction place) functions.now)) result }
{
    let mut least = None;
    for function in functions {
        least = lesser_of(least, bad_function(function, after));
    }
    least
}

/// The next such fault after `after` of one function.
fn bad_function(function: &FunctionScope<'_>, after: Option<Found>) -> Option<Found>
    ensures { IsNextOf after
        (OfCause BadDeclaration (λ place. IsBadFunction place function.now)) result }
{
    lesser_of(
        no_input(function, after),
        fault_of_blocks(function.function().variables(), after),
    )
}

/// The fault of a function without an input.
fn no_input(function: &FunctionScope<'_>, after: Option<Found>) -> Option<Found>
    ensures { IsNextOf after
        (OfCause BadDeclaration (λ place. HasNoInput place function.now)) result }
{
    found_where(
        function.inputs().is_empty(),
        function.function().name().from,
        NameCause::BadDeclaration,
        after,
    )
}
