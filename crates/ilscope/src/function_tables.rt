//! A function with what it declares, and a table in which its names are looked up.

ghost use Rattle.std.specs.Prelude.{◌≡◌, IfOk};
ghost use Rattle.ildeclared.specs.Declarations.{function_names};
ghost use Rattle.ildeclared.specs.Faults.{IsNextOf, OfCause};
ghost use Rattle.ildeclared.specs.Kept.{types_in};
ghost use Rattle.ildeclared.specs.declared.fault.NameCause.TheVariants.{Twice};
ghost use Rattle.ilsource.specs.Names.{text_of};
ghost use Rattle.ilscope.specs.Declarations.{with_inputs};
ghost use Rattle.ilscope.specs.Faults.{IsTwiceIn};

use crate::function_scope::FunctionScope;
use crate::numbers::{numbers_of, numbers_of_own};
use ildeclared::{DeclaredTypes, Found, Names, function_names, inputs_of, own_variables_of};
use ilsource::SourceFunction;
use std::alloc::{AllocError, Global};

/// A function with what it declares, the numbers of its variables, and a fault of a name of these
/// that is given again.
#[derive(Drop)]
pub(crate) struct FunctionTables<'a> {
    pub(crate) scope: FunctionScope<'a>,
    pub(crate) own_numbers: Names<usize>,
    pub(crate) twice: Option<Found>,
}

impl<'a> FunctionTables<'a> {
    ghost use Rattle.ilscope.specs.ScopeSteps.{AreNumbersOf, names_of_function};

    /// The tables of a function below these types and so many functions. `lower` is the text in
    /// lower case.
    pub(crate) fn of(
        alloc: Global,
        lower: &[u8],
        types: &DeclaredTypes,
        functions: usize,
        function: &'a SourceFunction,
        after: Option<Found>,
    ) -> Result<FunctionTables<'a>, AllocError>
        ensures scope { IfOk result (λ tables.
            tables.scope ≡ with_inputs (types_in lower.now types.now) functions function.now) }
        ensures own { IfOk result (λ tables. AreNumbersOf (text_of lower.now)
            (names_of_function tables.scope) tables.own_numbers) }
        ensures twice { IfOk result (λ tables. IsNextOf after
            (OfCause Twice (IsTwiceIn (text_of lower.now) (function_names function.now)))
            tables.twice) }
    {
        let twice = own_name_given_twice(alloc, lower, function, after)?;
        let inputs = inputs_of(alloc, lower, types, function)?;
        let variables = own_variables_of(alloc, lower, types, function)?;
        let own_numbers = numbers_of_own(alloc, lower, &inputs, &variables)?;
        Ok(FunctionTables {
            scope: FunctionScope::new(function, inputs, variables, functions),
            own_numbers,
            twice,
        })
    }
}

/// The next fault after `after` of a name that a function gives again: its own, or that of an input
/// or of a variable of its VAR.
fn own_name_given_twice(
    alloc: Global,
    lower: &[u8],
    function: &SourceFunction,
    after: Option<Found>,
) -> Result<Option<Found>, AllocError>
    ensures { IfOk result
        (IsNextOf after
        (OfCause Twice (IsTwiceIn (text_of lower.now) (function_names function.now)))) }
{
    let names = function_names(alloc, function)?;
    let (_, twice) = numbers_of(alloc, lower, &names, after)?;
    Ok(twice)
}
