//! What a function declares: its inputs, the variable of its result, and its VAR.

ghost use Rattle.std.specs.Prelude.{◌≡◌, ◌++◌, ◌↔◌, IfOk, IsTrue, OnOk, flat_map};
ghost use Rattle.ildeclared.specs.Declarations.{function_names, inputs_of, own_variables_of};
ghost use Rattle.ildeclared.specs.Declarations.{result_declaration, result_variable};
ghost use Rattle.ildeclared.specs.Faults.{AreBlocks, AreBlocksIn, IsFaultIn, IsNextOf, OfCause};
ghost use Rattle.ildeclared.specs.Faults.{SomeOf};
ghost use Rattle.ildeclared.specs.Kept.{types_in};
ghost use Rattle.ildeclared.specs.declared.fault.NameCause.TheVariants.{BadDeclaration};

use crate::declarations::fault_of;
use crate::fault::NameCause;
use crate::found::{Found, found_where, lesser_of};
use crate::types::DeclaredTypes;
use crate::variable::DeclaredVariable;
use crate::variables::{add_declared, meant_type, variable_of};
use ilsource::{Declaration, Declared, Name, SourceFunction};
use std::alloc::{AllocError, Global};

/// A function's inputs below these types, in declared order. `lower` is the text in lower case.
pub fn inputs_of(
    alloc: Global,
    lower: &[u8],
    types: &DeclaredTypes,
    function: &SourceFunction,
) -> Result<Vec<DeclaredVariable>, AllocError>
    ensures { IfOk result (λ v. v.items ≡ inputs_of (types_in lower.now types.now) function.now) }
{
    let mut variables = Vec::new(alloc);
    add_declared(&mut variables, lower, types, function.inputs())?;
    Ok(variables)
}

/// A function's other variables below these types: the one with its name, and its VAR in declared
/// order. `lower` is the text in lower case.
pub fn own_variables_of(
    alloc: Global,
    lower: &[u8],
    types: &DeclaredTypes,
    function: &SourceFunction,
) -> Result<Vec<DeclaredVariable>, AllocError>
    ensures { IfOk result (λ v.
        v.items ≡ own_variables_of (types_in lower.now types.now) function.now) }
{
    let mut variables = Vec::new(alloc);
    variables.push(result_variable(lower, types, function))?;
    add_declared(&mut variables, lower, types, function.variables())?;
    Ok(variables)
}

/// The variable with the function's name.
fn result_variable(
    lower: &[u8],
    types: &DeclaredTypes,
    function: &SourceFunction,
) -> DeclaredVariable
    ensures { result ≡ result_variable (types_in lower.now types.now) function.now }
{
    let declared = meant_type(lower, types, function.result_type(), None);
    variable_of(function.name(), declared)
}

/// The names that a function declares, in the order of the text: its own, those of its inputs and
/// those of its VAR.
pub fn function_names(alloc: Global, function: &SourceFunction) -> Result<Vec<Name>, AllocError>
    ensures { IfOk result (λ v. v.items ≡ function_names function.now) }
{
    let mut names = Vec::new(alloc);
    names.push(function.name())?;
    add_names(&mut names, function.inputs())?;
    add_names(&mut names, function.variables())?;
    Ok(names)
}

/// Adds the names of some declarations.
fn add_names(names: &mut Vec<Name>, declarations: &[Declaration]) -> Result<(), AllocError>
    ensures { OnOk result
        (names.new.items ≡ names.old.items ++ flat_map (λ d. d.names) declarations.now) }
{
    for declaration in declarations {
        names.extend_from_slice(declaration.names())?;
    }
    Ok(())
}

/// The next fault after `after` of what is said of a function's result below these types. `lower`
/// is the text in lower case.
pub fn fault_of_result(
    lower: &[u8],
    types: &DeclaredTypes,
    function: &SourceFunction,
    after: Option<Found>,
) -> Option<Found>
    ensures { IsNextOf after (IsFaultIn (types_in lower.now types.now)
        (result_declaration function.now)) result }
{
    let declared = Declared::Variables {
        specification: function.result_type(),
        initial: None,
    };
    fault_of(lower, types, &[function.name()], declared, after)
}

/// The next fault after `after` of block instances that are declared where there may be none.
pub fn fault_of_blocks(declarations: &[Declaration], after: Option<Found>) -> Option<Found>
    ensures { IsNextOf after
        (OfCause BadDeclaration (λ place. SomeOf (AreBlocksIn place) declarations.now)) result }
{
    let mut least = None;
    for declaration in declarations {
        least = lesser_of(least, blocks_at(declaration, after));
    }
    least
}

/// The fault of one such declaration.
fn blocks_at(declaration: &Declaration, after: Option<Found>) -> Option<Found>
    ensures { IsNextOf after
        (OfCause BadDeclaration (λ place. AreBlocksIn place declaration.now)) result }
{
    let name = declaration.names().first()?;
    found_where(
        are_blocks(declaration.declared_kind()),
        name.from,
        NameCause::BadDeclaration,
        after,
    )
}

/// Whether block instances are declared.
fn are_blocks(declared: Declared) -> bool
    ensures { IsTrue result ↔ AreBlocks declared }
{
    matches!(declared, Declared::Blocks(_))
}
