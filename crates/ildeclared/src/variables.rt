//! The variables of a program.

ghost use Rattle.std.specs.Prelude.{◌≡◌, ◌++◌, IfOk, OnOk, flat_map, map};
ghost use Rattle.ildeclared.specs.Declarations.{names_of, type_of, variable};
ghost use Rattle.ildeclared.specs.Declarations.{variables_in, variables_of};
ghost use Rattle.ildeclared.specs.Kept.{types_in};

use crate::data_type::DataType;
use crate::types::{DeclaredTypes, declared_type};
use crate::variable::DeclaredVariable;
use ilsource::{Constant, Declaration, Declared, Name, Program, Specification};
use std::alloc::{AllocError, Global};

/// A program's variables below these types, in declared order. `lower` is the text in lower case.
pub fn variables_of(
    alloc: Global,
    lower: &[u8],
    types: &DeclaredTypes,
    program: &Program,
) -> Result<Vec<DeclaredVariable>, AllocError>
    ensures { IfOk result (λ v.
        v.items ≡ variables_of (types_in lower.now types.now) program.now) }
{
    let mut variables = Vec::new(alloc);
    add_declared(&mut variables, lower, types, program.declarations())?;
    Ok(variables)
}

/// Adds the variables that some declarations declare below these types.
pub(crate) fn add_declared(
    variables: &mut Vec<DeclaredVariable>,
    lower: &[u8],
    types: &DeclaredTypes,
    declarations: &[Declaration],
) -> Result<(), AllocError>
    ensures { OnOk result (variables.new.items ≡ variables.old.items
        ++ flat_map (variables_in (types_in lower.now types.now)) declarations.now) }
{
    for declaration in declarations {
        if let Declared::Variables {
            specification,
            initial,
        } = declaration.declared_kind()
        {
            let declared = meant_type(lower, types, specification, initial);
            add_variables(variables, declared, declaration.names())?;
        }
    }
    Ok(())
}

/// What a declaration means below these types; FALSE of BOOL where it is at fault.
pub(crate) fn meant_type(
    lower: &[u8],
    types: &DeclaredTypes,
    specification: Specification,
    initial: Option<Constant>,
) -> DataType
    ensures { result ≡ type_of (types_in lower.now types.now) specification initial }
{
    declared_type(lower, types, specification, initial).unwrap_or(DataType::truth_values())
}

/// Adds the variables of one declaration.
fn add_variables(
    variables: &mut Vec<DeclaredVariable>,
    declared: DataType,
    names: &[Name],
) -> Result<(), AllocError>
    ensures { OnOk result
        (variables.new.items ≡ variables.old.items ++ map (variable declared) names.now) }
{
    for name in names {
        variables.push(variable_of(*name, declared))?;
    }
    Ok(())
}

/// The variable of this name, with what its declaration says.
pub(crate) fn variable_of(name: Name, declared: DataType) -> DeclaredVariable
    ensures { result ≡ variable declared name }
{
    DeclaredVariable {
        name,
        value_type: declared.value_type,
        initial: declared.initial,
    }
}

/// The names of some variables.
pub fn variable_names(
    alloc: Global,
    variables: &[DeclaredVariable],
) -> Result<Vec<Name>, AllocError>
    ensures { IfOk result (λ v. v.items ≡ map (λ variable. variable.name) variables.now) }
{
    variables
        .iter()
        .map(|variable| variable.name)
        .collect(alloc)
}

/// The names that a program declares, in their order.
pub fn names_of(alloc: Global, program: &Program) -> Result<Vec<Name>, AllocError>
    ensures { IfOk result (λ v. v.items ≡ names_of program.now) }
{
    let mut names = Vec::new(alloc);
    for declaration in program.declarations() {
        names.extend_from_slice(declaration.names())?;
    }
    Ok(names)
}
