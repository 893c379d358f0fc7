//! The externals of a program.

ghost use Rattle.std.specs.Prelude.{◌≡◌, ◌++◌, IfOk, OnOk, map};
ghost use Rattle.ildeclared.specs.Declarations.{external, externals_of, values_of};
ghost use Rattle.ildeclared.specs.Kept.{types_in};

use crate::external::DeclaredExternal;
use crate::types::{DeclaredTypes, data_type};
use ilsource::{Declared, Name, Program, Specification};
use iltypes::IlType;
use std::alloc::{AllocError, Global};

/// A program's externals below these types, in declared order. `lower` is the text in lower case.
pub fn externals_of(
    alloc: Global,
    lower: &[u8],
    types: &DeclaredTypes,
    program: &Program,
) -> Result<Vec<DeclaredExternal>, AllocError>
    ensures { IfOk result (λ v.
        v.items ≡ externals_of (types_in lower.now types.now) program.now) }
{
    let mut externals = Vec::new(alloc);
    for declaration in program.declarations() {
        if let Declared::External(specification) = declaration.declared_kind() {
            let value_type = values_of(lower, types, specification);
            add_externals(&mut externals, value_type, declaration.names())?;
        }
    }
    Ok(externals)
}

/// The values of variables of a type, or `None` where the type is at fault.
pub(crate) fn values_of(
    lower: &[u8],
    types: &DeclaredTypes,
    specification: Specification,
) -> Option<IlType>
    ensures { result ≡ values_of (types_in lower.now types.now) specification }
{
    Some(data_type(lower, types, specification)?.value_type)
}

/// Adds the externals of one declaration.
fn add_externals(
    externals: &mut Vec<DeclaredExternal>,
    value_type: Option<IlType>,
    names: &[Name],
) -> Result<(), AllocError>
    ensures { OnOk result
        (externals.new.items ≡ externals.old.items ++ map (external value_type) names.now) }
{
    for name in names {
        externals.push(DeclaredExternal {
            name: *name,
            value_type,
        })?;
    }
    Ok(())
}

/// The names of some externals.
pub fn external_names(
    alloc: Global,
    externals: &[DeclaredExternal],
) -> Result<Vec<Name>, AllocError>
    ensures { IfOk result (λ v. v.items ≡ map (λ external. external.name) externals.now) }
{
    externals
        .iter()
        .map(|external| external.name)
        .collect(alloc)
}
