//! The global variables of a configuration.

ghost use Rattle.std.specs.Prelude.{◌≡◌, ◌++◌, IfOk, OnOk, filter_map, flat_map, map};
ghost use Rattle.ildeclared.specs.Faults.{IsNextOf, SomeOf, IsFaultIn};
ghost use Rattle.ildeclared.specs.Globals.{as_variables, global, global_type, globals_in};
ghost use Rattle.ildeclared.specs.Globals.{initial_at, located_type, input_initial, type_of_each};
ghost use Rattle.ildeclared.specs.Globals.{value_types_in};
ghost use Rattle.ildeclared.specs.Kept.{types_in};

use crate::data_type::DataType;
use crate::declarations::fault_of;
use crate::externals::values_of;
use crate::found::{Found, lesser_of};
use crate::global::DeclaredGlobal;
use crate::types::{DeclaredTypes, declared_type};
use ilsource::{Constant, Declared, DirectAddress, GlobalDeclaration, Name};
use iltokens::AddressKind;
use iltypes::IlType;
use std::alloc::{AllocError, Global};

/// The global variables of these declarations below these types, in declared order. `lower` is the
/// text in lower case.
pub fn globals_of(
    alloc: Global,
    lower: &[u8],
    types: &DeclaredTypes,
    declarations: &[GlobalDeclaration],
) -> Result<Vec<DeclaredGlobal>, AllocError>
    ensures { IfOk result (λ v.
        v.items ≡ flat_map (globals_in (types_in lower.now types.now)) declarations.now) }
{
    let mut globals = Vec::new(alloc);
    for declaration in declarations {
        let declared = global_type(lower, types, declaration);
        let address = declaration.address();
        add_globals(&mut globals, address, declared, declaration.names())?;
    }
    Ok(globals)
}

/// The type of the global variables of one declaration.
fn global_type(lower: &[u8], types: &DeclaredTypes, declaration: &GlobalDeclaration) -> DataType
    ensures { result ≡ global_type (types_in lower.now types.now) declaration.now }
{
    let declared = declared_type(
        lower,
        types,
        declaration.specification(),
        declaration.initial(),
    )
    .unwrap_or(DataType::truth_values());
    located_type(declaration.address(), declared)
}

/// Adds the global variables of one declaration.
fn add_globals(
    globals: &mut Vec<DeclaredGlobal>,
    address: Option<DirectAddress>,
    declared: DataType,
    names: &[Name],
) -> Result<(), AllocError>
    ensures { OnOk result
        (globals.new.items ≡ globals.old.items ++ map (global address declared) names.now) }
{
    for name in names {
        globals.push(DeclaredGlobal {
            name: *name,
            address,
            value_type: declared.value_type,
            initial: declared.initial,
        })?;
    }
    Ok(())
}

/// The type of what is located there, or nowhere, with the value that an input has at first.
fn located_type(address: Option<DirectAddress>, declared: DataType) -> DataType
    ensures { result ≡ located_type address declared }
{
    declared
        .with_initial(initial_at(address))
        .unwrap_or(declared)
}

/// The value that an input has at first, if there is an input.
fn initial_at(address: Option<DirectAddress>) -> Option<Constant>
    ensures { result ≡ initial_at address }
{
    let address = address?;
    input_initial(address.kind, address.place)
}

/// The value that an input has at first.
fn input_initial(kind: AddressKind, place: u64) -> Option<Constant>
    ensures { result ≡ input_initial kind place }
{
    match kind {
        AddressKind::OutputByte => None,
        AddressKind::InputWord => Some(Constant::Number(if place < 128 { 258 } else { 0 })),
        AddressKind::InputBit => Some(Constant::Bool(false)),
    }
}

/// The values of each global variable, in declared order; `None` where its type is at fault.
/// `lower` is the text in lower case.
pub fn value_types_of(
    alloc: Global,
    lower: &[u8],
    types: &DeclaredTypes,
    declarations: &[GlobalDeclaration],
) -> Result<Vec<Option<IlType>>, AllocError>
    ensures { IfOk result (λ v.
        v.items ≡ flat_map (value_types_in (types_in lower.now types.now)) declarations.now) }
{
    let mut value_types = Vec::new(alloc);
    for declaration in declarations {
        let value_type = values_of(lower, types, declaration.specification());
        add_value_types(&mut value_types, value_type, declaration.names())?;
    }
    Ok(value_types)
}

/// Adds a type for each name.
fn add_value_types(
    value_types: &mut Vec<Option<IlType>>,
    value_type: Option<IlType>,
    names: &[Name],
) -> Result<(), AllocError>
    ensures { OnOk result
        (value_types.new.items ≡ value_types.old.items ++ map (type_of_each value_type) names.now) }
{
    for _ in names {
        value_types.push(value_type)?;
    }
    Ok(())
}

/// The names of some global variables.
pub fn global_names(alloc: Global, globals: &[DeclaredGlobal]) -> Result<Vec<Name>, AllocError>
    ensures { IfOk result (λ v. v.items ≡ map (λ g. g.name) globals.now) }
{
    globals.iter().map(|global| global.name).collect(alloc)
}

/// Where global variables are located, in declared order.
pub fn addresses_of(
    alloc: Global,
    globals: &[DeclaredGlobal],
) -> Result<Vec<DirectAddress>, AllocError>
    ensures { IfOk result (λ v. v.items ≡ filter_map (λ g. g.address) globals.now) }
{
    globals
        .iter()
        .filter_map(|global| global.address)
        .collect(alloc)
}

/// The next fault after `after` of what some declarations of global variables say below these
/// types. `lower` is the text in lower case.
pub fn fault_of_globals(
    lower: &[u8],
    types: &DeclaredTypes,
    declarations: &[GlobalDeclaration],
    after: Option<Found>,
) -> Option<Found>
    ensures { IsNextOf after (λ place cause. SomeOf (λ d. IsFaultIn (types_in lower.now types.now)
        (as_variables d) place cause) declarations.now) result }
{
    let mut least = None;
    for declaration in declarations {
        let declared = Declared::Variables {
            specification: declaration.specification(),
            initial: declaration.initial(),
        };
        let fault = fault_of(lower, types, declaration.names(), declared, after);
        least = lesser_of(least, fault);
    }
    least
}
