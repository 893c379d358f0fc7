//! Global variables that lines store to.

ghost use Rattle.std.specs.Prelude.{◌≡◌, ◌<◌, ◌↔◌, ℕ, All, IfOk, IsSome, IsTrue, Some, length};
ghost use Rattle.std.specs.Prelude.{option_and_then};
ghost use Rattle.std.specs.Prelude.{slice_get};
ghost use Rattle.ilsource.specs.declared.name.Name.{Name};
ghost use Rattle.ildeclared.specs.Faults.{IsInput, IsNextOf, OfCause, SomeOf};
ghost use Rattle.ildeclared.specs.declared.fault.NameCause.TheVariants.{WritesInput};
ghost use Rattle.ilscope.specs.Configured.{global_named, globals_of};
ghost use Rattle.ilscope.specs.Declarations.{DeclaredFunction, DeclaredProgram, body_at};
ghost use Rattle.ilscope.specs.Declarations.{declared_functions, declared_programs};
ghost use Rattle.ilsource.specs.Names.{SameName};
ghost use Rattle.ilscope.specs.UseFaults.{IsFaultAtInputs, IsNamedInput, ProgramStores};
ghost use Rattle.ilscope.specs.UseFaults.{StoresExternal, StoresTo, StoresToInput, StoresToOwnInput};
ghost use Rattle.ilscope.specs.UseFaults.{stored_name};

use crate::body_number::BodyNumber;
use crate::scope::Scope;
use crate::uses::uses_of;
use ildeclared::{Found, NameCause, found_where, lesser_of};
use ilsource::{DirectAddress, Name, Operand, Purpose, Symbol, Use};
use iltokens::AddressKind;
use std::alloc::{AllocError, Global};

/// The numbers of the global variables that lines of the program with this number store to, one
/// for each such use.
///
/// # Errors
///
/// The allocator is out of memory.
pub fn stored_globals(
    alloc: Global,
    scope: &Scope<'_>,
    number: usize,
) -> Result<Vec<usize>, AllocError>
    requires { number < length (declared_programs scope.now.tree) }
    ensures stored { (p : DeclaredProgram)
        → slice_get (declared_programs scope.now.tree) number ≡ Some p
        → IfOk result (λ v. (global : ℕ)
        → SomeOf (λ its. its ≡ global) v.items ↔ ProgramStores scope.now.tree global p) }
    ensures there { IfOk result (λ v.
        All (λ its. its < length (globals_of scope.now.tree)) v.items) }
{
    let uses = uses_of(alloc, scope.programs()[number].program().lines())?;
    let mut stored = Vec::new(alloc);
    for used in &uses {
        if let Some(global) = stored_global(scope, number, *used) {
            stored.push(global)?;
        }
    }
    Ok(stored)
}

/// The number of the global variable that a use in the program with this number stores to.
fn stored_global(scope: &Scope<'_>, number: usize, used: Use<Symbol>) -> Option<usize>
    requires { number < length (declared_programs scope.now.tree) }
    ensures { (p : DeclaredProgram) → slice_get (declared_programs scope.now.tree) number ≡ Some p
        → (global : ℕ) → (result ≡ Some global) ↔ StoresTo scope.now.tree global p used }
{
    scope.global_number(stored_external(scope, BodyNumber::Program(number), used)?)
}

/// The fault of a use that stores to an input, in the program or the function with this
/// number.
pub(crate) fn input_written(
    scope: &Scope<'_>,
    body: BodyNumber,
    used: Use<Symbol>,
    after: Option<Found>,
) -> Option<Found>
    requires { IsSome (body_at scope.now.tree body) }
    ensures { (p : DeclaredProgram) → body_at scope.now.tree body ≡ Some p
        → IsNextOf after
        (OfCause WritesInput (λ place. StoresToInput scope.now.tree p place used)) result }
{
    let name = stored_external(scope, body, used)?;
    found_where(
        is_named_input(scope, name),
        name.from,
        NameCause::WritesInput,
        after,
    )
}

/// The name of the external that a use in the program with this number stores to.
fn stored_external(scope: &Scope<'_>, body: BodyNumber, used: Use<Symbol>) -> Option<Name>
    requires { IsSome (body_at scope.now.tree body) }
    ensures { (p : DeclaredProgram) → body_at scope.now.tree body ≡ Some p
        → (name : Name)
        → (result ≡ Some name) ↔ StoresExternal scope.now.tree.text p used name }
{
    let name = stored_name(used)?;
    if scope.variable_number(body, name).is_some() {
        return None;
    }
    scope.external_number(body, name)?;
    Some(name)
}

/// The name of the variable that a use stores to.
fn stored_name(used: Use<Symbol>) -> Option<Name>
    ensures { result ≡ stored_name used.purpose used.operand }
{
    match (used.purpose, used.operand) {
        (Purpose::Write, Operand::Name(Symbol::Variable(name))) => Some(name),
        _ => None,
    }
}

/// Whether the name is that of a global variable that is an input.
fn is_named_input(scope: &Scope<'_>, name: Name) -> bool
    ensures { IsTrue result ↔ IsNamedInput scope.now.tree name }
{
    match named_address(scope, name) {
        Some(address) => is_input(address),
        None => false,
    }
}

/// Where the global variable of this name is located, if it is.
fn named_address(scope: &Scope<'_>, name: Name) -> Option<DirectAddress>
    ensures { result ≡ option_and_then (λ g. g.address) (global_named scope.now.tree name) }
{
    let number = scope.global_number(name)?;
    scope.globals().get(number)?.address
}

/// Whether a variable at this address is an input, which no program stores to.
fn is_input(address: DirectAddress) -> bool
    ensures { IsTrue result ↔ IsInput address }
{
    !matches!(address.kind, AddressKind::OutputByte)
}

/// The next fault after `after` of a use that stores to an input of the function with this number.
pub(crate) fn fault_at_inputs(
    scope: &Scope<'_>,
    number: usize,
    uses: &[Use<Symbol>],
    after: Option<Found>,
) -> Option<Found>
    requires { number < length (declared_functions scope.now.tree) }
    ensures { (f : DeclaredFunction)
        → slice_get (declared_functions scope.now.tree) number ≡ Some f
        → IsNextOf after (IsFaultAtInputs scope.now.tree.text f uses.now) result }
{
    let mut least = None;
    for used in uses {
        least = lesser_of(least, own_input_written(scope, number, *used, after));
    }
    least
}

/// The fault of one such use.
fn own_input_written(
    scope: &Scope<'_>,
    number: usize,
    used: Use<Symbol>,
    after: Option<Found>,
) -> Option<Found>
    requires { number < length (declared_functions scope.now.tree) }
    ensures { (f : DeclaredFunction)
        → slice_get (declared_functions scope.now.tree) number ≡ Some f
        → IsNextOf after (OfCause WritesInput
        (λ place. StoresToOwnInput scope.now.tree.text f place used)) result }
{
    let name = stored_name(used)?;
    found_where(
        is_own_input(scope, number, name),
        name.from,
        NameCause::WritesInput,
        after,
    )
}

/// Whether the name is that of an input of the function with this number.
fn is_own_input(scope: &Scope<'_>, number: usize, name: Name) -> bool
    requires { number < length (declared_functions scope.now.tree) }
    ensures { (f : DeclaredFunction)
        → slice_get (declared_functions scope.now.tree) number ≡ Some f
        → IsTrue result ↔ SomeOf (λ v. SameName scope.now.tree.text name v.name) f.inputs }
{
    match scope.variable_number(BodyNumber::Function(number), name) {
        Some(variable) => variable < scope.functions()[number].inputs().len(),
        None => false,
    }
}
