//! What lines use, and what is at fault with it.

ghost use Rattle.std.specs.Prelude.{◌≡◌, ◌<◌, IfOk, IsSome, Some, length, slice_get};
ghost use Rattle.ildeclared.specs.Faults.{IsNextOf, SomeOf};
ghost use Rattle.ilscope.specs.Declarations.{DeclaredFunction, DeclaredProgram, body_at};
ghost use Rattle.ilscope.specs.Declarations.{declared_functions, declared_programs};
ghost use Rattle.ilscope.specs.UseFaults.{IsFaultAtUse, IsFaultAtUses, IsFaultInFunction};
ghost use Rattle.ilscope.specs.UseFaults.{IsFaultOfUses};
ghost use Rattle.ilscope.specs.Uses.{uses_of};

use crate::body_number::BodyNumber;
use crate::ports::output_written;
use crate::scope::Scope;
use crate::stored::{fault_at_inputs, input_written};
use crate::unknown_uses::unknown_use;
use ildeclared::{Found, lesser_of};
use ilsource::{Line, Name, Symbol, Use};
use std::alloc::{AllocError, Global};

/// What lines use, in the order of the text.
///
/// # Errors
///
/// The allocator is out of memory.
pub fn uses_of(alloc: Global, lines: &[Line<Symbol, Name>]) -> Result<Vec<Use<Symbol>>, AllocError>
    ensures { IfOk result (λ v. v.items ≡ uses_of lines.now) }
{
    let mut uses = Vec::new(alloc);
    for line in lines {
        line.push_uses(&mut uses)?;
    }
    Ok(uses)
}

/// The next fault after `after` of a use, in any program or function: of what is not declared for
/// it, or of a store to an output port or to an input.
///
/// # Errors
///
/// The allocator is out of memory.
pub fn fault_at_uses(
    alloc: Global,
    scope: &Scope<'_>,
    after: Option<Found>,
) -> Result<Option<Found>, AllocError>
    ensures { IfOk result (λ found. IsNextOf after (IsFaultOfUses scope.now.tree) found) }
{
    let programs = fault_in_programs(alloc, scope, after)?;
    let functions = fault_in_functions(alloc, scope, after)?;
    Ok(lesser_of(programs, functions))
}

/// The next such fault after `after` in a program.
fn fault_in_programs(
    alloc: Global,
    scope: &Scope<'_>,
    after: Option<Found>,
) -> Result<Option<Found>, AllocError>
    ensures { IfOk result (λ found. IsNextOf after
        (λ place cause. SomeOf
        (λ p. IsFaultAtUses scope.now.tree p (uses_of p.program.lines) place cause)
        (declared_programs scope.now.tree)) found) }
{
    let mut least = None;
    for (number, program) in scope.programs().iter().enumerate() {
        let uses = uses_of(alloc, program.program().lines())?;
        least = lesser_of(
            least,
            fault_in_uses(scope, BodyNumber::Program(number), &uses, after),
        );
    }
    Ok(least)
}

/// The next such fault after `after` in a function.
fn fault_in_functions(
    alloc: Global,
    scope: &Scope<'_>,
    after: Option<Found>,
) -> Result<Option<Found>, AllocError>
    ensures { IfOk result (λ found. IsNextOf after (λ place cause. SomeOf
        (λ f. IsFaultInFunction scope.now.tree f place cause)
        (declared_functions scope.now.tree)) found) }
{
    let mut least = None;
    for (number, function) in scope.functions().iter().enumerate() {
        let uses = uses_of(alloc, function.function().lines())?;
        let fault = fault_in_function(scope, number, &uses, after);
        least = lesser_of(least, fault);
    }
    Ok(least)
}

/// The next such fault after `after` in the function with this number, which uses these.
fn fault_in_function(
    scope: &Scope<'_>,
    number: usize,
    uses: &[Use<Symbol>],
    after: Option<Found>,
) -> Option<Found>
    requires { number < length (declared_functions scope.now.tree) }
    ensures { (f : DeclaredFunction)
        → slice_get (declared_functions scope.now.tree) number ≡ Some f
        → uses.now ≡ uses_of f.function.lines
        → IsNextOf after (IsFaultInFunction scope.now.tree f) result }
{
    let used = fault_in_uses(scope, BodyNumber::Function(number), uses, after);
    lesser_of(used, fault_at_inputs(scope, number, uses, after))
}

/// The next such fault after `after` among uses in the program or the function with this number,
/// stores to inputs of its own apart.
fn fault_in_uses(
    scope: &Scope<'_>,
    body: BodyNumber,
    uses: &[Use<Symbol>],
    after: Option<Found>,
) -> Option<Found>
    requires { IsSome (body_at scope.now.tree body) }
    ensures { (p : DeclaredProgram) → body_at scope.now.tree body ≡ Some p
        → IsNextOf after (IsFaultAtUses scope.now.tree p uses.now) result }
{
    let mut least = None;
    for used in uses {
        least = lesser_of(least, fault_of_use(scope, body, *used, after));
    }
    least
}

/// The next fault after `after` of one use.
fn fault_of_use(
    scope: &Scope<'_>,
    body: BodyNumber,
    used: Use<Symbol>,
    after: Option<Found>,
) -> Option<Found>
    requires { IsSome (body_at scope.now.tree body) }
    ensures { (p : DeclaredProgram) → body_at scope.now.tree body ≡ Some p
        → IsNextOf after (IsFaultAtUse scope.now.tree p used) result }
{
    let written = lesser_of(
        output_written(scope, body, used, after),
        input_written(scope, body, used, after),
    );
    lesser_of(unknown_use(scope, body, used, after), written)
}
