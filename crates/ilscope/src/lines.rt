//! Faults of lines as such: of labels, of ports that one call gives again, and of calls with a
//! wrong number of operands.

ghost use Rattle.std.specs.Prelude.{◌≡◌, IfOk, IsSome, Some};
ghost use Rattle.ildeclared.specs.Faults.{IsNextOf, SomeOf};
ghost use Rattle.ilscope.specs.Declarations.{DeclaredProgram, as_program, bodies_of, body_at};
ghost use Rattle.ilscope.specs.Declarations.{declared_functions, declared_programs};
ghost use Rattle.ilscope.specs.UseFaults.{IsFaultOfBody, IsFaultOfLabels, IsFaultOfLines};

use crate::arguments::given_twice;
use crate::body_number::BodyNumber;
use crate::calls::fault_of_calls;
use crate::jumps::fault_of_jumps;
use crate::labels::number_labels;
use crate::scope::Scope;
use ildeclared::{Found, lesser_of};
use ilsource::{Line, Name, Symbol};
use std::alloc::{AllocError, Global};

/// The next fault after `after`, in any program or function, of a label, of one that is given again
/// or of a jump's, of a port that is given again, or of a call with a wrong number of operands.
///
/// # Errors
///
/// The allocator is out of memory.
pub fn fault_of_lines(
    alloc: Global,
    scope: &Scope<'_>,
    after: Option<Found>,
) -> Result<Option<Found>, AllocError>
    ensures { IfOk result (λ found. IsNextOf after
        (λ place cause. SomeOf (λ p. IsFaultOfBody scope.now.tree p place cause)
        (bodies_of scope.now.tree)) found) }
{
    let programs = fault_in_programs(alloc, scope, after)?;
    let functions = fault_in_functions(alloc, scope, after)?;
    Ok(lesser_of(programs, functions))
}

/// The next such fault after `after` in a program.
fn fault_in_programs(
    alloc: Global,
    scope: &Scope<'_>,
    after: Option<Found>,
) -> Result<Option<Found>, AllocError>
    ensures { IfOk result (λ found. IsNextOf after
        (λ place cause. SomeOf (λ p. IsFaultOfBody scope.now.tree p place cause)
        (declared_programs scope.now.tree)) found) }
{
    let mut least = None;
    for (number, program) in scope.programs().iter().enumerate() {
        let lines = program.program().lines();
        let fault = fault_of_body(alloc, scope, BodyNumber::Program(number), lines, after)?;
        least = lesser_of(least, fault);
    }
    Ok(least)
}

/// The next such fault after `after` in a function.
fn fault_in_functions(
    alloc: Global,
    scope: &Scope<'_>,
    after: Option<Found>,
) -> Result<Option<Found>, AllocError>
    ensures { IfOk result (λ found. IsNextOf after
        (λ place cause. SomeOf (λ f. IsFaultOfBody scope.now.tree (as_program f) place cause)
        (declared_functions scope.now.tree)) found) }
{
    let mut least = None;
    for (number, function) in scope.functions().iter().enumerate() {
        let lines = function.function().lines();
        let fault = fault_of_body(alloc, scope, BodyNumber::Function(number), lines, after)?;
        least = lesser_of(least, fault);
    }
    Ok(least)
}

/// The next such fault after `after` in the program or the function with this number, which has
/// these lines.
fn fault_of_body(
    alloc: Global,
    scope: &Scope<'_>,
    body: BodyNumber,
    lines: &[Line<Symbol, Name>],
    after: Option<Found>,
) -> Result<Option<Found>, AllocError>
    requires { IsSome (body_at scope.now.tree body) }
    ensures { (p : DeclaredProgram) → body_at scope.now.tree body ≡ Some p
        → lines.now ≡ p.program.lines
        → IfOk result (λ found. IsNextOf after (IsFaultOfBody scope.now.tree p) found) }
{
    let said = fault_in_lines(alloc, scope, lines, after)?;
    let called = fault_of_calls(alloc, scope, body, lines, after)?;
    Ok(lesser_of(said, called))
}

/// The next fault after `after` of a label or of a port among one program's lines.
fn fault_in_lines(
    alloc: Global,
    scope: &Scope<'_>,
    lines: &[Line<Symbol, Name>],
    after: Option<Found>,
) -> Result<Option<Found>, AllocError>
    ensures { IfOk result (λ found.
        IsNextOf after (IsFaultOfLines scope.now.tree.text lines.now) found) }
{
    let labels = fault_of_labels(alloc, scope, lines, after)?;
    let ports = given_twice(alloc, scope, lines, after)?;
    Ok(lesser_of(labels, ports))
}

/// The next fault after `after` of a label among one program's lines.
fn fault_of_labels(
    alloc: Global,
    scope: &Scope<'_>,
    lines: &[Line<Symbol, Name>],
    after: Option<Found>,
) -> Result<Option<Found>, AllocError>
    ensures { IfOk result (λ found.
        IsNextOf after (IsFaultOfLabels scope.now.tree.text lines.now) found) }
{
    let (labels, twice) = number_labels(alloc, scope, lines, after)?;
    Ok(lesser_of(twice, fault_of_jumps(scope, &labels, lines, after)))
}
