//! Calls of functions: which one is called, and whether the call has an operand for each input.

ghost use Rattle.std.specs.Prelude.{◌≡◌, ◌↔◌, ◌+◌, ◌<◌, ◌++◌, IfOk, IsSome, IsTrue, OnOk, Some};
ghost use Rattle.std.specs.Prelude.{option_map};
ghost use Rattle.ildeclared.specs.Faults.{IsNextOf, OfCause};
ghost use Rattle.ildeclared.specs.declared.fault.NameCause.TheVariants.{BadDeclaration};
ghost use Rattle.ilscope.specs.Declarations.{DeclaredProgram, body_at};
ghost use Rattle.ilscope.specs.CallSteps.{call_ended, given_after};
ghost use Rattle.ilscope.specs.Calls.{calls_by, calls_in, calls_of, calls_of_line};
ghost use Rattle.ilscope.specs.UseFaults.{IsCalledWrongly, IsFaultOfCalls, function_called};

use crate::body_number::BodyNumber;
use crate::function_scope::FunctionScope;
use crate::scope::Scope;
use ildeclared::{Found, NameCause, found_where, lesser_of};
use ilsource::{Action, Instruction, Line, Name, Nested, Piece, Symbol};
use std::alloc::{AllocError, Global};

/// The call of a function.
#[derive(Clone, Copy)]
pub struct FunctionCall {
    /// The function, by its name.
    pub function: Symbol,
    /// How many operands it has.
    pub operands: usize,
}

/// The first function with this name, of those that are declared above the program or the function
/// with this number; none where there is none.
pub fn function_called<'a, 's>(
    scope: &'a Scope<'s>,
    body: BodyNumber,
    name: Name,
) -> Option<&'a FunctionScope<'s>>
    requires { IsSome (body_at scope.now.tree body) }
    ensures { (p : DeclaredProgram) → body_at scope.now.tree body ≡ Some p
        → option_map (λ f. f.now) result ≡ function_called scope.now.tree p name }
{
    let number = scope.function_number(name)?;
    if number < functions_above(scope, body) {
        scope.functions().get(number)
    } else {
        None
    }
}

/// How many functions are declared above the program or the function with this number.
fn functions_above(scope: &Scope<'_>, body: BodyNumber) -> usize
    requires { IsSome (body_at scope.now.tree body) }
    ensures { (p : DeclaredProgram) → body_at scope.now.tree body ≡ Some p
        → result ≡ p.functions }
{
    match body {
        BodyNumber::Program(number) => scope.programs()[number].functions(),
        BodyNumber::Function(number) => scope.functions()[number].functions(),
    }
}

/// The next fault after `after` of a call with a wrong number of operands, in the program or the
/// function with this number, which has these lines.
pub(crate) fn fault_of_calls(
    alloc: Global,
    scope: &Scope<'_>,
    body: BodyNumber,
    lines: &[Line<Symbol, Name>],
    after: Option<Found>,
) -> Result<Option<Found>, AllocError>
    requires { IsSome (body_at scope.now.tree body) }
    ensures { (p : DeclaredProgram) → body_at scope.now.tree body ≡ Some p
        → IfOk result (λ found. IsNextOf after (IsFaultOfCalls scope.now.tree p lines.now) found) }
{
    let calls = calls_of(alloc, lines)?;
    let mut least = None;
    for call in &calls {
        least = lesser_of(least, called_wrongly(scope, body, *call, after));
    }
    Ok(least)
}

/// The fault of one such call.
fn called_wrongly(
    scope: &Scope<'_>,
    body: BodyNumber,
    call: FunctionCall,
    after: Option<Found>,
) -> Option<Found>
    requires { IsSome (body_at scope.now.tree body) }
    ensures { (p : DeclaredProgram) → body_at scope.now.tree body ≡ Some p
        → IsNextOf after (OfCause BadDeclaration (λ place.
        IsCalledWrongly scope.now.tree p place call.operands call.function)) result }
{
    let Symbol::Function(name) = call.function else {
        return None;
    };
    let function = function_called(scope, body, name)?;
    let right = takes(function.inputs().len(), call.operands);
    found_where(!right, name.from, NameCause::BadDeclaration, after)
}

/// Whether a function with the given number of inputs takes the given number of operands: the
/// current result is its first argument.
fn takes(inputs: usize, operands: usize) -> bool
    ensures { IsTrue result ↔ (inputs ≡ operands + 1) }
{
    inputs > 0 && inputs - 1 == operands
}

/// The calls of lines, in the order of the text.
///
/// # Errors
///
/// The allocator is out of memory.
pub(crate) fn calls_of(
    alloc: Global,
    lines: &[Line<Symbol, Name>],
) -> Result<Vec<FunctionCall>, AllocError>
    ensures { IfOk result (λ v. v.items ≡ calls_of lines.now) }
{
    let mut calls = Vec::new(alloc);
    for line in lines {
        push_calls(&mut calls, line)?;
    }
    Ok(calls)
}

/// Adds the calls of a line.
fn push_calls(calls: &mut Vec<FunctionCall>, line: &Line<Symbol, Name>) -> Result<(), AllocError>
    ensures { OnOk result (calls.new.items ≡ calls.old.items ++ calls_of_line line.now) }
{
    match &line.instruction {
        Some(instruction) => push_calls_by(calls, instruction),
        None => Ok(()),
    }
}

/// Adds the calls of an instruction.
fn push_calls_by(
    calls: &mut Vec<FunctionCall>,
    instruction: &Instruction<Symbol, Name>,
) -> Result<(), AllocError>
    ensures { OnOk result (calls.new.items ≡ calls.old.items ++ calls_by instruction.now) }
{
    match instruction {
        Instruction::Deferred { nested, .. } => push_calls_in(calls, nested),
        Instruction::Invoke { function, operands } => {
            calls.push(FunctionCall {
                function: *function,
                operands: operands.as_slice().len(),
            })?;
            Ok(())
        }
        _ => Ok(()),
    }
}

/// Adds the calls in parentheses.
fn push_calls_in(calls: &mut Vec<FunctionCall>, nested: &Nested<Symbol>) -> Result<(), AllocError>
    ensures { OnOk result (calls.new.items ≡ calls.old.items ++ calls_in nested.now) }
{
    let mut given = 0;
    for piece in nested.pieces() {
        push_ended(calls, given, *piece)?;
        given = given_after(given, *piece);
    }
    Ok(())
}

/// Adds the call that a piece ends, to which the given number of operands are given.
fn push_ended(
    calls: &mut Vec<FunctionCall>,
    given: usize,
    piece: Piece<Symbol>,
) -> Result<(), AllocError>
    ensures { OnOk result (calls.new.items ≡ calls.old.items ++ call_ended given piece.action) }
{
    if let Action::Invoke(function) = piece.action {
        calls.push(FunctionCall {
            function,
            operands: given,
        })?;
    }
    Ok(())
}

/// How many operands are given after a piece in the call that is read.
fn given_after(given: usize, piece: Piece<Symbol>) -> usize
    requires { given < usize.MAX }
    ensures { result ≡ given_after given piece.action }
{
    match piece.action {
        Action::Hand(_) => 0,
        Action::Give { .. } => given + 1,
        _ => given,
    }
}
