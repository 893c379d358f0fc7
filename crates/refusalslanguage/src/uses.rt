//! What lines use, and the faults of that.

ghost use Rattle.std.specs.Prelude.{◌≡◌, [], ◌∷◌, IfOk, None, Some, true};
ghost use Rattle.ildeclared.specs.Faults.{IsLeast, SomeOf};
ghost use Rattle.ilscope.specs.Configured.{global_number};
ghost use Rattle.ilscope.specs.Declarations.{DeclaredProgram, bodies_of, body_at};
ghost use Rattle.ilscope.specs.UseFaults.{IsFaultOfBody, IsFaultOfUses, function_called};
ghost use Rattle.ilscope.specs.Uses.{uses_of};

use ildeclared::{Found, NameCause};
use ilscope::{
    BodyNumber, Scope, fault_at_uses, fault_of_lines, function_called, trigger_number, uses_of,
};
use ilsource::{Line, Name, Symbol, Use};
use std::alloc::{AllocError, Global};

/// `each_event_task_has_the_first_trigger`: the trigger of each task was the first global variable.
pub fn trigger_has_its_own_number(scope: &Scope<'_>, trigger: Name) -> usize
    requires { global_number scope.now.tree trigger ≡ Some 3 }
    ensures { result ≡ 3 }
{
    trigger_number(scope, trigger)
}

/// `names_in_parentheses_not_looked_up`: what stands in parentheses was no use.
pub fn uses_of_lines_are_all(
    alloc: Global,
    lines: &[Line<Symbol, Name>],
    used: &Use<Symbol>,
) -> Result<Vec<Use<Symbol>>, AllocError>
    requires { uses_of lines.now ≡ used.now ∷ [] }
    ensures { IfOk result (λ uses. uses.items ≡ used.now ∷ []) }
{
    uses_of(alloc, lines)
}

/// `a_store_to_an_answer_accepted`, `a_store_to_a_later_input_accepted`: the first fault is a store
/// to an input, and none was found there.
pub fn store_to_an_input_is_found(
    alloc: Global,
    scope: &Scope<'_>,
    place: usize,
) -> Result<Option<Found>, AllocError>
    requires { IsLeast (IsFaultOfUses scope.now.tree) place NameCause.WritesInput }
    ensures { IfOk result (λ found.
        found ≡ Some (record { at = place; cause = NameCause.WritesInput })) }
{
    fault_at_uses(alloc, scope, None)
}

/// `an_operand_counted_one_off`: the first fault is a call with a wrong number of operands, and
/// none was found there.
pub fn call_with_wrong_operands_is_found(
    alloc: Global,
    scope: &Scope<'_>,
    place: usize,
) -> Result<Option<Found>, AllocError>
    requires { IsLeast
        (λ at cause. SomeOf (λ p. IsFaultOfBody scope.now.tree p at cause)
        (bodies_of scope.now.tree)) place NameCause.BadDeclaration }
    ensures { IfOk result (λ found.
        found ≡ Some (record { at = place; cause = NameCause.BadDeclaration })) }
{
    fault_of_lines(alloc, scope, None)
}

/// `a_jump_back_is_unknown`: a jump back was one to an unknown label.
pub fn jump_back_is_found(
    alloc: Global,
    scope: &Scope<'_>,
    place: usize,
) -> Result<Option<Found>, AllocError>
    requires { IsLeast
        (λ at cause. SomeOf (λ p. IsFaultOfBody scope.now.tree p at cause)
        (bodies_of scope.now.tree)) place NameCause.BackwardJump }
    ensures { IfOk result (λ found.
        found ≡ Some (record { at = place; cause = NameCause.BackwardJump })) }
{
    fault_of_lines(alloc, scope, None)
}

/// `a_function_calls_itself`: a function was called that is not declared above the call.
pub fn function_below_is_not_called(scope: &Scope<'_>, body: BodyNumber, name: Name) -> bool
    requires { (program : DeclaredProgram) × (body_at scope.now.tree body ≡ Some program)
        × (function_called scope.now.tree program name ≡ None) }
    ensures { result ≡ true }
{
    match function_called(scope, body, name) {
        Some(_) => false,
        None => true,
    }
}
