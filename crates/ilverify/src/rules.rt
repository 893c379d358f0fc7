//! The rules of the kinds of words: what each leaves, or the least cause that arises at it.

ghost use Rattle.std.specs.Prelude.{◌≡◌, Some, true, false, IsTrue, MatchResult};
ghost use Rattle.ilverify.specs.Causes.{IsLeastCause};
ghost use Rattle.ilverify.specs.RuleSteps.{takes, may_modify, if_right};
ghost use Rattle.ilverify.specs.Refusals.{ArisesAtLoad, ArisesAtApply, ArisesAtTransform};
ghost use Rattle.ilverify.specs.Refusals.{ArisesAtStoring, ArisesAtSet, ArisesAtPass};
ghost use Rattle.ilverify.specs.Refusals.{ArisesAtClosing};
ghost use Rattle.ilverify.specs.Rules.{IsModified, IsLoaded, IsApplied, IsTransformed};
ghost use Rattle.ilverify.specs.Rules.{IsStored, MaySet};

use crate::cause::Cause;
use crate::known::Known;
use iltypes::{Function, IlType, Operator};

/// What is known under the modifier N of LDN and STN (IEC 61131-3, 3.2.2), which takes no number.
pub(crate) fn modify(negated: bool, known: Known) -> Result<Known, Cause>
    ensures { MatchResult result
        (IsModified negated known) (IsLeastCause (ArisesAtLoad negated (Some known) true)) }
{
    if negated {
        known.after_function(Function::Not)
    } else {
        Ok(known)
    }
}

/// What LD and LDN leave of an operand, which `None` stands for where its table does not have it;
/// `named` says whether it may be named.
pub(crate) fn load(negated: bool, operand: Option<Known>, named: bool) -> Result<Known, Cause>
    ensures { MatchResult result
        (λ known. IsTrue named × IsLoaded negated operand known)
        (IsLeastCause (ArisesAtLoad negated operand named)) }
{
    let known = load_known(negated, operand)?;
    if named {
        Ok(known)
    } else {
        Err(Cause::BadSlot)
    }
}

/// The same of an operand that may be named.
fn load_known(negated: bool, operand: Option<Known>) -> Result<Known, Cause>
    ensures { MatchResult result
        (IsLoaded negated operand) (IsLeastCause (ArisesAtLoad negated operand true)) }
{
    match operand {
        Some(known) => modify(negated, known),
        None => Err(Cause::BadSlot),
    }
}

/// Whether the operator takes some value of the kind.
fn takes(operator: Operator, known: Known) -> bool
    ensures { result ≡ takes operator known }
{
    let logic = matches!(
        operator,
        Operator::And { .. } | Operator::Or { .. } | Operator::Xor { .. }
    );
    match known {
        Known::Bool => logic || matches!(operator, Operator::Eq | Operator::Ne),
        Known::Int(_) => !logic,
    }
}

/// Whether a value of the kind may be stored: under the modifier N no number.
fn may_modify(negated: bool, known: Known) -> bool
    ensures { result ≡ may_modify negated known }
{
    !negated || matches!(known, Known::Bool)
}

/// The cause where the kind is right, and wrong type where it is not.
fn if_right(right: bool, cause: Cause) -> Cause
    ensures { result ≡ if_right right cause }
{
    if right { cause } else { Cause::WrongType }
}

/// What an operator leaves of the current result and its operand; `None` stands for what is not
/// there, and `named` says whether the operand may be named.
pub(crate) fn apply(
    operator: Operator,
    current: Option<Known>,
    operand: Option<Known>,
    named: bool,
) -> Result<Known, Cause>
    ensures { MatchResult result
        (λ known. IsTrue named × IsApplied operator current operand known)
        (IsLeastCause (ArisesAtApply operator current operand named)) }
{
    let known = apply_known(operator, current, operand)?;
    if named {
        Ok(known)
    } else {
        Err(Cause::BadSlot)
    }
}

/// The same of an operand that may be named.
fn apply_known(
    operator: Operator,
    current: Option<Known>,
    operand: Option<Known>,
) -> Result<Known, Cause>
    ensures { MatchResult result
        (IsApplied operator current operand)
        (IsLeastCause (ArisesAtApply operator current operand true)) }
{
    match (current, operand) {
        (Some(left), Some(right)) => Known::after(operator, left, right),
        (None, Some(right)) => Err(if_right(takes(operator, right), Cause::NoResult)),
        (Some(left), None) => Err(if_right(takes(operator, left), Cause::BadSlot)),
        (None, None) => Err(Cause::NoResult),
    }
}

/// What `)` leaves: its operator is applied to the result that waits and the current one.
pub(crate) fn close(
    operator: Operator,
    saved: Known,
    current: Option<Known>,
) -> Result<Known, Cause>
    ensures { MatchResult result
        (IsApplied operator (Some saved) current)
        (IsLeastCause (ArisesAtClosing operator saved current)) }
{
    match current {
        Some(inner) => Known::after(operator, saved, inner),
        None => Err(if_right(takes(operator, saved), Cause::NoResult)),
    }
}

/// What NOT, ABS or a conversion leaves of the current result.
pub(crate) fn transform(function: Function, current: Option<Known>) -> Result<Known, Cause>
    ensures { MatchResult result
        (IsTransformed function current) (IsLeastCause (ArisesAtTransform function current)) }
{
    match current {
        Some(known) => known.after_function(function),
        None => Err(Cause::NoResult),
    }
}

/// What ST and STN store to a variable of this type, `None` where there is none; `writable` says
/// whether it may be written.
pub(crate) fn store(
    negated: bool,
    current: Option<Known>,
    declared: Option<IlType>,
    writable: bool,
) -> Result<Known, Cause>
    ensures { MatchResult result
        (λ stored. IsTrue writable × IsStored negated current declared stored)
        (IsLeastCause (ArisesAtStoring negated current declared writable)) }
{
    let stored = store_typed(negated, current, declared)?;
    if writable {
        Ok(stored)
    } else {
        Err(Cause::BadSlot)
    }
}

/// The same of a variable that may be written.
fn store_typed(
    negated: bool,
    current: Option<Known>,
    declared: Option<IlType>,
) -> Result<Known, Cause>
    ensures { MatchResult result
        (IsStored negated current declared)
        (IsLeastCause (ArisesAtStoring negated current declared true)) }
{
    match (current, declared) {
        (Some(known), Some(declared)) => store_known(negated, known, declared),
        (None, Some(declared)) => {
            let right = may_modify(negated, Known::of(declared));
            Err(if_right(right, Cause::NoResult))
        }
        (Some(known), None) => Err(if_right(may_modify(negated, known), Cause::BadSlot)),
        (None, None) => Err(Cause::NoResult),
    }
}

/// What ST and STN store of what is known.
fn store_known(negated: bool, known: Known, declared: IlType) -> Result<Known, Cause>
    ensures { MatchResult result
        (IsStored negated (Some known) (Some declared))
        (IsLeastCause (ArisesAtStoring negated (Some known) (Some declared) true)) }
{
    let stored = modify(negated, known)?;
    match stored.check_store(declared) {
        Ok(()) => Ok(stored),
        Err(cause) => Err(cause),
    }
}

/// Whether S and R may write to a variable of this type, by the current result.
pub(crate) fn check_set(
    current: Option<Known>,
    declared: Option<IlType>,
    writable: bool,
) -> Result<(), Cause>
    ensures { MatchResult result
        (λ _. IsTrue writable × MaySet current declared)
        (IsLeastCause (ArisesAtSet current declared writable)) }
{
    match (current, declared) {
        (Some(Known::Int(_)), _) | (_, Some(IlType::Int(_))) => Err(Cause::WrongType),
        (None, _) => Err(Cause::NoResult),
        (Some(Known::Bool), None) => Err(Cause::BadSlot),
        (Some(Known::Bool), Some(IlType::Bool)) if writable => Ok(()),
        (Some(Known::Bool), Some(IlType::Bool)) => Err(Cause::BadSlot),
    }
}

/// What an argument of CAL stores of its operand to an input of this type, and GIVE to a slot;
/// `None` stands for what is not there, `named` says whether the operand may be named, and
/// `writable` whether the input or the slot may be written.
pub(crate) fn pass(
    operand: Option<Known>,
    named: bool,
    declared: Option<IlType>,
    writable: bool,
) -> Result<Known, Cause>
    ensures { MatchResult result
        (λ passed. IsTrue named × IsTrue writable × IsStored false operand declared passed)
        (IsLeastCause (ArisesAtPass operand named declared writable)) }
{
    let passed = pass_known(operand, declared, writable)?;
    if named {
        Ok(passed)
    } else {
        Err(Cause::BadSlot)
    }
}

/// The same of an operand that may be named.
fn pass_known(
    operand: Option<Known>,
    declared: Option<IlType>,
    writable: bool,
) -> Result<Known, Cause>
    ensures { MatchResult result
        (λ passed. IsTrue writable × IsStored false operand declared passed)
        (IsLeastCause (ArisesAtPass operand true declared writable)) }
{
    match (operand, declared) {
        (Some(known), Some(declared)) => {
            let passed = store_known(false, known, declared)?;
            if writable {
                Ok(passed)
            } else {
                Err(Cause::BadSlot)
            }
        }
        (Some(_), None) => Err(Cause::BadSlot),
        (None, _) => Err(Cause::BadSlot),
    }
}
