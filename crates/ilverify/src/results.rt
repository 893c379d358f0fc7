//! What is known after an operator.

ghost use Rattle.std.specs.Prelude.{◌≡◌, ◌↔◌, IfOk, Err};

use crate::cause::Cause;
use crate::known::Known;
use iltypes::{Operator, Range};

impl Known {
    ghost use Rattle.ilverify.specs.declared.cause.Cause.{Cause};
    ghost use Rattle.ilverify.specs.Causes.{IsLeastCause};
    ghost use Rattle.ilverify.specs.Results.{IsAfter, Arises};
    ghost use Rattle.ilverify.specs.ResultSteps.{IsVerdict, verdict};

    /// What is known of `left OP right` (IEC 61131-3, 3.2.2 and 2.5.1.5): the least that holds all
    /// results, for MOD the profile's range. Else the least cause that arises.
    pub fn after(operator: Operator, left: Known, right: Known) -> Result<Known, Cause>
        ensures known { IfOk result (IsAfter operator left right) }
        ensures refused { (cause : Cause) → (result ≡ Err cause)
            ↔ IsLeastCause (Arises operator left right) cause }
    {
        match (left, right) {
            (Known::Bool, Known::Bool) => Known::after_truths(operator),
            (Known::Int(left), Known::Int(right)) => Known::after_numbers(operator, left, right),
            (Known::Bool, Known::Int(_)) => Err(Cause::WrongType),
            (Known::Int(_), Known::Bool) => Err(Cause::WrongType),
        }
    }

    /// What is known after an operator on two truth values.
    fn after_truths(operator: Operator) -> Result<Known, Cause>
        ensures { IsVerdict operator Known.Bool Known.Bool result }
    {
        match operator {
            Operator::And { .. }
            | Operator::Or { .. }
            | Operator::Xor { .. }
            | Operator::Eq
            | Operator::Ne => Ok(Known::Bool),
            _ => Err(Cause::WrongType),
        }
    }

    /// What is known after an operator on two numbers.
    fn after_numbers(operator: Operator, left: Range, right: Range) -> Result<Known, Cause>
        ensures { IsVerdict operator (Known.Int left) (Known.Int right) result }
    {
        match operator {
            Operator::And { .. } | Operator::Or { .. } | Operator::Xor { .. } => {
                Err(Cause::WrongType)
            }
            Operator::Add => Known::fitting(left.add(right)),
            Operator::Sub => Known::fitting(left.sub(right)),
            Operator::Mul => Known::fitting(left.mul(right)),
            Operator::Div => Known::after_div(left, right),
            Operator::Mod => Known::after_mod(left, right),
            Operator::Min => Ok(Known::Int(left.min(right))),
            Operator::Max => Ok(Known::Int(left.max(right))),
            Operator::Gt
            | Operator::Ge
            | Operator::Eq
            | Operator::Ne
            | Operator::Le
            | Operator::Lt => Ok(Known::Bool),
        }
    }

    /// The range, or too big where there is none.
    pub(crate) fn fitting(range: Option<Range>) -> Result<Known, Cause>
        ensures { result ≡ verdict range }
    {
        match range {
            Some(range) => Ok(Known::Int(range)),
            None => Err(Cause::TooBig),
        }
    }

    /// What is known after DIV.
    fn after_div(left: Range, right: Range) -> Result<Known, Cause>
        ensures { IsVerdict Operator.Div (Known.Int left) (Known.Int right) result }
    {
        if right.contains(0) {
            return Err(Cause::MayBeZero);
        }
        Known::fitting(left.div(right))
    }

    /// What is known after MOD.
    fn after_mod(left: Range, right: Range) -> Result<Known, Cause>
        ensures { IsVerdict Operator.Mod (Known.Int left) (Known.Int right) result }
    {
        match left.modulo(right) {
            Some(range) => Ok(Known::Int(range)),
            None => Err(Cause::MayBeZero),
        }
    }
}
