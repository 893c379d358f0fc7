//! Operators on the current result and an operand.

ghost use Rattle.std.specs.Prelude.{◌≡◌, ◌↔◌, IsTrue, IsSome, Some};
ghost use Rattle.iltypes.specs.Operators.{value_of_operator, modulo, may_defer};

use crate::{Value, opposite_if};

/// An operator, which makes `result OP operand` of the current result (IEC 61131-3, 3.2.2, and the
/// functions MIN and MAX of 2.5.1.5). `negated` is the modifier N: the operator takes the operand's
/// opposite.
#[derive(Clone, Copy, PartialEq, Eq)]
pub enum Operator {
    /// AND and `&`, ANDN and `&N`.
    And { negated: bool },
    /// OR, ORN.
    Or { negated: bool },
    /// XOR, XORN.
    Xor { negated: bool },
    Add,
    Sub,
    Mul,
    /// DIV, which rounds toward zero.
    Div,
    /// MOD, what DIV leaves: it has the sign of the left number.
    Mod,
    Gt,
    Ge,
    /// EQ, of two values of one kind.
    Eq,
    /// NE, of two values of one kind.
    Ne,
    Le,
    Lt,
    Min,
    Max,
}

impl Operator {
    /// `left OP right`, which has a value.
    #[inline(always)]
    pub fn apply(self, left: Value, right: Value) -> Value
        requires { IsSome (value_of_operator self left right) }
        ensures { value_of_operator self left right ≡ Some result }
    {
        match (self, left, right) {
            (Operator::And { negated }, Value::Bool(left), Value::Bool(right)) => {
                Value::Bool(left & opposite_if(negated, right))
            }
            (Operator::Or { negated }, Value::Bool(left), Value::Bool(right)) => {
                Value::Bool(left | opposite_if(negated, right))
            }
            (Operator::Xor { negated }, Value::Bool(left), Value::Bool(right)) => {
                Value::Bool(left ^ opposite_if(negated, right))
            }
            (Operator::Eq, Value::Bool(left), Value::Bool(right)) => Value::Bool(left == right),
            (Operator::Ne, Value::Bool(left), Value::Bool(right)) => Value::Bool(left != right),
            (Operator::Add, Value::Int(left), Value::Int(right)) => Value::Int(left + right),
            (Operator::Sub, Value::Int(left), Value::Int(right)) => Value::Int(left - right),
            (Operator::Mul, Value::Int(left), Value::Int(right)) => Value::Int(left * right),
            (Operator::Div, Value::Int(left), Value::Int(right)) => Value::Int(left / right),
            (Operator::Mod, Value::Int(left), Value::Int(right)) => {
                Value::Int(rest(left, right))
            }
            (Operator::Gt, Value::Int(left), Value::Int(right)) => Value::Bool(left > right),
            (Operator::Ge, Value::Int(left), Value::Int(right)) => Value::Bool(left >= right),
            (Operator::Eq, Value::Int(left), Value::Int(right)) => Value::Bool(left == right),
            (Operator::Ne, Value::Int(left), Value::Int(right)) => Value::Bool(left != right),
            (Operator::Le, Value::Int(left), Value::Int(right)) => Value::Bool(left <= right),
            (Operator::Lt, Value::Int(left), Value::Int(right)) => Value::Bool(left < right),
            (Operator::Min, Value::Int(left), Value::Int(right)) => Value::Int(left.min(right)),
            (Operator::Max, Value::Int(left), Value::Int(right)) => Value::Int(left.max(right)),
            _ => unreachable!(),
        }
    }

    /// Whether the operator may stand before a parenthesis (IEC 61131-3, 3.2.2): MIN and MAX, which
    /// are functions, may not.
    pub fn may_defer(self) -> bool
        ensures { result ≡ may_defer self }
    {
        !matches!(self, Operator::Min | Operator::Max)
    }

    /// Whether `left OP right` has a value: values of its kind, no divisor 0, a result that fits.
    #[tactic(auto, using(crate::proofs::Numbers::sum_checked, crate::proofs::Numbers::quotient_checked, crate::proofs::Numbers::has_remainder))]
    pub fn has_value(self, left: Value, right: Value) -> bool
        ensures { IsTrue result ↔ IsSome (value_of_operator self left right) }
    {
        match (self, left, right) {
            (
                Operator::And { .. }
                | Operator::Or { .. }
                | Operator::Xor { .. }
                | Operator::Eq
                | Operator::Ne,
                Value::Bool(_),
                Value::Bool(_),
            ) => true,
            (Operator::And { .. } | Operator::Or { .. } | Operator::Xor { .. }, _, _) => false,
            (Operator::Add, Value::Int(left), Value::Int(right)) => {
                left.checked_add(right).is_some()
            }
            (Operator::Sub, Value::Int(left), Value::Int(right)) => {
                left.checked_sub(right).is_some()
            }
            (Operator::Mul, Value::Int(left), Value::Int(right)) => {
                left.checked_mul(right).is_some()
            }
            (Operator::Div, Value::Int(left), Value::Int(right)) => {
                left.checked_div(right).is_some()
            }
            (Operator::Mod, Value::Int(_), Value::Int(right)) => right != 0,
            (_, Value::Int(_), Value::Int(_)) => true,
            _ => false,
        }
    }

    /// `left OP right`, or `None` where that has no value.
    pub fn try_apply(self, left: Value, right: Value) -> Option<Value>
        ensures { result ≡ value_of_operator self left right }
    {
        if self.has_value(left, right) {
            Some(self.apply(left, right))
        } else {
            None
        }
    }
}

/// What DIV leaves of `left`, by a divisor that is not 0; of the least number by -1 it is 0, though
/// the quotient does not fit.
#[tactic(auto, using(crate::proofs::Numbers::rest_given))]
fn rest(left: i64, right: i64) -> i64
    requires { IsSome (modulo left right) }
    ensures { modulo left right ≡ Some (Value.Int result) }
{
    left.wrapping_rem(right)
}
