//! Functions of the current result alone, and the types that conversions name.

ghost use Rattle.std.specs.Prelude.{◌≡◌, ◌↔◌, IsTrue, IsSome, Some};
ghost use Rattle.iltypes.specs.Functions.{value_of_function, modified, least_of, greatest_of};

use crate::{Range, Value};

/// The type that a conversion names (IEC 61131-3, 2.3.1).
#[derive(Clone, Copy)]
pub enum IntegerType {
    Sint,
    Int,
    Dint,
    Usint,
    Uint,
    Udint,
}

impl IntegerType {
    /// The whole numbers of the type.
    pub fn range(self) -> Range
        ensures low { result.lo ≡ least_of self }
        ensures high { result.hi ≡ greatest_of self }
    {
        match self {
            IntegerType::Sint => Range { lo: -128, hi: 127 },
            IntegerType::Int => Range {
                lo: -32_768,
                hi: 32_767,
            },
            IntegerType::Dint => Range {
                lo: -2_147_483_648,
                hi: 2_147_483_647,
            },
            IntegerType::Usint => Range { lo: 0, hi: 255 },
            IntegerType::Uint => Range { lo: 0, hi: 65_535 },
            IntegerType::Udint => Range {
                lo: 0,
                hi: 4_294_967_295,
            },
        }
    }
}

/// What makes a result of the current result alone: NOT (IEC 61131-3, 3.2.2), ABS and the
/// conversions (2.5.1.5).
#[derive(Clone, Copy)]
pub enum Function {
    Not,
    Abs,
    /// `X_TO_Y`, which keeps a number that the type Y has.
    Convert(IntegerType),
}

impl Function {
    /// What the function gives of `value`, where that is defined.
    #[inline(always)]
    pub fn apply(self, value: Value) -> Value
        requires { IsSome (value_of_function self value) }
        ensures { value_of_function self value ≡ Some result }
    {
        match (self, value) {
            (Function::Not, Value::Bool(truth)) => Value::Bool(!truth),
            (Function::Abs, Value::Int(number)) => Value::Int(number.abs()),
            (Function::Convert(_), value) => value,
            _ => unreachable!(),
        }
    }

    /// Whether the function has a value of `value`: one of its kind, and a result that fits.
    #[tactic(auto, using(crate::proofs::Numbers::magnitude_checked, crate::proofs::Numbers::conversion_checked))]
    pub fn has_value(self, value: Value) -> bool
        ensures { IsTrue result ↔ IsSome (value_of_function self value) }
    {
        match (self, value) {
            (Function::Not, Value::Bool(_)) => true,
            (Function::Abs, Value::Int(number)) => number.checked_abs().is_some(),
            (Function::Convert(target), Value::Int(number)) => target.range().contains(number),
            _ => false,
        }
    }

    /// What the function gives of `value`, or `None` where it gives nothing.
    pub fn try_apply(self, value: Value) -> Option<Value>
        ensures { result ≡ value_of_function self value }
    {
        if self.has_value(value) {
            Some(self.apply(value))
        } else {
            None
        }
    }
}

/// The value that LDN and STN take: under the modifier N a truth value's opposite, and without it
/// `value` itself.
pub fn modify(negated: bool, value: Value) -> Value
    requires { IsSome (modified negated value) }
    ensures { modified negated value ≡ Some result }
{
    if negated {
        Function::Not.apply(value)
    } else {
        value
    }
}
