//! Values and their types.

ghost use Rattle.std.specs.Prelude.{◌≡◌, ◌↔◌, IsTrue};
ghost use Rattle.iltypes.specs.Slots.{is_of};
ghost use Rattle.iltypes.specs.Values.{IsOf};

use crate::range::Range;
use std::fmt;

/// The type of a variable (IEC 61131-3, 2.3.1, with intervals for all integer types).
#[derive(Clone, Copy, PartialEq, Eq, Debug)]
pub enum IlType {
    /// Truth values.
    Bool,
    /// The whole numbers of an interval; TIME is the interval of its milliseconds.
    Int(Range),
}

/// A value of a variable or of the current result.
#[derive(Clone, Copy, PartialEq, Eq, Hash, Debug)]
pub enum Value {
    Bool(bool),
    /// A whole number; a TIME counts milliseconds.
    Int(i64),
}

impl IlType {
    /// Whether `value` is one of the type's values.
    #[tactic(auto, using(crate::proofs::TypeTests::test_is))]
    pub fn holds(self, value: Value) -> bool
        ensures lies { IsTrue result ↔ IsOf value self }
        ensures test { result ≡ is_of self value }
    {
        match (self, value) {
            (IlType::Bool, Value::Bool(_)) => true,
            (IlType::Int(range), Value::Int(number)) => range.contains(number),
            _ => false,
        }
    }
}

/// FALSE, which fills the unused places of a collection of fixed capacity.
impl Default for Value {
    ghost use Rattle.std.specs.Prelude.{◌≡◌, false};
    ghost use Rattle.iltypes.specs.declared.value.Value.TheVariants.{Bool};

    ghost is_default = { λ value. value ≡ Bool false };

    fn default() -> Value {
        Value::Bool(false)
    }
}

impl fmt::Display for Value {
    ghost use Rattle.std.specs.Prelude.{Some};
    ghost use Rattle.iltypes.specs.Printed.{printed};

    ghost output = { λ value. Some (printed value) };

    fn fmt<W: fmt::Write>(&self, f: &mut fmt::Formatter<W>) -> fmt::Result {
        match self {
            Value::Bool(true) => write!(f, "TRUE"),
            Value::Bool(false) => write!(f, "FALSE"),
            Value::Int(number) => write!(f, "{number}"),
        }
    }
}
