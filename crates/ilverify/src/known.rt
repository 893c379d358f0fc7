//! What is known of a value.

ghost use Rattle.std.specs.Prelude.{◌≡◌, ◌↔◌, IsOk, IsTrue, Err};

use crate::cause::Cause;
use iltypes::{IlType, Range, Value};

/// What is known of a value before the program runs.
#[derive(Clone, Copy, PartialEq, Eq)]
pub enum Known {
    /// It is a truth value.
    Bool,
    /// It is a whole number of the range.
    Int(Range),
}

impl Known {
    ghost use Rattle.ilverify.specs.declared.cause.Cause.{Cause};
    ghost use Rattle.iltypes.specs.declared.value.Value.{Value};
    ghost use Rattle.iltypes.specs.Values.{IsOf};
    ghost use Rattle.ilverify.specs.Knowns.{IsKnown, IsKnownWithin, known_of_type, known_of_value};
    ghost use Rattle.ilverify.specs.Knowns.{ArisesAtStore};

    /// What is known of a variable's value at first: that it is of its type.
    pub fn of(declared: IlType) -> Known
        ensures value { result ≡ known_of_type declared }
        ensures exact { (value : Value) → IsKnown value result ↔ IsOf value declared }
    {
        match declared {
            IlType::Bool => Known::Bool,
            IlType::Int(range) => Known::Int(range),
        }
    }

    /// Whether this says just that a value is of the type.
    pub(crate) fn says(self, declared: IlType) -> bool
        ensures { IsTrue result ↔ (self ≡ known_of_type declared) }
    {
        match self {
            Known::Bool => declared == IlType::Bool,
            Known::Int(range) => declared == IlType::Int(range),
        }
    }

    /// What is known of a constant: which value it is.
    pub fn of_value(constant: Value) -> Known
        ensures { result ≡ known_of_value constant }
    {
        match constant {
            Value::Bool(_) => Known::Bool,
            Value::Int(number) => Known::Int(Range {
                lo: number,
                hi: number,
            }),
        }
    }

    /// Whether a variable of this type may take the value (profile): each value that it may have is
    /// of the type. Else the kinds differ, or the range is not within the type's.
    pub fn check_store(self, declared: IlType) -> Result<(), Cause>
        ensures ok { IsOk result ↔ ((value : Value) → IsKnown value self → IsOf value declared) }
        ensures refused { (c : Cause) → (result ≡ Err c) ↔ ArisesAtStore self declared c }
    {
        match (self, declared) {
            (Known::Bool, IlType::Bool) => Ok(()),
            (Known::Int(found), IlType::Int(allowed)) => {
                if found.within(allowed) {
                    Ok(())
                } else {
                    Err(Cause::OutOfRange { found, allowed })
                }
            }
            (Known::Bool, IlType::Int(_)) => Err(Cause::WrongType),
            (Known::Int(_), IlType::Bool) => Err(Cause::WrongType),
        }
    }

    /// Whether this says no less than the other.
    pub fn within(self, wider: Known) -> bool
        ensures { IsTrue result ↔ IsKnownWithin self wider }
    {
        match (self, wider) {
            (Known::Bool, Known::Bool) => true,
            (Known::Int(inner), Known::Int(outer)) => inner.within(outer),
            (Known::Bool, Known::Int(_)) => false,
            (Known::Int(_), Known::Bool) => false,
        }
    }
}
