//! What types mean as they are written.

ghost use Rattle.std.specs.Prelude.{◌≡◌, Some};
ghost use Rattle.ildeclared.specs.DataTypes.{value_in, truth_of, number_in};

use ilsource::Constant;
use iltypes::{IlType, Range, Value};

/// A type as a variable has it (IEC 61131-3, 2.3.3.2).
#[derive(Clone, Copy)]
pub struct DataType {
    /// The values of a variable.
    pub value_type: IlType,
    /// The value that it has at first.
    pub initial: Value,
}

impl DataType {
    ghost use Rattle.std.specs.Prelude.{◌≡◌, Some};
    ghost use Rattle.ildeclared.specs.DataTypes.{truth_values, whole_numbers, with_initial};

    /// BOOL, whose variables are FALSE at first.
    pub(crate) fn truth_values() -> DataType
        ensures { result ≡ truth_values }
    {
        DataType {
            value_type: IlType::Bool,
            initial: Value::Bool(false),
        }
    }

    /// The whole numbers of a range; a variable has `first` at first.
    pub(crate) fn whole_numbers(range: Range, first: i64) -> DataType
        ensures { whole_numbers range.lo range.hi first ≡ Some result }
    {
        DataType {
            value_type: IlType::Int(range),
            initial: Value::Int(first),
        }
    }

    /// The type with the initial value that is written, if one is; `None` where the type does not
    /// have it.
    pub(crate) fn with_initial(self, initial: Option<Constant>) -> Option<DataType>
        ensures { result ≡ with_initial initial self }
    {
        let Some(constant) = initial else {
            return Some(self);
        };
        let initial = value_in(self.value_type, constant)?;
        Some(DataType { initial, ..self })
    }
}

/// What a constant means where it is given to a variable of the type, or `None` where the type does
/// not have it.
pub(crate) fn value_in(value_type: IlType, constant: Constant) -> Option<Value>
    ensures { result ≡ value_in value_type constant }
{
    match (value_type, constant) {
        (IlType::Bool, Constant::Bool(truth)) => Some(Value::Bool(truth)),
        (IlType::Bool, Constant::Number(number)) => truth_of(number),
        (IlType::Int(range), Constant::Number(number)) => number_in(range, number),
        (IlType::Int(range), Constant::Time(milliseconds)) => {
            number_in(range, milliseconds as i64)
        }
        (IlType::Bool, Constant::Time(_)) | (IlType::Int(_), Constant::Bool(_)) => None,
    }
}

/// The truth value that a number is to BOOL.
fn truth_of(number: i64) -> Option<Value>
    ensures { result ≡ truth_of number }
{
    match number {
        0 => Some(Value::Bool(false)),
        1 => Some(Value::Bool(true)),
        _ => None,
    }
}

/// The number, where it lies in the range.
fn number_in(range: Range, number: i64) -> Option<Value>
    ensures { result ≡ number_in range number }
{
    if range.contains(number) {
        Some(Value::Int(number))
    } else {
        None
    }
}
