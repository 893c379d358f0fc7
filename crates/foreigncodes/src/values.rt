//! Values in the types of slots.

ghost use Rattle.std.specs.Prelude.{IsTrue};
ghost use Rattle.iltypes.specs.Values.{AreOf};

use ilcells::ValueRow;
use iltypes::{IlType, Range, Value};
use std::alloc::{AllocError, Global};

/// Where in its type a value is.
#[derive(Clone, Copy)]
pub(crate) enum Choice {
    /// FALSE, or the least number.
    Least,
    /// TRUE, or the greatest number.
    Greatest,
    /// So far above the least number, where the type goes on as far.
    Above(u32),
}

/// A value of each type.
pub(crate) fn values_of(
    alloc: Global,
    types: &[IlType],
    choice: Choice,
) -> Result<Vec<Value>, AllocError> {
    let mut values = Vec::new(alloc);
    for value_type in types {
        values.push(match value_type {
            IlType::Bool => Value::Bool(truth_of(choice)),
            IlType::Int(range) => Value::Int(number_in(*range, choice)),
        })?;
    }
    Ok(values)
}

/// A truth value.
fn truth_of(choice: Choice) -> bool {
    match choice {
        Choice::Least => false,
        Choice::Greatest => true,
        Choice::Above(number) => number % 2 == 1,
    }
}

/// A number of the range.
fn number_in(range: Range, choice: Choice) -> i64 {
    match choice {
        Choice::Least => range.lo,
        Choice::Greatest => range.hi,
        Choice::Above(number) => {
            let drawn = range.lo.saturating_add(i64::from(number % 256));
            if range.contains(drawn) {
                drawn
            } else {
                range.hi
            }
        }
    }
}

/// Whether each value is in its type.
pub(crate) fn are_of(values: &[Value], types: &[IlType]) -> bool
    ensures { IsTrue result → AreOf values.now types.now }
{
    match values {
        [] => types.is_empty(),
        [value, values @ ..] => match types {
            [] => false,
            [value_type, types @ ..] => value_type.holds(*value) && are_of(values, types),
        },
    }
}

/// Whether each value of the row has a type and is in it; there may be types of more.
pub(crate) fn is_row_of(row: &ValueRow, types: &[IlType]) -> bool {
    for slot in 0..row.len() {
        match types.get(slot) {
            Some(value_type) if value_type.holds(row.get(slot)) => {}
            _ => return false,
        }
    }
    true
}
