//! Which words leave a mark of the current result.

ghost use Rattle.std.specs.Prelude.{◌≡◌};
ghost use Rattle.ilverify.specs.Marks.{mark_of_load, constant_of, mark_of_apply, mark_of_function};

use crate::known::Known;
use crate::mark::ResultMark;
use ilcode::{Code, WordOperand};
use iltypes::{Function, Operator, Value};

/// The mark after LD or LDN of an operand that leaves what is known so: LD copies the number of a
/// slot.
pub(crate) fn mark_of_load(negated: bool, operand: WordOperand, known: Known) -> Option<ResultMark>
    ensures { result ≡ mark_of_load negated operand known }
{
    match (negated, operand, known) {
        (false, WordOperand::Slot(slot), Known::Int(_)) => Some(ResultMark::Copy(usize::from(
            slot,
        ))),
        _ => None,
    }
}

/// The constant of an operand that is one, where its table has it.
pub(crate) fn constant_of(code: &Code, operand: WordOperand) -> Option<Value>
    ensures { result ≡ constant_of code.now operand }
{
    match operand {
        WordOperand::Slot(_) | WordOperand::Port { .. } => None,
        WordOperand::Constant(constant) => code.constants().get(usize::from(constant)).copied(),
    }
}

/// The mark after an operator with this constant: a comparison tests the number that was copied.
pub(crate) fn mark_of_apply(
    mark: Option<ResultMark>,
    operator: Operator,
    constant: Option<Value>,
) -> Option<ResultMark>
    ensures { result ≡ mark_of_apply mark operator constant }
{
    match (mark, constant) {
        (Some(ResultMark::Copy(slot)), Some(Value::Int(limit))) => {
            if operator.compares() {
                Some(ResultMark::Test {
                    slot,
                    comparison: operator,
                    limit,
                })
            } else {
                None
            }
        }
        _ => None,
    }
}

/// The mark after NOT, ABS or a conversion: NOT turns a test.
pub(crate) fn mark_of_function(mark: Option<ResultMark>, function: Function) -> Option<ResultMark>
    ensures { result ≡ mark_of_function mark function }
{
    match (mark, function) {
        (
            Some(
                ResultMark::Test {
                    slot,
                    comparison,
                    limit,
                },
            ),
            Function::Not,
        ) => Some(ResultMark::Test {
            slot,
            comparison: comparison.opposite(),
            limit,
        }),
        _ => None,
    }
}
