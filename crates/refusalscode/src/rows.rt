//! Cells and rows of values.

ghost use Rattle.std.specs.Prelude.{◌≡◌, [], ◌∷◌, IsSomeAnd, false, pos, slice_get, true};
ghost use Rattle.ilcells.specs.Cells.{is_number_of};

use ilcells::{Cell, ValueRow};
use iltypes::{Operator, Value};

/// `sets_a_bit_in_the_neighbouring_word`: a truth value was set in another word of its bank.
/// `writes_the_other_bank`: a number was written among the truth values.
pub fn value_that_is_set_is_read(row: &mut ValueRow, slot: usize, value: Value) -> Value
    requires { IsSomeAnd (slice_get row.old slot)
        (λ was. is_number_of was ≡ is_number_of value) }
    ensures { result ≡ value }
{
    row.set(slot, value);
    row.get(slot)
}

/// `clears_the_bits_beside_it`: with a truth value those beside it became FALSE.
pub fn truth_beside_a_cleared_one_stays(row: &mut ValueRow) -> Value
    requires { row.old ≡ Value.Bool true ∷ Value.Bool true ∷ [] }
    ensures { result ≡ Value.Bool true }
{
    row.set(0, Value::Bool(false));
    row.get(1)
}

/// `quotient_of_exchanged_numbers`: 7 DIV 2 was 0.
pub fn quotient_is_of_the_left_by_the_right() -> Value
    ensures { result ≡ Value.Int (pos 3) }
{
    let left = Cell::of(Value::Int(7));
    left.apply(Operator::Div, Cell::of(Value::Int(2))).value()
}

/// `true_is_kept_as_two`: TRUE was kept as a number whose opposite is no FALSE.
pub fn opposite_of_true_is_false() -> Value
    ensures { result ≡ Value.Bool false }
{
    Cell::of(Value::Bool(true)).modify(true).value()
}

/// `and_not_takes_its_operand_as_it_is`: ANDN took its operand and not the opposite.
pub fn and_not_of_cells_takes_the_opposite() -> Value
    ensures { result ≡ Value.Bool false }
{
    let truth = Cell::of(Value::Bool(true));
    let operator = Operator::And { negated: true };
    truth.apply(operator, truth).value()
}
