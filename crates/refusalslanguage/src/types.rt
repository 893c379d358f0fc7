//! Ranges and operators.

ghost use Rattle.std.specs.Prelude.{◌≡◌, Some, false, negsuc, pos, true};

use iltypes::{Operator, Range, Value};

/// `div_rounds_down`: the quotient of -7 and 2 was -4.
pub fn quotient_is_rounded_toward_0() -> Option<bool>
    ensures { result ≡ Some true }
{
    let left = Range { lo: -7, hi: -7 };
    let quotients = left.div(Range { lo: 2, hi: 2 })?;
    Some(quotients.contains(-3))
}

/// `quotient_rounded_down`: what DIV gave of -7 and 2 was -4.
pub fn div_rounds_toward_0() -> Value
    ensures { result ≡ Value.Int (negsuc 2) }
{
    Operator::Div.apply(Value::Int(-7), Value::Int(2))
}

/// `corner_of_the_product_left_out`: the product of the greatest numbers was not in the range.
pub fn product_of_the_greatest_is_held() -> Option<bool>
    ensures { result ≡ Some true }
{
    let left = Range { lo: 2, hi: 3 };
    let products = left.mul(Range { lo: 4, hi: 5 })?;
    Some(products.contains(15))
}

/// `range_of_mod_one_short`: what is left of a division by 5 was 3 at most.
pub fn remainder_by_5_is_4_at_most() -> Option<i64>
    ensures { result ≡ Some (pos 4) }
{
    let left = Range { lo: 0, hi: 10 };
    let remainders = left.modulo(Range { lo: 5, hi: 5 })?;
    Some(remainders.hi)
}

/// `and_takes_its_operand_as_it_is`: ANDN took its operand and not the opposite.
pub fn and_not_takes_the_opposite() -> Value
    ensures { result ≡ Value.Bool false }
{
    let operator = Operator::And { negated: true };
    operator.apply(Value::Bool(true), Value::Bool(true))
}
