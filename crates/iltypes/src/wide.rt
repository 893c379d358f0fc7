//! Numbers of 128 bits, which hold what two numbers of 64 bits make.

ghost use Rattle.std.specs.Prelude.{◌≡◌, ◌≢◌, pos, neg_ℤ, ◌*ℤ◌, int_div};
ghost use Rattle.std.specs.Int.{int_max};
ghost use Rattle.iltypes.specs.RangeSteps.{least_of_four, greatest_of_four};

/// The least of four numbers.
pub(crate) fn least_of(a: i128, b: i128, c: i128, d: i128) -> i128
    ensures { result ≡ least_of_four a b c d }
{
    a.min(b).min(c.min(d))
}

/// The greatest of four numbers.
pub(crate) fn greatest_of(a: i128, b: i128, c: i128, d: i128) -> i128
    ensures { result ≡ greatest_of_four a b c d }
{
    a.max(b).max(c.max(d))
}

/// The product, which has 128 bits.
pub(crate) fn product(x: i64, y: i64) -> i128
    ensures { result ≡ x *ℤ y }
{
    x as i128 * y as i128
}

/// The quotient, rounded toward 0: of -2^63 and -1 it has 65 bits.
pub(crate) fn quotient(x: i64, y: i64) -> i128
    requires { y ≢ pos 0 }
    ensures { result ≡ int_div x y }
{
    x as i128 / y as i128
}

/// The least magnitude of the numbers from `low` to `high`.
pub(crate) fn nearest(low: i64, high: i64) -> i128
    ensures { result ≡ int_max (int_max low (pos 0)) (neg_ℤ high) }
{
    let (low, high) = (low as i128, high as i128);
    low.max(0).max(-high)
}

/// The greatest magnitude of the numbers from `low` to `high`.
pub(crate) fn furthest(low: i64, high: i64) -> i128
    ensures { result ≡ int_max high (neg_ℤ low) }
{
    let (low, high) = (low as i128, high as i128);
    high.max(-low)
}
