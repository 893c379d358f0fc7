//! Intervals of whole numbers.

ghost use Rattle.std.specs.Prelude.{◌≤ℤ◌};

use crate::wide::{furthest, greatest_of, least_of, nearest, product, quotient};

/// The whole numbers from `lo` to `hi`, both of which it holds: never empty.
#[derive(Clone, Copy, PartialEq, Eq, Debug)]
pub struct Range {
    /// The least number.
    pub lo: i64,
    /// The greatest number, not below `lo`.
    pub hi: i64,
    ghost ordered: { lo ≤ℤ hi },
}

impl Range {
    ghost use Rattle.std.specs.Prelude.{◌≡◌, ◌↔◌, ◌⊎◌, ℤ, pos, ◌≤ℤ◌};
    ghost use Rattle.std.specs.Prelude.{IsTrue, IsSome, IsNone, IfSome};
    ghost use Rattle.iltypes.specs.Ranges.{Holds, IsWithin};
    ghost use Rattle.iltypes.specs.Arithmetic.{IsSum, IsDifference, IsProduct, IsQuotient};
    ghost use Rattle.iltypes.specs.Arithmetic.{IsRemainder, IsLesser, IsGreater, IsMagnitude};
    ghost use Rattle.iltypes.specs.Arithmetic.{IsOfEither, IsLeast, Leaves};
    ghost use Rattle.iltypes.specs.Arithmetic.{most_left, lower_remainder, upper_remainder};
    ghost use Rattle.iltypes.specs.RangeSteps.{IsRangeOf, least_of_four, greatest_of_four};

    /// The range from `lo` to `hi`, or `None` where `lo` is above `hi`.
    pub fn new(lo: i64, hi: i64) -> Option<Range>
        ensures some { IsSome result ↔ (lo ≤ℤ hi) }
        ensures limits { IfSome result (λ r. (r.lo ≡ lo) × (r.hi ≡ hi)) }
    {
        if lo <= hi {
            Some(Range { lo, hi })
        } else {
            None
        }
    }

    /// Whether `number` lies in the range.
    pub fn contains(self, number: i64) -> bool
        ensures { IsTrue result ↔ Holds self number }
    {
        self.lo <= number && number <= self.hi
    }

    /// Whether each number of this range lies in `outer`.
    pub fn within(self, outer: Range) -> bool
        ensures { IsTrue result ↔ IsWithin self outer }
    {
        outer.lo <= self.lo && self.hi <= outer.hi
    }

    /// The range from `low` to `high`, where both have 64 bits.
    fn fit(low: i128, high: i128) -> Option<Range>
        requires { low ≤ℤ high }
        ensures { IsRangeOf low high result }
    {
        if low < i64::MIN as i128 || high > i64::MAX as i128 {
            return None;
        }
        Some(Range {
            lo: low as i64,
            hi: high as i64,
        })
    }

    /// The least range of four numbers, where all have 64 bits.
    fn fit_four(a: i128, b: i128, c: i128, d: i128) -> Option<Range>
        ensures { IsRangeOf (least_of_four a b c d) (greatest_of_four a b c d) result }
    {
        Range::fit(least_of(a, b, c, d), greatest_of(a, b, c, d))
    }

    /// The least range of all sums, or `None` where a sum leaves 64 bits.
    pub fn add(self, other: Range) -> Option<Range>
        ensures none { IsNone result ↔ Leaves (IsSum self other) }
        ensures least { IfSome result (IsLeast (IsSum self other)) }
    {
        Range::fit(
            self.lo as i128 + other.lo as i128,
            self.hi as i128 + other.hi as i128,
        )
    }

    /// The least range of all differences, or `None` where a difference leaves 64 bits.
    pub fn sub(self, other: Range) -> Option<Range>
        ensures none { IsNone result ↔ Leaves (IsDifference self other) }
        ensures least { IfSome result (IsLeast (IsDifference self other)) }
    {
        Range::fit(
            self.lo as i128 - other.hi as i128,
            self.hi as i128 - other.lo as i128,
        )
    }

    /// The least range of all products, or `None` where a product leaves 64 bits.
    pub fn mul(self, other: Range) -> Option<Range>
        ensures none { IsNone result ↔ Leaves (IsProduct self other) }
        ensures least { IfSome result (IsLeast (IsProduct self other)) }
    {
        Range::fit_four(
            product(self.lo, other.lo),
            product(self.lo, other.hi),
            product(self.hi, other.lo),
            product(self.hi, other.hi),
        )
    }

    /// The least range of all quotients (IEC 61131-3, 2.5.1.5.2: rounded toward 0), or `None` where
    /// a divisor may be 0 or a quotient leaves 64 bits, as that of -2^63 and -1 does.
    pub fn div(self, other: Range) -> Option<Range>
        ensures none { IsNone result ↔ (Holds other (pos 0) ⊎ Leaves (IsQuotient self other)) }
        ensures least { IfSome result (IsLeast (IsQuotient self other)) }
    {
        if other.contains(0) {
            return None;
        }
        Range::fit_four(
            quotient(self.lo, other.lo),
            quotient(self.lo, other.hi),
            quotient(self.hi, other.lo),
            quotient(self.hi, other.hi),
        )
    }

    /// The greatest magnitude of a divisor, less 1.
    fn most_left(self) -> i64
        requires { ¬ Holds self (pos 0) }
        ensures { result ≡ pos (most_left self) }
    {
        let magnitude = self.lo.unsigned_abs().max(self.hi.unsigned_abs());
        (magnitude - 1) as i64
    }

    /// The lower limit of the range that `modulo` gives.
    fn lower_remainder(self, other: Range) -> i64
        requires { ¬ Holds other (pos 0) }
        ensures { result ≡ lower_remainder self other }
    {
        if self.lo < 0 {
            self.lo.max(-other.most_left())
        } else {
            0
        }
    }

    /// The upper limit of the range that `modulo` gives.
    fn upper_remainder(self, other: Range) -> i64
        requires { ¬ Holds other (pos 0) }
        ensures { result ≡ upper_remainder self other }
    {
        if self.hi > 0 {
            self.hi.min(other.most_left())
        } else {
            0
        }
    }

    /// A range that holds all remainders, or `None` where a divisor may be 0. It may be wider than
    /// the least: a remainder has the sign of its dividend, is no further from 0 than it, and is
    /// less far from 0 than the furthest divisor.
    pub fn modulo(self, other: Range) -> Option<Range>
        ensures none { IsNone result ↔ Holds other (pos 0) }
        ensures low { IfSome result (λ r. r.lo ≡ lower_remainder self other) }
        ensures high { IfSome result (λ r. r.hi ≡ upper_remainder self other) }
        ensures each { IfSome result (λ r. (z : ℤ) → IsRemainder self other z → Holds r z) }
    {
        if other.contains(0) {
            return None;
        }
        Some(Range {
            lo: self.lower_remainder(other),
            hi: self.upper_remainder(other),
        })
    }

    /// The least range of the lesser numbers.
    pub fn min(self, other: Range) -> Range
        ensures { IsLeast (IsLesser self other) result }
    {
        Range {
            lo: self.lo.min(other.lo),
            hi: self.hi.min(other.hi),
        }
    }

    /// The least range of the greater numbers.
    pub fn max(self, other: Range) -> Range
        ensures { IsLeast (IsGreater self other) result }
    {
        Range {
            lo: self.lo.max(other.lo),
            hi: self.hi.max(other.hi),
        }
    }

    /// The least range of all magnitudes, or `None` where that of -2^63 is among them.
    pub fn abs(self) -> Option<Range>
        ensures none { IsNone result ↔ Leaves (IsMagnitude self) }
        ensures least { IfSome result (IsLeast (IsMagnitude self)) }
    {
        Range::fit(nearest(self.lo, self.hi), furthest(self.lo, self.hi))
    }

    /// The least range that holds the numbers of both.
    pub fn hull(self, other: Range) -> Range
        ensures { IsLeast (IsOfEither self other) result }
    {
        Range {
            lo: self.lo.min(other.lo),
            hi: self.hi.max(other.hi),
        }
    }
}
