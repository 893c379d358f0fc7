//! The numbers of a range that pass a comparison.

ghost use Rattle.std.specs.Prelude.{◌≡◌, ◌↔◌, ℤ, ◌≤ℤ◌, ◌<ℤ◌, IsNone, IfSome, true};
ghost use Rattle.iltypes.specs.Arithmetic.{IsLeast};
ghost use Rattle.ilverify.specs.Comparisons.{IsPassing};
ghost use Rattle.ilverify.specs.ComparisonSteps.{IsLeastOf, IsLeastTested};

use iltypes::{Operator, Range};

/// The least range of the numbers of `range` for which `number OP limit` has this outcome
/// (IEC 61131-3, 3.2.2), or `None` where there is no such number, as for an operator that does not
/// compare. EQ keeps the limit alone, and NE takes it off an end of the range.
pub fn passing(range: Range, comparison: Operator, limit: i64, outcome: bool) -> Option<Range>
    ensures none { IsNone result ↔ ((z : ℤ) → ¬ IsPassing comparison outcome limit range z) }
    ensures least { IfSome result (IsLeast (IsPassing comparison outcome limit range)) }
{
    pass(range, comparison, limit, outcome)
}

/// The numbers that pass: those of which the comparison holds, or the turned one.
fn pass(range: Range, comparison: Operator, limit: i64, outcome: bool) -> Option<Range>
    ensures { IsLeastOf (IsPassing comparison outcome limit range) result }
{
    if outcome {
        keep(range, comparison, limit)
    } else {
        keep(range, comparison.opposite(), limit)
    }
}

/// The numbers of which the comparison holds.
fn keep(range: Range, comparison: Operator, limit: i64) -> Option<Range>
    ensures { IsLeastOf (IsPassing comparison true limit range) result }
{
    match comparison {
        Operator::Gt => above(range, limit),
        Operator::Ge => from(range, limit),
        Operator::Eq => only(range, limit),
        Operator::Ne => without_end(range, limit),
        Operator::Le => up_to(range, limit),
        Operator::Lt => below(range, limit),
        Operator::And { .. }
        | Operator::Or { .. }
        | Operator::Xor { .. }
        | Operator::Add
        | Operator::Sub
        | Operator::Mul
        | Operator::Div
        | Operator::Mod
        | Operator::Min
        | Operator::Max => None,
    }
}

/// The numbers below a limit.
fn below(range: Range, limit: i64) -> Option<Range>
    ensures { IsLeastTested (λ z. z <ℤ limit) range result }
{
    if limit <= range.lo {
        return None;
    }
    Some(Range {
        lo: range.lo,
        hi: range.hi.min(limit - 1),
    })
}

/// The numbers from a limit on.
fn from(range: Range, limit: i64) -> Option<Range>
    ensures { IsLeastTested (λ z. limit ≤ℤ z) range result }
{
    if range.hi < limit {
        return None;
    }
    Some(Range {
        lo: range.lo.max(limit),
        hi: range.hi,
    })
}

/// The numbers above a limit.
fn above(range: Range, limit: i64) -> Option<Range>
    ensures { IsLeastTested (λ z. limit <ℤ z) range result }
{
    if range.hi <= limit {
        return None;
    }
    Some(Range {
        lo: range.lo.max(limit + 1),
        hi: range.hi,
    })
}

/// The numbers up to a limit.
fn up_to(range: Range, limit: i64) -> Option<Range>
    ensures { IsLeastTested (λ z. z ≤ℤ limit) range result }
{
    if limit < range.lo {
        return None;
    }
    Some(Range {
        lo: range.lo,
        hi: range.hi.min(limit),
    })
}

/// The limit alone, where the range holds it.
fn only(range: Range, limit: i64) -> Option<Range>
    ensures { IsLeastTested (λ z. z ≡ limit) range result }
{
    if limit < range.lo || range.hi < limit {
        return None;
    }
    Some(Range {
        lo: limit,
        hi: limit,
    })
}

/// The numbers but the limit, which matters where it is an end of the range.
fn without_end(range: Range, limit: i64) -> Option<Range>
    ensures { IsLeastTested (λ z. ¬ (z ≡ limit)) range result }
{
    if limit == range.lo {
        return above(range, limit);
    }
    if limit == range.hi {
        return below(range, limit);
    }
    Some(range)
}
