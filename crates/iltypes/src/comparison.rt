//! Operators that compare.

ghost use Rattle.std.specs.Prelude.{◌≡◌};
ghost use Rattle.iltypes.specs.Comparisons.{compares, turned};
ghost use Rattle.iltypes.specs.Comparisons.{HasOutcome, HasOppositeOutcome};
ghost use Rattle.iltypes.specs.Comparisons.{ComparesTurned, IsTurnedBack};
ghost use Rattle.iltypes.specs.declared.operator.Operator.{Operator};

use crate::operator::Operator;

impl Operator {
    /// Whether the operator is a comparison: GT, GE, EQ, NE, LE, LT (IEC 61131-3, 2.5.1.5.4).
    pub fn compares(self) -> bool
        ensures { result ≡ compares self }
    {
        matches!(
            self,
            Operator::Gt | Operator::Ge | Operator::Eq | Operator::Ne | Operator::Le | Operator::Lt
        )
    }

    /// Of a comparison the one that holds of two numbers where the first does not; any other
    /// operator as it is.
    pub fn opposite(self) -> Operator
        ensures { result ≡ turned self }
    {
        match self {
            Operator::Gt => Operator::Le,
            Operator::Ge => Operator::Lt,
            Operator::Eq => Operator::Ne,
            Operator::Ne => Operator::Eq,
            Operator::Le => Operator::Gt,
            Operator::Lt => Operator::Ge,
            operator => operator,
        }
    }
}

/// A comparison gives a truth value of any two numbers, and the turned one gives the opposite.
pub fn turning_takes_the_opposite()
    ensures outcome { (operator : Operator) → HasOutcome operator }
    ensures opposite { (operator : Operator) → HasOppositeOutcome operator }
    ensures compares { (operator : Operator) → ComparesTurned operator }
    ensures back { (operator : Operator) → IsTurnedBack operator }
{}
