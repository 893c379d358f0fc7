//! Conditions of jumps, returns and calls.

ghost use Rattle.std.specs.Prelude.{◌≡◌, IsSome, Some};
ghost use Rattle.iltypes.specs.Conditions.{holds};

use crate::Value;

/// When a jump, a return or a call is carried out: the modifiers C and CN (IEC 61131-3, 3.2.2).
#[derive(Clone, Copy, PartialEq, Eq)]
pub enum Condition {
    /// JMP, RET, CAL.
    Always,
    /// JMPC, RETC, CALC: where the current result is TRUE.
    IfTrue,
    /// JMPCN, RETCN, CALCN: where the current result is FALSE.
    IfFalse,
}

impl Condition {
    /// Whether the condition is met at this current result, of which C and CN need a truth value.
    #[inline(always)]
    pub fn is_met(self, current: Value) -> bool
        requires { IsSome (holds self (Some current)) }
        ensures { holds self (Some current) ≡ Some result }
    {
        match (self, current) {
            (Condition::Always, _) => true,
            (Condition::IfTrue, Value::Bool(truth)) => truth,
            (Condition::IfFalse, Value::Bool(truth)) => !truth,
            _ => unreachable!(),
        }
    }
}
