//! Faults of jumps.

ghost use Rattle.std.specs.Prelude.{◌≡◌, ◌↔◌, Some};
ghost use Rattle.ildeclared.specs.Faults.{IsNextOf};
ghost use Rattle.ildeclared.specs.declared.fault.NameCause.{NameCause};
ghost use Rattle.ilscope.specs.Labels.{AreNumbered};
ghost use Rattle.ilscope.specs.JumpSteps.{IsCauseOfJump, IsFaultOfJump};
ghost use Rattle.ilscope.specs.UseFaults.{IsFaultOfJumps};

use crate::scope::Scope;
use ildeclared::{Found, NameCause, Names, found_where, lesser_of};
use ilsource::{Instruction, Line, Name, Symbol};

/// The next fault after `after` of a jump.
pub(crate) fn fault_of_jumps(
    scope: &Scope<'_>,
    labels: &Names<usize>,
    lines: &[Line<Symbol, Name>],
    after: Option<Found>,
) -> Option<Found>
    requires { AreNumbered scope.now.tree.text lines.now labels.now }
    ensures { IsNextOf after (IsFaultOfJumps scope.now.tree.text lines.now) result }
{
    let mut least = None;
    for (number, line) in lines.iter().enumerate() {
        least = lesser_of(least, fault_of_jump(scope, labels, number, line, after));
    }
    least
}

/// The fault of a line that jumps to an unknown label, or not forward from this number.
fn fault_of_jump(
    scope: &Scope<'_>,
    labels: &Names<usize>,
    number: usize,
    line: &Line<Symbol, Name>,
    after: Option<Found>,
) -> Option<Found>
    ensures { IsNextOf after
        (IsFaultOfJump scope.now.tree.text labels.now number line.now.instruction) result }
{
    let Some(Instruction::Jump(_, label)) = &line.instruction else {
        return None;
    };
    let cause = cause_of_jump(labels.get(scope.spelling(*label)), number)?;
    found_where(true, label.from, cause, after)
}

/// What is wrong with a jump of the line with this number, where `first` is the number of the first
/// line with its label.
fn cause_of_jump(first: Option<usize>, number: usize) -> Option<NameCause>
    ensures { (cause : NameCause) → (result ≡ Some cause) ↔ IsCauseOfJump first number cause }
{
    match first {
        None => Some(NameCause::UnknownLabel),
        Some(first) if first <= number => Some(NameCause::BackwardJump),
        Some(_) => None,
    }
}
