//! What is known of values where two ways meet.

ghost use Rattle.std.specs.Prelude.{◌≡◌, ◌↔◌, length, IfOk, IfSome, IsNone, IsTrue, MatchOption};
ghost use Rattle.std.specs.List.{AllZip};
ghost use Rattle.ilverify.specs.Joins.{AreJoins, IsHeld, IsJoin};
ghost use Rattle.ilverify.specs.JoinSteps.{AreWithin};

use crate::known::Known;
use std::alloc::{AllocError, Global};

impl Known {
    /// What is known where two ways meet: the least that holds what each knows, or `None` where
    /// nothing holds both, since the kinds differ.
    pub fn join(self, other: Known) -> Option<Known>
        ensures none { IsNone result ↔ ¬ IsHeld self other }
        ensures least { IfSome result (IsJoin self other) }
    {
        match (self, other) {
            (Known::Bool, Known::Bool) => Some(Known::Bool),
            (Known::Int(one), Known::Int(other)) => Some(Known::Int(one.hull(other))),
            (Known::Bool, Known::Int(_)) => None,
            (Known::Int(_), Known::Bool) => None,
        }
    }
}

/// Whether each of the first says no less than that of the second at its place.
pub(crate) fn are_within(knowns: &[Known], wider: &[Known]) -> bool
    requires { length knowns.now ≡ length wider.now }
    ensures { IsTrue result ↔ AreWithin knowns.now wider.now }
{
    for i in 0..knowns.len() {
        if !knowns[i].within(wider[i]) {
            return false;
        }
    }
    true
}

/// What is known of each where two ways meet, of as many on either; `None` where nothing holds both
/// of some.
pub(crate) fn joins(
    alloc: Global,
    ones: &[Known],
    others: &[Known],
) -> Result<Option<Vec<Known>>, AllocError>
    requires { length ones.now ≡ length others.now }
    ensures { IfOk result (λ made. MatchOption made
        (¬ AllZip IsHeld ones.now others.now)
        (λ v. AreJoins ones.now others.now v.items)) }
{
    let mut made = Vec::with_capacity(alloc, ones.len())?;
    for i in 0..ones.len() {
        let Some(known) = ones[i].join(others[i]) else {
            return Ok(None);
        };
        made.push(known)?;
    }
    Ok(Some(made))
}
