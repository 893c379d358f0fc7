//! What is known on the ways from a jump.

ghost use Rattle.std.specs.Prelude.{◌≡◌, MatchResult, slice_get};
ghost use Rattle.std.specs.Option.{option_map};
ghost use Rattle.ilcode.specs.Listings.{Listing};
ghost use Rattle.ilverify.specs.Causes.{IsLeastCause};
ghost use Rattle.ilverify.specs.Changes.{changed, ways_of};
ghost use Rattle.ilverify.specs.Refusals.{ArisesAtCondition, ArisesAtJump};
ghost use Rattle.ilverify.specs.Rules.{IsTested, IsRefined, AreJumped};
ghost use Rattle.ilverify.specs.WordSteps.{NoneArises};

use crate::cause::Cause;
use crate::change::{Change, Changes};
use crate::comparison::passing;
use crate::entry::Entry;
use crate::known::Known;
use crate::mark::ResultMark;
use iltypes::{Condition, Operator};

/// Whether a jump with this condition may test the current result (IEC 61131-3, 3.2.2: the
/// modifiers C and CN), which has to be a truth value.
fn check_condition(condition: Condition, current: Option<Known>) -> Result<(), Cause>
    ensures { MatchResult result
        (λ _. NoneArises (ArisesAtCondition condition current))
        (IsLeastCause (ArisesAtCondition condition current)) }
{
    match (condition, current) {
        (Condition::Always, _) => Ok(()),
        (_, Some(Known::Bool)) => Ok(()),
        (_, Some(Known::Int(_))) => Err(Cause::WrongType),
        (_, None) => Err(Cause::NoResult),
    }
}

/// Whether a jump may stand where this is known of the current result, by whether its target is
/// lawful.
pub(crate) fn check_jump(
    condition: Condition,
    lawful: bool,
    current: Option<Known>,
) -> Result<(), Cause>
    ensures { MatchResult result
        (λ _. NoneArises (ArisesAtJump condition lawful current))
        (IsLeastCause (ArisesAtJump condition lawful current)) }
{
    check_condition(condition, current)?;
    if lawful { Ok(()) } else { Err(Cause::BadJump) }
}

/// What changes where the slot's number has this outcome in the comparison with a limit; `None`
/// where no number has.
fn test(
    entry: &Entry,
    slot: usize,
    comparison: Operator,
    limit: i64,
    outcome: bool,
) -> Option<Change>
    ensures { (code : Listing) → IsTested entry.now slot comparison outcome limit
        (slice_get entry.now.slots slot) (option_map (changed code entry.now) result) }
{
    match entry.slots.get(slot) {
        Some(Known::Int(range)) => match passing(range, comparison, limit, outcome) {
            Some(kept) => Some(Change::Write(slot, Known::Int(kept))),
            None => None,
        },
        Some(Known::Bool) => Some(Change::Keep),
        None => Some(Change::Keep),
    }
}

/// What changes where the current result has this outcome, by its mark; `None` where it cannot.
fn refine(entry: &Entry, outcome: bool) -> Option<Change>
    ensures { (code : Listing) → IsRefined entry.now outcome entry.now.mark
        (option_map (changed code entry.now) result) }
{
    match entry.mark {
        Some(
            ResultMark::Test {
                slot,
                comparison,
                limit,
            },
        ) => test(entry, slot, comparison, limit, outcome),
        Some(ResultMark::Copy(_)) => Some(Change::Keep),
        None => Some(Change::Keep),
    }
}

/// What a jump changes on each way.
pub(crate) fn jump(entry: &Entry, condition: Condition) -> Changes
    ensures { (code : Listing) → AreJumped condition entry.now (ways_of code entry.now result) }
{
    match condition {
        Condition::Always => Changes {
            next: None,
            target: Some(Change::Keep),
        },
        Condition::IfTrue => Changes {
            next: refine(entry, false),
            target: refine(entry, true),
        },
        Condition::IfFalse => Changes {
            next: refine(entry, true),
            target: refine(entry, false),
        },
    }
}
