//! What exceeds a limit, counted one part after another.

ghost use Rattle.std.specs.Prelude.{ℕ, List, ◌++◌, flat_map};
ghost use Rattle.ilsyms.specs.FunctionSteps.{IsPast, marked};

use crate::needs::Needs;

/// Where what exceeds a limit stands, or how much is left of the limit.
#[derive(Clone, Copy)]
pub(crate) enum Past {
    At(usize),
    Left(usize),
}

/// The same after some places more, of which so many may be.
pub(crate) fn past_in(left: usize, places: &[usize]) -> Past
    ensures { IsPast places.now left result }
{
    match places.get(left) {
        Some(place) => Past::At(*place),
        None => Past::Left(left - places.len()),
    }
}

/// The same after the variables of the functions that are used.
pub(crate) fn slot_past_functions(left: usize, used: &[bool], needs: &[Needs]) -> Past
    ensures { IsPast (flat_map (λ one. one.slots) (marked used.now needs.now)) left result }
{
    let mut past = Past::Left(left);
    for (is_used, one) in used.iter().zip(needs) {
        if *is_used {
            past = further(past, one.slots());
        }
    }
    past
}

/// The same after the words of the functions that are used.
pub(crate) fn word_past_functions(left: usize, used: &[bool], needs: &[Needs]) -> Past
    ensures { IsPast (flat_map (λ one. one.words) (marked used.now needs.now)) left result }
{
    let mut past = Past::Left(left);
    for (is_used, one) in used.iter().zip(needs) {
        if *is_used {
            past = further(past, one.words());
        }
    }
    past
}

/// What exceeds a limit with some places more.
pub(crate) fn further(past: Past, places: &[usize]) -> Past
    ensures { (before : List ℕ) (limit : ℕ) → IsPast before limit past
        → IsPast (before ++ places.now) limit result }
{
    match past {
        Past::At(place) => Past::At(place),
        Past::Left(left) => past_in(left, places),
    }
}
