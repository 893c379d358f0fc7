//! Calls of request blocks on paths: over the programs from their first word to their last, and
//! then over the functions, of which each is called by those behind it alone.

ghost use Rattle.std.specs.Prelude.{◌≡◌, ◌<◌, ◌≤◌, ◌↔◌, length, IfOk, MatchOption, Some, None, ℕ};
ghost use Rattle.limits.specs.Limits.{most_words};
ghost use Rattle.ilcode.specs.Listings.{IsLawful, start_of, end_of};
ghost use Rattle.ilverify.specs.declared.through.Counted.TheVariants.{Requests};
ghost use Rattle.ilverify.specs.Calls.{HasGoodCalls};
ghost use Rattle.ilverify.specs.Requests.{HasFewRequests, IsMostRequests};
ghost use Rattle.ilverify.specs.Through.{AreThrough};
ghost use Rattle.ilverify.specs.RequestSteps.{raised, raised_target, raised_behind};
ghost use Rattle.ilverify.specs.RequestSteps.{raised_after, AreMost, AreAllMost, IsFirstOverfull};

use crate::calls::has_good_calls;
use crate::through::{Counted, plus, through_in, ways_through, weight};
use ilcode::{Code, Word};
use iltypes::Condition;
use limits::MOST_REQUESTS;
use std::alloc::{AllocError, Global};

/// The first place at which a path holds more calls of request blocks than a scan may make,
/// whatever the values.
pub(crate) fn first_overfull(alloc: Global, code: &Code) -> Result<Option<usize>, AllocError>
    requires { HasGoodCalls code.now }
    ensures there { IfOk result (λ found. (place : ℕ) →
        (found ≡ Some place) ↔ IsFirstOverfull code.now place) }
    ensures nowhere { IfOk result (λ found. (found ≡ None) ↔ HasFewRequests code.now) }
    ensures lawful { IsLawful code.now }
{
    let _functions = code.functions();
    let most = most_before(alloc, code)?;
    Ok(find_overfull(code, &most))
}

/// The greatest number of calls of request blocks on a path, whatever the values, or none where a
/// call of a function stands in the code that may not.
///
/// # Errors
///
/// The allocator is out of memory.
pub fn most_requests(alloc: Global, code: &Code) -> Result<Option<u32>, AllocError>
    ensures { IfOk result (λ most. MatchOption most
        (¬ HasGoodCalls code.now)
        (IsMostRequests code.now)) }
{
    let good = has_good_calls(alloc, code)?;
    if !good {
        return Ok(None);
    }
    let most = most_before(alloc, code)?;
    Ok(Some(greatest_of(code, &most)))
}

/// The greatest number on a path, by what is kept for each place.
fn greatest_of(code: &Code, most: &[Option<u32>]) -> u32
    requires good { HasGoodCalls code.now }
    requires most { AreAllMost code.now most.now }
    ensures { IsMostRequests code.now result }
{
    let mut greatest = 0;
    for place in 0..code.len() {
        if let Some(before) = most[place] {
            let requests = plus(before, weight(code, Counted::Requests, code.word(place)));
            greatest = requests.max(greatest);
        }
    }
    greatest
}

/// The first place at which there are too many, by what is kept for each.
fn find_overfull(code: &Code, most: &[Option<u32>]) -> Option<usize>
    requires good { HasGoodCalls code.now }
    requires most { AreAllMost code.now most.now }
    ensures there { (place : ℕ) → (result ≡ Some place) ↔ IsFirstOverfull code.now place }
    ensures nowhere { (result ≡ None) ↔ HasFewRequests code.now }
    ensures lawful { IsLawful code.now }
{
    for place in 0..code.len() {
        if let Some(before) = most[place] {
            // A word adds one at most.
            if before as usize >= MOST_REQUESTS {
                let requests = plus(before, weight(code, Counted::Requests, code.word(place)));
                if requests as usize > MOST_REQUESTS {
                    return Some(place);
                }
            }
        }
    }
    None
}

/// The greatest number before each word, of those on the paths that lead there, and nothing where
/// none does.
fn most_before(alloc: Global, code: &Code) -> Result<Vec<Option<u32>>, AllocError>
    requires { HasGoodCalls code.now }
    ensures { IfOk result (λ most. AreAllMost code.now most.items) }
{
    let through = ways_through(alloc, code, Counted::Requests)?;
    let mut most = vec![in alloc; None; code.len()]?;
    raise(&mut most, code.end_of(0), 0, 0);
    pass(code, &through, &mut most, 0, 0);
    for function in (0..code.functions().len()).rev() {
        pass(
            code,
            &through,
            &mut most,
            function + 1,
            code.end_of(function),
        );
    }
    Ok(most)
}

/// Passes on what is kept for the first word of a body, from word to word.
fn pass(
    code: &Code,
    through: &[Option<u32>],
    most: &mut Vec<Option<u32>>,
    body: usize,
    start: usize,
)
    requires lawful { IsLawful code.now }
    requires good { HasGoodCalls code.now }
    requires through { AreThrough code.now Requests through.now }
    requires start { start ≡ start_of code.now body }
    requires most { AreMost code.now through.now most.old.items body start }
    ensures { AreMost code.now through.now most.new.items body (end_of code.now body) }
{
    let end = code.end_of(body);
    for place in start..end {
        if let Some(before) = most[place] {
            let word = code.word(place);
            let requests = plus(before, weight(code, Counted::Requests, word));
            raise_after(code, through, most, end, place, word, requests);
        }
    }
}

/// A path with the given number of requests leads to the place, where that is one of the body's,
/// which ends there.
fn raise(most: &mut Vec<Option<u32>>, end: usize, place: usize, requests: u32)
    requires { end ≤ length most.old.items }
    ensures { most.new.items ≡ raised most.old.items end place requests }
{
    if place < end {
        let before = most[place].unwrap_or(0);
        most[place] = Some(before.max(requests));
    }
}

/// A path with the given number of requests leads to a jump's target, where that is lawful.
fn raise_target(
    code: &Code,
    most: &mut Vec<Option<u32>>,
    end: usize,
    place: usize,
    target: usize,
    requests: u32,
)
    requires { end ≤ length most.old.items }
    ensures { most.new.items ≡ raised_target code.now most.old.items end place target requests }
{
    if code.is_target(place, target) {
        raise(most, end, target, requests);
    }
}

/// A path with the given number of requests and those of a function leads to the place behind its
/// call, where one leads through the function.
fn raise_behind(
    most: &mut Vec<Option<u32>>,
    end: usize,
    place: usize,
    requests: u32,
    inside: Option<u32>,
)
    requires { end ≤ length most.old.items }
    ensures { most.new.items ≡ raised_behind most.old.items end place requests inside }
{
    if let Some(inside) = inside {
        raise(most, end, place, plus(requests, inside));
    }
}

/// A path with the given number of requests leads on from the word at the place.
fn raise_after(
    code: &Code,
    through: &[Option<u32>],
    most: &mut Vec<Option<u32>>,
    end: usize,
    place: usize,
    word: Word,
    requests: u32,
)
    requires lawful { IsLawful code.now }
    requires few { place < most_words }
    requires end { end ≤ length most.old.items }
    requires long { length most.old.items ≡ length code.now.instructions }
    ensures { most.new.items
        ≡ raised_after code.now through.now most.old.items end place word requests }
{
    match word {
        Word::Jump { condition, target } => {
            raise_target(code, most, end, place, target as usize, requests);
            match condition {
                Condition::Always => {}
                Condition::IfTrue | Condition::IfFalse => raise(most, end, place + 1, requests),
            }
        }
        Word::Invoke(function) => {
            let inside = through_in(code, through, function);
            let function = usize::from(function);
            raise(
                most,
                code.end_of(function + 1),
                code.end_of(function),
                requests,
            );
            raise_behind(most, end, place + 1, requests, inside);
        }
        _ => raise(most, end, place + 1, requests),
    }
}
