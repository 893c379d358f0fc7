//! The calls of functions that may not stand in a code, whether they are reached or not.

ghost use Rattle.std.specs.Prelude.{◌≡◌, ◌+◌, ◌<◌, ◌↔◌, IsTrue, length, IfOk, MatchOption};
ghost use Rattle.limits.specs.Limits.{most_calls};
ghost use Rattle.ilcode.specs.Listings.{start_of};
ghost use Rattle.ilcode.specs.Steps.{is_callable};
ghost use Rattle.ilverify.specs.Calls.{HasChain, IsBadCall, HasGoodCalls, IsFirstBad};
ghost use Rattle.ilverify.specs.CallSteps.{AreChains};

use ilcode::{Code, Word};
use limits::{FEW_BUSES, MOST_CALLS};
use std::alloc::{AllocError, Global};

/// The first call that may not stand in the code, if any.
pub(crate) fn first_bad_call(alloc: Global, code: &Code) -> Result<Option<usize>, AllocError>
    ensures { IfOk result (λ found. MatchOption found
        (HasGoodCalls code.now)
        (IsFirstBad code.now)) }
{
    if is_old(code) {
        return Ok(None);
    }
    let chains = long_chains(alloc, code)?;
    Ok(first_bad(code, &chains))
}

/// Whether each call may stand where it does.
pub(crate) fn has_good_calls(alloc: Global, code: &Code) -> Result<bool, AllocError>
    ensures { IfOk result (λ good. IsTrue good ↔ HasGoodCalls code.now) }
{
    let bad = first_bad_call(alloc, code)?;
    Ok(bad.is_none())
}

/// Whether the code is one that a file of version 1 can hold: in such a code no word calls a
/// function.
fn is_old(code: &Code) -> bool
    ensures { IsTrue result → HasGoodCalls code.now }
{
    code.functions().len() == 0 && code.buses() <= FEW_BUSES
}

/// Of each function, whether a chain of as many calls as may be open begins in its body.
fn long_chains(alloc: Global, code: &Code) -> Result<Vec<bool>, AllocError>
    ensures { IfOk result (λ chains. AreChains code.now most_calls chains.items) }
{
    let mut chains = vec![in alloc; true; code.functions().len()]?;
    for calls in 0..MOST_CALLS {
        chains = lengthen(alloc, code, &chains, calls)?;
    }
    Ok(chains)
}

/// The chains of one call more. No body is looked at again in which no shorter chain begins.
fn lengthen(
    alloc: Global,
    code: &Code,
    chains: &[bool],
    calls: usize,
) -> Result<Vec<bool>, AllocError>
    requires { AreChains code.now calls chains.now }
    ensures { IfOk result (λ longer. AreChains code.now (calls + 1) longer.items) }
{
    let mut longer = Vec::new(alloc);
    for function in 0..code.functions().len() {
        let is_longer = chains[function] && begins(code, chains, calls, function);
        longer.push(is_longer)?;
    }
    Ok(longer)
}

/// Whether a chain of one call more begins in the body of the function.
fn begins(code: &Code, chains: &[bool], calls: usize, function: usize) -> bool
    requires chains { AreChains code.now calls chains.now }
    requires within { function < length code.now.functions }
    ensures { IsTrue result ↔ HasChain code.now (calls + 1) function }
{
    let _functions = code.functions();
    for place in code.end_of(function)..code.end_of(function + 1) {
        if let Word::Invoke(inner) = code.word(place) {
            if goes_on(code, chains, calls, usize::from(inner)) {
                return true;
            }
        }
    }
    false
}

/// Whether a chain of the given number of calls begins in the body of the function, which may be
/// none.
fn goes_on(code: &Code, chains: &[bool], calls: usize, function: usize) -> bool
    requires { AreChains code.now calls chains.now }
    ensures { IsTrue result ↔ HasChain code.now calls function }
{
    let _functions = code.functions();
    match chains.get(function) {
        Some(chain) => *chain,
        None => calls == 0,
    }
}

/// The first call that may not stand in the code, body by body.
fn first_bad(code: &Code, chains: &[bool]) -> Option<usize>
    requires { AreChains code.now most_calls chains.now }
    ensures { MatchOption result (HasGoodCalls code.now) (IsFirstBad code.now) }
{
    for body in 0..code.functions().len() + 1 {
        for place in start_of(code, body)..code.end_of(body) {
            if let Word::Invoke(function) = code.word(place) {
                if is_bad(code, chains, body, usize::from(function)) {
                    return Some(place);
                }
            }
        }
    }
    None
}

/// Where a body begins.
fn start_of(code: &Code, body: usize) -> usize
    ensures { result ≡ start_of code.now body }
{
    if body == 0 { 0 } else { code.end_of(body - 1) }
}

/// Whether the call may not stand in the body.
fn is_bad(code: &Code, chains: &[bool], body: usize, function: usize) -> bool
    requires chains { AreChains code.now most_calls chains.now }
    ensures { IsTrue result ↔ IsBadCall code.now body function }
{
    if function >= code.functions().len() {
        return true;
    }
    if !is_callable(body, function) {
        return true;
    }
    goes_on(code, chains, MOST_CALLS, function)
}

/// Whether the body may call the function, by its number alone.
fn is_callable(body: usize, function: usize) -> bool
    requires { function < 65536 }
    ensures { result ≡ is_callable body function }
{
    body == 0 || function + 1 < body
}
