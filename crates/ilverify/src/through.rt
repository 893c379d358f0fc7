//! What is counted at most on a way through a function: words, or calls of request blocks. A way
//! through it goes through the functions that it calls, too.

ghost use Rattle.std.specs.Prelude.{◌≡◌, ◌<◌, length, None, IfOk};
ghost use Rattle.limits.specs.Limits.{most_words};
ghost use Rattle.ilcode.specs.Listings.{IsLawful, start_of};
ghost use Rattle.ilcode.specs.Paths.{may_request};
ghost use Rattle.ilverify.specs.Calls.{HasGoodCalls};
ghost use Rattle.ilverify.specs.Tables.{plus, AreDone, IsFilled};
ghost use Rattle.ilverify.specs.Through.{plus_if, max_if, weight, through_at, through_to};
ghost use Rattle.ilverify.specs.Through.{through_in, through_after, through_from, AreThrough};

use ilcode::{Code, Word};
use iltypes::Condition;
use std::alloc::{AllocError, Global};

/// What is counted on a way.
#[derive(Clone, Copy)]
pub(crate) enum Counted {
    /// Words.
    Words,
    /// Words that call an instance that may make a request.
    Requests,
}

/// The sum, as far as 32 bits hold it.
pub(crate) fn plus(a: u32, b: u32) -> u32
    ensures { result ≡ plus a b }
{
    a.saturating_add(b)
}

/// The sum, where there are both.
fn plus_if(a: Option<u32>, b: Option<u32>) -> Option<u32>
    ensures { result ≡ plus_if a b }
{
    match (a, b) {
        (Some(a), Some(b)) => Some(plus(a, b)),
        _ => None,
    }
}

/// The greater of the two, where there are both.
fn max_if(a: Option<u32>, b: Option<u32>) -> Option<u32>
    ensures { result ≡ max_if a b }
{
    match (a, b) {
        (Some(a), Some(b)) => Some(a.max(b)),
        (None, b) => b,
        (a, None) => a,
    }
}

/// Whether the word calls an instance that may make a request.
fn may_request(code: &Code, word: Word) -> bool
    ensures { result ≡ may_request code.now word }
{
    match word {
        Word::Call(block) => match code.kinds().get(usize::from(block)) {
            Some(kind) => kind.makes_requests(),
            None => false,
        },
        _ => false,
    }
}

/// What a word counts by itself.
pub(crate) fn weight(code: &Code, counted: Counted, word: Word) -> u32
    ensures { result ≡ weight code.now counted word }
{
    match counted {
        Counted::Words => 1,
        Counted::Requests => { if may_request(code, word) { 1 } else { 0 } }
    }
}

/// What is kept for a place of a body that ends there.
pub(crate) fn through_at(through: &[Option<u32>], end: usize, place: usize) -> Option<u32>
    ensures { result ≡ through_at through.now end place }
{
    if place == end {
        Some(0)
    } else {
        through.get(place).copied().unwrap_or(None)
    }
}

/// What is kept for a jump's target, where that is lawful.
fn through_to(
    code: &Code,
    through: &[Option<u32>],
    end: usize,
    place: usize,
    target: usize,
) -> Option<u32>
    ensures { result ≡ through_to code.now through.now end place target }
{
    if code.is_target(place, target) {
        through_at(through, end, target)
    } else {
        None
    }
}

/// What is kept for a function.
pub(crate) fn through_in(code: &Code, through: &[Option<u32>], function: u16) -> Option<u32>
    ensures { result ≡ through_in code.now through.now function }
{
    let function = usize::from(function);
    through_at(through, code.end_of(function + 1), code.end_of(function))
}

/// What is counted behind the word at a place of a body, by what is kept for its successors.
fn through_after(
    code: &Code,
    through: &[Option<u32>],
    end: usize,
    place: usize,
    word: Word,
) -> Option<u32>
    requires { place < most_words }
    ensures { result ≡ through_after code.now through.now end place word }
{
    let next = through_at(through, end, place + 1);
    match word {
        Word::Jump { condition, target } => {
            let there = through_to(code, through, end, place, target as usize);
            match condition {
                Condition::Always => there,
                Condition::IfTrue | Condition::IfFalse => max_if(next, there),
            }
        }
        Word::Invoke(function) => plus_if(through_in(code, through, function), next),
        _ => next,
    }
}

/// What is counted from the word at a place on.
fn through_from(
    code: &Code,
    counted: Counted,
    through: &[Option<u32>],
    end: usize,
    place: usize,
    word: Word,
) -> Option<u32>
    requires { place < most_words }
    ensures { result ≡ through_from code.now counted through.now end place word }
{
    plus_if(
        Some(weight(code, counted, word)),
        through_after(code, through, end, place, word),
    )
}

/// Fills in a body, where those that it may call are filled in.
fn fill(code: &Code, counted: Counted, through: &mut Vec<Option<u32>>, body: usize, start: usize)
    requires lawful { IsLawful code.now }
    requires long { length through.old.items ≡ length code.now.instructions }
    requires good { HasGoodCalls code.now }
    requires start { start ≡ start_of code.now body }
    requires done { AreDone code.now None (through_from code.now counted) through.old.items body }
    ensures { IsFilled code.now None (through_from code.now counted) through.new.items body start }
{
    let end = code.end_of(body);
    for place in (start..end).rev() {
        through[place] = through_from(code, counted, through, end, place, code.word(place));
    }
}

/// What is counted at most on the ways from each word of a function to the end of its body, and
/// nothing where no way leads there. No room is taken where there are no functions.
pub(crate) fn ways_through(
    alloc: Global,
    code: &Code,
    counted: Counted,
) -> Result<Vec<Option<u32>>, AllocError>
    requires { HasGoodCalls code.now }
    ensures { IfOk result (λ through. AreThrough code.now counted through.items) }
{
    let functions = code.functions().len();
    let len = if functions == 0 { 0 } else { code.len() };
    let mut through = vec![in alloc; None; len]?;
    for function in 0..functions {
        fill(
            code,
            counted,
            &mut through,
            function + 1,
            code.end_of(function),
        );
    }
    Ok(through)
}
