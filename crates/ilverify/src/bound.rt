//! The greatest numbers of words on the ways from each word: body by body, in declared order and
//! the programs last, each from its last word to its first. A call weighs one and what its function
//! weighs.

ghost use Rattle.std.specs.Prelude.{◌≡◌, ◌<◌, length};
ghost use Rattle.limits.specs.Limits.{most_words};
ghost use Rattle.ilcode.specs.Listings.{IsLawful, start_of};
ghost use Rattle.ilverify.specs.declared.through.Counted.TheVariants.{Words};
ghost use Rattle.ilverify.specs.Calls.{HasGoodCalls};
ghost use Rattle.ilverify.specs.Tables.{AreDone, IsFilled};
ghost use Rattle.ilverify.specs.Through.{AreThrough};
ghost use Rattle.ilverify.specs.BoundSteps.{longest_at, longest_to, longest_in, longest_behind};
ghost use Rattle.ilverify.specs.BoundSteps.{longest_after, longest_from, AreRight};

use crate::through::{plus, through_in};
use ilcode::{Code, Word};
use iltypes::Condition;

/// How many words are kept for a place of a body that ends there.
pub(crate) fn longest_at(longest: &[u32], end: usize, place: usize) -> u32
    ensures { result ≡ longest_at longest.now end place }
{
    if place == end {
        0
    } else {
        longest.get(place).copied().unwrap_or(0)
    }
}

/// How many are kept for a jump's target; none where that is not lawful.
fn longest_to(code: &Code, longest: &[u32], end: usize, place: usize, target: usize) -> u32
    ensures { result ≡ longest_to code.now longest.now end place target }
{
    if code.is_target(place, target) {
        longest_at(longest, end, target)
    } else {
        0
    }
}

/// How many are kept for a function.
fn longest_in(code: &Code, longest: &[u32], function: u16) -> u32
    ensures { result ≡ longest_in code.now longest.now function }
{
    let function = usize::from(function);
    longest_at(longest, code.end_of(function + 1), code.end_of(function))
}

/// How many there are on a way that goes on behind a function.
fn longest_behind(through: Option<u32>, longest: u32) -> u32
    ensures { result ≡ longest_behind through longest }
{
    match through {
        Some(words) => plus(words, longest),
        None => 0,
    }
}

/// How many follow the word at a place of a body, by what is kept for its successors.
fn longest_after(
    code: &Code,
    through: &[Option<u32>],
    longest: &[u32],
    end: usize,
    place: usize,
    word: Word,
) -> u32
    requires { place < most_words }
    ensures { result ≡ longest_after code.now through.now longest.now end place word }
{
    let next = longest_at(longest, end, place + 1);
    match word {
        Word::Jump { condition, target } => {
            let there = longest_to(code, longest, end, place, target as usize);
            match condition {
                Condition::Always => there,
                Condition::IfTrue | Condition::IfFalse => next.max(there),
            }
        }
        Word::Invoke(function) => longest_in(code, longest, function).max(longest_behind(
            through_in(code, through, function),
            next,
        )),
        _ => next,
    }
}

/// Fills in a body, where those that it may call are filled in.
fn fill(code: &Code, through: &[Option<u32>], longest: &mut Vec<u32>, body: usize, start: usize)
    requires lawful { IsLawful code.now }
    requires long { length longest.old.items ≡ length code.now.instructions }
    requires good { HasGoodCalls code.now }
    requires start { start ≡ start_of code.now body }
    requires done { AreDone code.now 0 (longest_from code.now through.now) longest.old.items body }
    ensures { IsFilled code.now 0 (longest_from code.now through.now) longest.new.items body start }
{
    let end = code.end_of(body);
    for place in (start..end).rev() {
        let after = longest_after(code, through, longest, end, place, code.word(place));
        longest[place] = plus(1, after);
    }
}

/// Fills in all bodies.
pub(crate) fn fill_bodies(code: &Code, through: &[Option<u32>], longest: &mut Vec<u32>)
    requires good { HasGoodCalls code.now }
    requires ways { AreThrough code.now Words through.now }
    requires long { length longest.old.items ≡ length code.now.instructions }
    ensures { AreRight code.now through.now longest.new.items }
{
    for function in 0..code.functions().len() {
        fill(code, through, longest, function + 1, code.end_of(function));
    }
    fill(code, through, longest, 0, 0);
}
