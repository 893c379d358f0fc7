//! Where the bodies of a code stand, those of its programs and of its functions, and which words
//! it may have.

ghost use Rattle.std.specs.Prelude.{◌≡◌, ◌+◌, ◌≤◌, ◌↔◌, IsTrue, length, slice_get};
ghost use Rattle.std.specs.List.{AllByRecursion};
ghost use Rattle.ilcode.specs.Listings.{first_or, start_or};
ghost use Rattle.ilcode.specs.Words.{IsOldWord};
ghost use Rattle.ilcodefile.specs.BodySteps.{AreBodies, BeginPrograms, Follow, HasInputs, HoldsOld};
ghost use Rattle.ilcodefile.specs.BodySteps.{Rise};

use crate::version::is_old;
use ilcode::{FunctionBody, PackedWord, Word};
use limits::MOST_INPUTS;

/// Whether a code for the given number of buses, with the given number of slots, may have programs
/// and functions that begin so, and these words.
pub(crate) fn are_bodies(
    buses: u8,
    slots: usize,
    starts: &[usize],
    words: &[PackedWord],
    functions: &[FunctionBody],
) -> bool
    ensures { IsTrue result ↔ AreBodies buses slots starts.now words.now functions.now }
{
    begin_programs(start_or(functions, words.len()), starts, words)
        && follow(words.len(), slots, functions)
        && holds_old(buses, functions, words)
}

/// Whether programs may begin at these places, the last of which ends there.
fn begin_programs(end: usize, starts: &[usize], words: &[PackedWord]) -> bool
    ensures { IsTrue result ↔ BeginPrograms end starts.now words.now }
{
    match starts {
        [] => words.is_empty(),
        [start, starts @ ..] => *start == 0 && rise(end, *start, starts),
    }
}

/// Whether each of the starts is not below the one before, and not beyond the end.
fn rise(end: usize, before: usize, starts: &[usize]) -> bool
    ensures { IsTrue result ↔ Rise end before starts.now }
{
    match starts {
        [] => true,
        [start, starts @ ..] => before <= *start && *start <= end && rise(end, *start, starts),
    }
}

/// Whether each of the functions has its slots, and ends where the next begins, or at the end.
fn follow(words: usize, slots: usize, functions: &[FunctionBody]) -> bool
    ensures { IsTrue result ↔ Follow words slots functions.now }
{
    match functions {
        [] => true,
        [function, functions @ ..] => {
            has_inputs(*function)
                && function.start <= start_or(functions, words)
                && slots_end_at(*function, first_or(functions, slots))
                && follow(words, slots, functions)
        }
    }
}

/// Whether a function has an input, no more than the limit, and a slot for its result.
fn has_inputs(function: FunctionBody) -> bool
    ensures { IsTrue result ↔ HasInputs function }
{
    1 <= function.inputs && function.inputs <= MOST_INPUTS && function.inputs < function.slots
}

/// Whether the slots of a function end there.
fn slots_end_at(function: FunctionBody, end: usize) -> bool
    ensures { IsTrue result ↔ (function.first + function.slots ≡ end) }
{
    function.first <= end && function.slots == end - function.first
}

/// The place where the first of the functions begins, or the end where there is none.
fn start_or(functions: &[FunctionBody], end: usize) -> usize
    ensures { result ≡ start_or (slice_get functions.now 0) end }
{
    match functions {
        [] => end,
        [function, ..] => function.start,
    }
}

/// The first slot of the first of the functions, or the end where there is none.
fn first_or(functions: &[FunctionBody], end: usize) -> usize
    ensures { result ≡ first_or (slice_get functions.now 0) end }
{
    match functions {
        [] => end,
        [function, ..] => function.first,
    }
}

/// Whether the words are old ones, or the code is not.
fn holds_old(buses: u8, functions: &[FunctionBody], words: &[PackedWord]) -> bool
    ensures { IsTrue result ↔ HoldsOld buses functions.now words.now }
{
    !is_old(buses, functions) || are_old(words)
}

/// Whether a file of version 1 may have the words.
fn are_old(words: &[PackedWord]) -> bool
    ensures { IsTrue result ↔ AllByRecursion IsOldWord words.now }
{
    for word in words {
        if !is_old_word(word.word()) {
            return false;
        }
    }
    true
}

/// Whether a file of version 1 may have the word.
fn is_old_word(word: Word) -> bool
    ensures { IsTrue result ↔ IsOldWord word }
{
    match word {
        Word::Give { .. } | Word::Invoke(_) => false,
        _ => true,
    }
}
