//! Which ways of a code a value goes.

use ilcode::{Code, Word};
use iltypes::Range;
use ilverify::{Change, Entry, Known, Pass, Passed, after_word};
use std::alloc::{AllocError, Global};

/// A way that a value goes, from one word to another of the same body.
#[derive(Clone, Copy)]
pub(crate) struct Way {
    pub from: usize,
    pub to: usize,
    /// What is known of the current result on the way, where there is one.
    known: Option<Known>,
}

/// The ways from each word up to one, in their order. A function begins at its first word, whatever
/// calls it.
pub(crate) fn ways_up_to(alloc: Global, code: &Code, word: usize) -> Result<Vec<Way>, AllocError> {
    let mut ways = Vec::new(alloc);
    let mut pass = Pass::begin(alloc, code)?;
    for place in 0..word.saturating_add(1) {
        for way in ways_from(code, &pass, place) {
            if let Some(way) = way {
                ways.push(way)?;
            }
        }
        let Passed::On(next) = pass.advance()? else {
            break;
        };
        pass = next;
    }
    Ok(ways)
}

/// The ways from the word to which a pass has come: by a jump, and to the next word.
fn ways_from(code: &Code, pass: &Pass, from: usize) -> [Option<Way>; 2] {
    let Some(entry) = pass.entry() else {
        return [None, None];
    };
    if from >= code.len() {
        return [None, None];
    }
    let word = code.word(from);
    // Parentheses decide no way: a word that leaves one open is refused.
    let Ok(changes) = after_word(code, from, false, entry, word) else {
        return [None, None];
    };
    let jump = match (word, changes.target) {
        (Word::Jump { target, .. }, Some(_)) => {
            way_within(code, from, target as usize, entry.result)
        }
        _ => None,
    };
    let next = match changes.next {
        Some(change) => {
            let known = result_behind(code, entry, change);
            way_within(code, from, from.saturating_add(1), known)
        }
        None => None,
    };
    [jump, next]
}

/// A way, where it stays within a body.
fn way_within(code: &Code, from: usize, to: usize, known: Option<Known>) -> Option<Way> {
    if code.body_at(from) == code.body_at(to) {
        Some(Way { from, to, known })
    } else {
        None
    }
}

/// The current result behind a word with this change.
fn result_behind(code: &Code, entry: &Entry, change: Change) -> Option<Known> {
    match change {
        Change::Give(known, _) | Change::Close(known) => Some(known),
        Change::Forget | Change::Open(_) => None,
        Change::Return(function) => {
            let body = code.functions().get(usize::from(function))?;
            let slot = body.first.saturating_add(body.inputs);
            code.slots().get(slot).copied().map(Known::of)
        }
        _ => entry.result,
    }
}

/// Why there is no current result at a word.
#[derive(Clone, Copy)]
pub(crate) enum Lack {
    /// A program or a function begins.
    Begun,
    /// The word at this place calls a block.
    Called(usize),
    /// Values of two kinds meet, each from the word at its place, the first one first.
    Meeting((usize, Known), (usize, Known)),
}

/// How far a result is looked for back from a word.
const MOST_STEPS: usize = 16;

/// Why there is no current result at a word, as far as that is found.
pub(crate) fn lack_at(code: &Code, ways: &[Way], word: usize) -> Option<Lack> {
    let mut place = word;
    for _ in 0..MOST_STEPS {
        if code.is_start(place) {
            return Some(Lack::Begun);
        }
        let lack = lack_before(code, ways, place);
        if lack.is_some() {
            return lack;
        }
        place = place_before(ways, place)?;
    }
    None
}

/// Why no current result comes to a place, where that is seen on the ways there.
fn lack_before(code: &Code, ways: &[Way], place: usize) -> Option<Lack> {
    let mut last: Option<(usize, Known)> = None;
    for way in ways.iter().rev() {
        match (last, way.known) {
            _ if way.to != place => {}
            (None, Some(known)) => last = Some((way.from, known)),
            (Some(last), Some(known))
                if matches!(last.1, Known::Bool) != matches!(known, Known::Bool) => {
                return Some(Lack::Meeting((way.from, known), last));
            }
            (_, None) if matches!(code.get(way.from), Some(Word::Call(_))) => {
                return Some(Lack::Called(way.from));
            }
            _ => {}
        }
    }
    None
}

/// The last way to a word on which a number comes that is not within what is allowed.
pub(crate) fn misfit_to(ways: &[Way], word: usize, allowed: Range) -> Option<Way> {
    let mut misfit = None;
    for way in ways {
        let is_known = matches!(way.known, Some(Known::Int(found)) if !found.within(allowed));
        if is_known && way.to == word {
            misfit = Some(*way);
        }
    }
    misfit
}

/// The last place from which a value goes to this one: the one before it, or else the last jump.
pub(crate) fn place_before(ways: &[Way], place: usize) -> Option<usize> {
    let mut before = None;
    for way in ways {
        if way.to == place {
            before = Some(way.from);
        }
    }
    before
}
