//! Notes on stores that nothing comes of: each way from one stores the variable again before the
//! scan ends, and nothing reads it in between.

use crate::facts::{House, TaskFacts, place_of};
use crate::kinds::{Kind, Rule};
use crate::note::{Added, Found, Note, NotePlace, Notes, note_at, note_of};
use ilblocks::MOST_PORTS;
use ilcode::{Code, Word, WordOperand};
use illisting::{is_marked, line_at, read_by, written_by};
use iltypes::Condition;
use indexmap::IndexMap;
use std::alloc::{AllocError, Global};

/// How many words are looked at for a task in all, a word once for each variable: so the notes on a
/// long text come soon.
const MOST_LOOKED_AT: usize = 4_000_000;

/// Where the words of a task store a variable or an input of a block instance, by its place among
/// what the code uses.
#[derive(Clone, Copy)]
struct Span {
    key: usize,
    first: usize,
    last: usize,
}

/// Adds a note for each of these that a task stores in vain where a scan comes, in the order of the
/// first stores.
pub(crate) fn add_overwritten(
    notes: &mut Notes,
    house: &House,
    facts: &TaskFacts,
    reached: &[bool],
) -> Added {
    let mut next = vec![in notes.alloc; None; facts.code.len()]?;
    let mut left = MOST_LOOKED_AT;
    for (_, span) in &spans_in(notes.alloc, facts.code)? {
        let words = span.last.saturating_sub(span.first).saturating_add(1);
        if span.first < span.last && words <= left {
            left = left.saturating_sub(words);
            let lost = store_lost(facts.code, &mut next, *span, reached);
            notes.add(
                Rule::Overwritten,
                note_on_lost(house, facts, span.key, lost),
            );
        }
    }
    Ok(())
}

/// Where a code stores what it stores, in the order of the first stores. What a word of one body
/// stores to a variable of a function is an argument of a call.
fn spans_in(alloc: Global, code: &Code) -> Result<IndexMap<usize, Span>, AllocError> {
    let mut spans: IndexMap<usize, Span> = IndexMap::new(alloc);
    for place in 0..code.len() {
        if let Some(key) = key_at(code, place) {
            let body = code.body_at(place);
            let from = match body.checked_sub(1) {
                Some(before) => code.slots_end(before),
                None => 0,
            };
            let is_own = key >= from && key < code.slots_end(body);
            match spans.get_mut(&key) {
                Some(span) if is_own || key >= code.slots().len() => span.last = place,
                None if is_own || key >= code.slots().len() => {
                    let (first, last) = (place, place);
                    spans.insert(key, Span { key, first, last })?;
                }
                _ => {}
            }
        }
    }
    Ok(spans)
}

/// The first store that is overwritten, and the one that does it. From the last store back it is
/// found for each place whether all ways from there store the variable before they read it, and
/// where one does. What S stores R undoes where it has the same result, and the other way round.
fn store_lost(
    code: &Code,
    next: &mut Vec<Option<usize>>,
    span: Span,
    reached: &[bool],
) -> Option<(usize, usize)> {
    let mut lost = None;
    for place in (span.first..span.last.saturating_add(1)).rev() {
        let after = place.saturating_add(1);
        let mut here = on_from(code, next, span, place);
        if key_at(code, place) == Some(span.key) {
            let (word, then) = (code.get(place), code.get(after));
            let behind = match (word, then) {
                (Some(Word::Set(_)), Some(Word::Reset(_)))
                | (Some(Word::Reset(_)), Some(Word::Set(_)))
                    if key_at(code, after) == Some(span.key) => { Some(after) }
                _ => next_at(next, span, after),
            };
            if let (Some(next), true) = (behind, is_marked(reached, place)) {
                lost = Some((place, next));
            }
            if !matches!(word, Some(Word::Set(_) | Word::Reset(_))) {
                here = Some(place);
            }
        }
        if let Some(kept) = next.get_mut(place) {
            *kept = here;
        }
    }
    lost
}

/// The note on a store that is lost.
fn note_on_lost(
    house: &House,
    facts: &TaskFacts,
    key: usize,
    lost: Option<(usize, usize)>,
) -> Option<Note> {
    let (place, next) = lost?;
    let at = NotePlace::Line(line_at(facts.code, place));
    let next = Found::Count(line_at(facts.code, next));
    let Some(port) = key.checked_sub(facts.code.slots().len()) else {
        let name = Found::Name(facts.name_of(house.plan, key)?);
        return note_at(Kind::Overwritten, at, name, next);
    };
    let block = facts.task.blocks().get(port / MOST_PORTS)?;
    let (name, port) = (
        Found::Name(block.name),
        Found::Port(block.kind, port % MOST_PORTS),
    );
    note_of(
        Kind::OverwrittenInput,
        at,
        [name, next, port, Found::Nothing],
    )
}

/// The place among what a code uses of what the word at a place stores.
fn key_at(code: &Code, place: usize) -> Option<usize> {
    match code.get(place)? {
        Word::Give { .. } => None,
        word => Some(place_of(code, written_by(word)?)),
    }
}

/// The place of a store on a way on from a word, where all ways store the variable.
fn on_from(code: &Code, next: &[Option<usize>], span: Span, place: usize) -> Option<usize> {
    let word = code.get(place)?;
    let behind = next_at(next, span, place.saturating_add(1));
    if is_read(code, word, span.key) {
        return None;
    }
    match word {
        Word::Jump { condition, target } => {
            let there = next_at(next, span, target as usize);
            if condition == Condition::Always {
                return there;
            }
            Some(there?.min(behind?))
        }
        _ => behind,
    }
}

/// Whether a word reads what stands at a place among what a code uses; a call reads the inputs of
/// its block.
fn is_read(code: &Code, word: Word, key: usize) -> bool {
    if let Some(read) = read_by(word) {
        if place_of(code, read) == key {
            return true;
        }
    }
    match word {
        Word::Call(block) => {
            let first = place_of(code, WordOperand::Port { port: 0, block });
            matches!(key.checked_sub(first), Some(port) if port < MOST_PORTS)
        }
        _ => false,
    }
}

/// The place of a store on a way from a place, where all ways from there store the variable.
fn next_at(next: &[Option<usize>], span: Span, place: usize) -> Option<usize> {
    if place > span.last {
        return None;
    }
    *next.get(place)?
}
