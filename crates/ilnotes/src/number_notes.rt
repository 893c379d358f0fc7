//! Notes on numbers that are likely not meant: a time of a timer that is written as a plain number,
//! and limits the wrong way round.

use crate::current::constant_of;
use crate::facts::{House, TaskFacts};
use crate::kinds::Kind;
use crate::note::{Found, Note, NotePlace, note_at};
use ilblocks::BlockKind;
use ilcode::{Code, Target, Word, WordOperand};
use illisting::line_at;
use iltypes::Operator;

/// The number of PT among the ports of a timer.
const TIME: u8 = 1;

/// A time below this many milliseconds is short for a plain number.
const SHORT: i64 = 1000;

/// The note on the constants of a LIMIT whose first word stands at a place, where they are the
/// wrong way round.
pub(crate) fn note_on_limits(code: &Code, place: usize) -> Option<Note> {
    let next = place.saturating_add(1);
    let (low, high) = match (code.get(place)?, code.get(next)?) {
        (Word::Apply(Operator::Max, low), Word::Apply(Operator::Min, high)) => (low, high),
        _ => return None,
    };
    let (low, high) = (constant_of(code, low)?, constant_of(code, high)?);
    let line = line_at(code, place);
    if line_at(code, next) != line || low <= high {
        return None;
    }
    let (low, high) = (Found::Number(low), Found::Number(high));
    note_at(Kind::LimitsSwapped, NotePlace::Line(line), low, high)
}

/// Whether the word at a place is the second one of such a LIMIT.
pub(crate) fn is_swapped(code: &Code, place: usize) -> bool {
    place > 0 && note_on_limits(code, place.saturating_sub(1)).is_some()
}

/// The note on the time that a word gives to a timer, in milliseconds.
pub(crate) fn note_on_time(
    house: &House,
    facts: &TaskFacts,
    place: usize,
    word: Word,
) -> Option<Note> {
    let (time, place, before) = time_in(facts.code, place, word)?;
    let line = line_at(facts.code, place);
    let (at, milliseconds) = (NotePlace::Line(line), Found::Number(time));
    if time < SHORT && is_plain(house.source.text(), house.lines.start_of(line), before) {
        return note_at(Kind::TimeWithoutUnit, at, milliseconds, Found::Nothing);
    }
    let interval = i64::from(facts.interval?);
    if time >= interval {
        return None;
    }
    note_at(
        Kind::TimeBelowInterval,
        at,
        milliseconds,
        Found::Number(interval),
    )
}

/// The constant that the word at a place passes to PT of a timer, or stores there behind a load;
/// where that stands, and the bytes before it, blanks aside, in capitals.
fn time_in(code: &Code, place: usize, word: Word) -> Option<(i64, usize, &'static [u8])> {
    let loaded = place.saturating_sub(1);
    let (block, operand, place, before): (u16, WordOperand, usize, &'static [u8]) = match word {
        Word::Pass {
            port: TIME,
            block,
            operand,
        } => (block, operand, place, b"PT:="),
        Word::Store {
            variable: Target::Port { port: TIME, block },
            ..
        } => match code.get(loaded)? {
            Word::Load { operand, .. } => (block, operand, loaded, b"LD"),
            _ => return None,
        },
        _ => return None,
    };
    match code.kinds().get(usize::from(block))? {
        BlockKind::Ton => Some((constant_of(code, operand)?, place, before)),
        _ => None,
    }
}

/// Whether what stands behind these bytes on the line that begins there, or a later one, is written
/// as a plain number, as `PT := 5` is, and `PT := T#5s` is not.
fn is_plain(text: &[u8], start: usize, before: &[u8]) -> bool {
    let (_, rest) = text.split_at(start.min(text.len()));
    let mut seen: usize = 0;
    let mut last = b' ';
    for byte in rest {
        let letter = byte.to_ascii_uppercase();
        match before.get(seen) {
            _ if byte.is_ascii_whitespace() => {}
            None if last.is_ascii_alphabetic() => return false,
            None => return matches!(letter, b'0'..=b'9' | b'+' | b'-'),
            Some(wanted) if letter == *wanted => seen = seen.saturating_add(1),
            Some(_) => seen = usize::from(before.first() == Some(&letter)),
        }
        last = letter;
    }
    false
}
