//! Notes on what the pass of the verifier found: words that no scan reaches, operators whose result
//! is the same whatever comes, and levels that no store turns off.

use crate::current::constant_of;
use crate::facts::{House, TaskFacts};
use crate::kinds::Kind;
use crate::levels::LevelTarget;
use crate::note::{Found, Note, NotePlace, note_at, note_of, note_on};
use crate::number_notes::is_swapped;
use ilblocks::BlockKind;
use ilcode::{Code, Target, Word, WordOperand};
use illisting::line_at;
use ilplan::Location;
use iltypes::{Operator, Range, Value};
use ilverify::{Entry, Known, passing};

/// What is stored to a level.
#[derive(Clone, Copy)]
pub(crate) struct Kept {
    values: Range,
    /// Whether some store is carried out in each scan.
    is_always: bool,
    /// Whether one stores what was computed from the level itself.
    is_moved: bool,
}

/// The note on the first word of some that no scan comes to, or no call of their function; of a
/// function the first task has it that uses the function.
pub(crate) fn note_on_unreached(house: &House, facts: &TaskFacts, place: usize) -> Option<Note> {
    let at = NotePlace::Line(line_at(facts.code, place));
    let Some(function) = facts.code.body_at(place).checked_sub(1) else {
        return note_at(
            Kind::Unreached,
            at,
            Found::Task(facts.number),
            Found::Nothing,
        );
    };
    let number = *facts.functions.get(function)?;
    let mut before = house.tasks.iter().take(facts.number);
    if before.any(|facts| facts.functions.contains(&number)) {
        return None;
    }
    let name = Found::Name(house.plan.functions().get(number)?.name());
    note_at(Kind::UnreachedCall, at, name, Found::Nothing)
}

/// The note on a word that leaves the same value whatever comes, where it is one: an operator of
/// which what is known on both sides lets one outcome alone be.
pub(crate) fn note_on_same(
    facts: &TaskFacts,
    place: usize,
    word: Word,
    entry: &Entry,
) -> Option<Note> {
    let mut left = entry.result?;
    let mut right = left;
    let mut constant = None;
    let (word, operator) = match (word, entry.nesting.innermost()) {
        (Word::Apply(operator, operand), _) => {
            constant = constant_of(facts.code, operand);
            right = known_of(facts.code, operand, entry)?;
            (word, operator)
        }
        (Word::Close, Some(opened)) => {
            left = opened.saved;
            (Word::Open(opened.operator), opened.operator)
        }
        _ => return None,
    };
    let (kind, outcome) = match (left, right) {
        (Known::Int(_), Known::Int(_)) if is_swapped(facts.code, place) => return None,
        (Known::Int(left), Known::Int(right)) => match (
            constant,
            outcome_of(operator, left, right)?,
        ) {
            (Some(_), outcome) => (Kind::AlwaysSameNumber, outcome),
            (None, outcome) => (Kind::AlwaysSameNumbers, outcome),
        },
        _ => (Kind::AlwaysSame, truth_of(operator, constant? == 1)?),
    };
    let (word, outcome) = (Found::Word(facts.number, word), Found::Value(outcome));
    let found = [word, outcome, Found::Known(left), Found::Known(right)];
    note_of(kind, NotePlace::Line(line_at(facts.code, place)), found)
}

/// What is known of a constant or a variable.
fn known_of(code: &Code, operand: WordOperand, entry: &Entry) -> Option<Known> {
    match operand {
        WordOperand::Slot(slot) => entry.slots.get(usize::from(slot)),
        WordOperand::Constant(number) => {
            let value = code.constants().get(usize::from(number))?;
            Some(Known::of_value(*value))
        }
        WordOperand::Port { .. } => None,
    }
}

/// The truth value that AND or OR with a constant leaves, where it is one alone.
fn truth_of(operator: Operator, constant: bool) -> Option<Value> {
    match operator {
        Operator::And { negated } if constant == negated => Some(Value::Bool(false)),
        Operator::Or { negated } if constant != negated => Some(Value::Bool(true)),
        _ => None,
    }
}

/// The one value that an operator leaves of all numbers of two ranges: a truth value where it
/// compares them; else a number, where there are several before it, or DIV makes 0 of another.
fn outcome_of(operator: Operator, left: Range, right: Range) -> Option<Value> {
    let holds = may_be(operator, left, right, true);
    if holds != may_be(operator, left, right, false) {
        return Some(Value::Bool(holds));
    }
    match Known::after(operator, Known::Int(left), Known::Int(right)) {
        Ok(Known::Int(Range { lo, hi })) if lo == hi => {
            let is_cut = matches!(operator, Operator::Div) && lo == 0 && left.lo != 0;
            if left.lo < left.hi || is_cut {
                Some(Value::Int(lo))
            } else {
                None
            }
        }
        _ => None,
    }
}

/// Whether a comparison of some numbers of two ranges has this outcome. Those at the ends of the
/// second range show it, or, of EQ and NE, at the ends of the first.
fn may_be(operator: Operator, left: Range, right: Range, outcome: bool) -> bool {
    passing(left, operator, right.lo, outcome).is_some()
        || passing(left, operator, right.hi, outcome).is_some()
        || matches!(operator, Operator::Eq | Operator::Ne)
            && passing(right, operator, left.lo, outcome).is_some()
}

/// The note on a jump of which the words before say the condition.
pub(crate) fn note_on_condition(facts: &TaskFacts, place: usize, is: bool) -> Option<Note> {
    let at = NotePlace::Line(line_at(facts.code, place));
    let value = Found::Value(Value::Bool(is));
    note_at(Kind::AlwaysSameCondition, at, value, Found::Nothing)
}

/// The note on an operator whose result the next word replaces.
pub(crate) fn note_on_unused(facts: &TaskFacts, place: usize, word: Word) -> Option<Note> {
    let after = place.saturating_add(1);
    let next = facts.code.get(after)?;
    let is_unused = matches!((word, next), (Word::Apply(..), Word::Load { .. }));
    if !is_unused || facts.code.is_start(after) {
        return None;
    }
    let at = NotePlace::Line(line_at(facts.code, place));
    let word = Found::Word(facts.number, word);
    note_at(Kind::UnusedResult, at, word, Found::Nothing)
}

/// Adds what a word stores to a level, where it does, in each scan or not.
pub(crate) fn keep_stored(
    stored: &mut Vec<Option<Kept>>,
    facts: &TaskFacts,
    word: Word,
    before: Option<Known>,
    is_always: bool,
) {
    let (
        Word::Store {
            variable: Target::Slot(slot),
            ..
        },
        Some(Known::Int(values)),
    ) = (word, before)
    else {
        return;
    };
    let Some(global) = facts.globals.get(usize::from(slot)) else {
        return;
    };
    if let Some(kept) = stored.get_mut(global.number) {
        let is_moved = facts.slot(global.slot).moves;
        *kept = Some(match *kept {
            Some(other) => Kept {
                values: other.values.hull(values),
                is_always: is_always || other.is_always,
                is_moved: is_moved || other.is_moved,
            },
            None => Kept {
                values,
                is_always,
                is_moved,
            },
        });
    }
}

/// Whether some task commands gear by a block, which may turn lamps off.
pub(crate) fn commands_gear(house: &House) -> bool {
    house.tasks.iter().any(|facts| {
        facts.calls.iter().any(|call| matches!(call.kind, BlockKind::GearLevel | BlockKind::GearDo))
    })
}

/// The note on a level that no store turns off, where it is one. One that has a single value in
/// each scan is meant so, and so is one that moves, as where a button dims, or one of gear that
/// another level drives as well.
pub(crate) fn note_on_level(house: &House, number: usize, kept: Kept) -> Option<Note> {
    let Range { lo, hi } = kept.values;
    if lo < 1 || lo > 254 || kept.is_moved || lo == hi && kept.is_always {
        return None;
    }
    if number >= house.plan.globals() {
        return None;
    }
    let global = house.plan.global(number);
    let Some(Location::Level { bus, address }) = global.location else {
        return None;
    };
    if house.levels.above(LevelTarget { bus, address }).is_some() {
        return None;
    }
    note_on(Kind::NeverOff, global.name, Found::Number(lo))
}
