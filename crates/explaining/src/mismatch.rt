//! What was found and what is wanted, where a value is of the wrong type.

use ilcode::{Code, Word, WordOperand};
use illisting::{ValuesText, read_by, written_by};
use iltypes::{Function, Operator};
use ilverify::{Cause, Entry, Known, Pass, Passed, Refusal};
use std::alloc::{AllocError, Global};
use std::fmt;

/// A value of the wrong type, or a divisor that may be 0.
#[derive(Clone, Copy)]
pub(crate) struct Mismatch {
    pub found: Known,
    /// What the place wants; any number where it is nothing.
    pub wanted: Option<Known>,
    /// Whether it is the operand, and not the current result.
    pub is_operand: bool,
}

/// What a place wants that takes a truth value, and one that takes any number.
const TRUTH: Option<Known> = Some(Known::Bool);

const NUMBER: Option<Known> = None;

/// The value of the wrong type at a refused word, or the divisor, where that is the cause.
pub(crate) fn mismatch_at(
    alloc: Global,
    code: &Code,
    refusal: Refusal,
) -> Result<Option<Mismatch>, AllocError> {
    if !matches!(refusal.cause, Cause::WrongType | Cause::MayBeZero) {
        return Ok(None);
    }
    let mut pass = Pass::begin(alloc, code)?;
    for _ in 0..refusal.word {
        let Passed::On(next) = pass.advance()? else {
            return Ok(None);
        };
        pass = next;
    }
    Ok(match (pass.entry(), code.get(refusal.word)) {
        (Some(entry), Some(word)) if matches!(refusal.cause, Cause::MayBeZero) => {
            divisor_of(code, entry, word)
        }
        (Some(entry), Some(word)) => mismatch_of(code, entry, word),
        _ => None,
    })
}

/// The divisor of a word: its operand, or what the parentheses gave.
fn divisor_of(code: &Code, entry: &Entry, word: Word) -> Option<Mismatch> {
    let found = known_of(code, entry, read_by(word)).or(entry.result)?;
    Some(Mismatch {
        found,
        wanted: NUMBER,
        is_operand: false,
    })
}

/// The value of the wrong type, by what is known before a word.
fn mismatch_of(code: &Code, entry: &Entry, word: Word) -> Option<Mismatch> {
    let result = entry.result;
    let read = known_of(code, entry, read_by(word));
    let declared = type_of(code, written_by(word));
    match word {
        Word::Load { .. } => at_operand(read, TRUTH),
        Word::Apply(operator, _) => {
            let wanted = wanted_by(operator, result);
            at_result(result, wanted).or(at_operand(read, wanted))
        }
        Word::Transform(Function::Not) | Word::Jump { .. } => at_result(result, TRUTH),
        Word::Transform(_) => at_result(result, NUMBER),
        Word::Store { negated, .. } => {
            let wanted = if negated { TRUTH } else { declared };
            at_operand(declared, wanted).or(at_result(result, wanted))
        }
        Word::Set(_) | Word::Reset(_) => at_result(result, TRUTH).or(at_operand(declared, TRUTH)),
        Word::Pass { .. } | Word::Give { .. } => at_operand(read, declared),
        Word::Close => {
            let opened = entry.nesting.innermost()?;
            let saved = Some(opened.saved);
            let wanted = wanted_by(opened.operator, saved);
            at_result(saved, wanted).or(at_result(result, wanted))
        }
        Word::Call(_) | Word::Open(_) | Word::Invoke(_) => None,
    }
}

/// What an operator wants on both sides: EQ and NE of the operand what the result is.
fn wanted_by(operator: Operator, left: Option<Known>) -> Option<Known> {
    match (operator, left) {
        (Operator::And { .. } | Operator::Or { .. } | Operator::Xor { .. }, _)
        | (Operator::Eq | Operator::Ne, Some(Known::Bool)) => TRUTH,
        _ => NUMBER,
    }
}

/// The operand, where it is not what is wanted.
fn at_operand(known: Option<Known>, wanted: Option<Known>) -> Option<Mismatch> {
    let mismatch = at_result(known, wanted)?;
    Some(Mismatch {
        is_operand: true,
        ..mismatch
    })
}

/// The current result, where it is not what is wanted.
fn at_result(known: Option<Known>, wanted: Option<Known>) -> Option<Mismatch> {
    let found = known?;
    if matches!(wanted, Some(Known::Bool)) == matches!(found, Known::Bool) {
        return None;
    }
    Some(Mismatch {
        found,
        wanted,
        is_operand: false,
    })
}

/// What is known of an operand.
fn known_of(code: &Code, entry: &Entry, operand: Option<WordOperand>) -> Option<Known> {
    match operand {
        Some(WordOperand::Slot(slot)) => entry.slots.get(usize::from(slot)),
        _ => type_of(code, operand),
    }
}

/// What is known of an operand by its type, or its value.
fn type_of(code: &Code, operand: Option<WordOperand>) -> Option<Known> {
    let declared = match operand? {
        WordOperand::Slot(slot) => code.slots().get(usize::from(slot)).copied(),
        WordOperand::Constant(number) => {
            return Some(Known::of_value(*code.constants().get(usize::from(number))?));
        }
        WordOperand::Port { port, block } => {
            let kind = code.kinds().get(usize::from(block))?;
            kind.port_type(code.buses(), usize::from(port))
        }
    };
    declared.map(Known::of)
}

/// A value in words: a truth value, or a number with its range, where that is known.
#[derive(Clone, Copy)]
pub(crate) struct ValueText(pub Option<Known>);

impl fmt::Display for ValueText {
    fn fmt<W: fmt::Write>(&self, f: &mut fmt::Formatter<W>) -> fmt::Result {
        match self.0 {
            Some(Known::Int(range)) => {
                let front = if range.lo == range.hi { "the" } else { "a" };
                let known = Known::Int(range);
                write!(f, "{front} number {}", ValuesText { known })
            }
            Some(Known::Bool) => f.write_str("a truth value"),
            None => f.write_str("a number"),
        }
    }
}
