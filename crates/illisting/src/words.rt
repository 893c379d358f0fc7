//! Words as they are written, and what is known before them, in words.

use crate::task_names::TaskNames;
use crate::uses::{read_by, written_by};
use ilcode::{Code, Word, WordOperand};
use ilplan::{DeclaredName, SlotName};
use iltypes::{Condition, Function, Operator, Range};
use ilverify::{Entry, Known};
use std::fmt;

/// A word of a task's code, as it could stand in a text; a jump leads to the number of a word, and
/// a call of a function is CALL with its name.
#[derive(Clone, Copy)]
pub struct WordText<'a> {
    pub names: &'a TaskNames<'a>,
    pub word: Word,
}

impl fmt::Display for WordText<'_> {
    fn fmt<W: fmt::Write>(&self, f: &mut fmt::Formatter<W>) -> fmt::Result {
        let names = self.names;
        let (first, between, last) = parts_of(names.code, self.word);
        let first = PartText { names, part: first };
        let last = PartText { names, part: last };
        write!(f, "{first}{between}{last}")
    }
}

/// A part of a word.
#[derive(Clone, Copy)]
pub(crate) enum Part {
    Text(&'static str),
    Operand(WordOperand),
    Block(u16),
    Function(usize),
    /// Who has a word: program instances count first, then the functions of the code.
    Caller(usize),
    /// The number of the word to which a jump leads.
    Place(u32),
}

/// What a word is written with, and what stands between both.
fn parts_of(code: &Code, word: Word) -> (Part, &'static str, Part) {
    let verb = Part::Text(verb_of(code, word));
    let named = match (written_by(word), read_by(word)) {
        (Some(to), Some(given)) => return (Part::Operand(to), " := ", Part::Operand(given)),
        (written, read) => written.or(read),
    };
    match (named, word) {
        (Some(operand), _) => (verb, " ", Part::Operand(operand)),
        (_, Word::Call(block)) => (verb, " ", Part::Block(block)),
        (_, Word::Invoke(function)) => (verb, " ", Part::Function(usize::from(function))),
        (_, Word::Jump { target, .. }) if !is_return(code, target) => {
            (verb, " ", Part::Place(target))
        }
        (_, Word::Open(_)) => (verb, "(", Part::Text("")),
        _ => (verb, "", Part::Text("")),
    }
}

/// The word by which a word of a code begins; none where it gives something.
fn verb_of(code: &Code, word: Word) -> &'static str {
    match word {
        Word::Load { negated: false, .. } => "LD",
        Word::Load { negated: true, .. } => "LDN",
        Word::Store { negated: false, .. } => "ST",
        Word::Store { negated: true, .. } => "STN",
        Word::Set(_) => "S",
        Word::Reset(_) => "R",
        Word::Apply(operator, _) | Word::Open(operator) => operator_text(operator),
        Word::Transform(Function::Not) => "NOT",
        Word::Transform(Function::Abs) => "ABS",
        Word::Transform(Function::Convert(_)) => "conversion",
        Word::Call(_) => "CAL",
        Word::Invoke(_) => "CALL",
        Word::Jump { condition, target } => jump_text(condition, is_return(code, target)),
        Word::Close | Word::Pass { .. } | Word::Give { .. } => ")",
    }
}

/// How an operator is written.
fn operator_text(operator: Operator) -> &'static str {
    match operator {
        Operator::And { negated: false } => "AND",
        Operator::And { negated: true } => "ANDN",
        Operator::Or { negated: false } => "OR",
        Operator::Or { negated: true } => "ORN",
        Operator::Xor { negated: false } => "XOR",
        Operator::Xor { negated: true } => "XORN",
        Operator::Add => "ADD",
        Operator::Sub => "SUB",
        Operator::Mul => "MUL",
        Operator::Div => "DIV",
        Operator::Mod => "MOD",
        Operator::Gt => "GT",
        Operator::Ge => "GE",
        Operator::Eq => "EQ",
        Operator::Ne => "NE",
        Operator::Le => "LE",
        Operator::Lt => "LT",
        Operator::Min => "MIN",
        Operator::Max => "MAX",
    }
}

/// Whether a jump to a place is a return: where a program or a function begins, and past the last
/// word, the one before ends.
fn is_return(code: &Code, target: u32) -> bool {
    let place = target as usize;
    place >= code.len() || code.is_start(place)
}

/// How a jump is written.
fn jump_text(condition: Condition, is_return: bool) -> &'static str {
    match (condition, is_return) {
        (Condition::Always, true) => "RET",
        (Condition::IfTrue, true) => "RETC",
        (Condition::IfFalse, true) => "RETCN",
        (Condition::Always, false) => "JMP",
        (Condition::IfTrue, false) => "JMPC",
        (Condition::IfFalse, false) => "JMPCN",
    }
}

/// A part of a word, with the names of the text.
#[derive(Clone, Copy)]
pub(crate) struct PartText<'a> {
    pub names: &'a TaskNames<'a>,
    pub part: Part,
}

/// What is printed in place of a name that is not there.
const UNNAMED: SlotName<'static> = SlotName {
    instance: None,
    variable: DeclaredName { bytes: b"?" },
};

impl fmt::Display for PartText<'_> {
    fn fmt<W: fmt::Write>(&self, f: &mut fmt::Formatter<W>) -> fmt::Result {
        match self.part {
            Part::Text(text) => f.write_str(text),
            Part::Place(place) => write!(f, "{place}"),
            part => {
                if let Some(value) = self.names.value_of(part) {
                    return write!(f, "{value}");
                }
                write!(f, "{}", self.names.find(part).unwrap_or(UNNAMED))?;
                match self.names.port_of(part) {
                    Some(port) => write!(f, ".{port}"),
                    None => Ok(()),
                }
            }
        }
    }
}

/// What is known of the current result before a word, and of the variable that the word names.
#[derive(Clone, Copy)]
pub struct KnownText<'a> {
    pub names: &'a TaskNames<'a>,
    pub word: Word,
    pub entry: &'a Entry,
}

impl KnownText<'_> {
    /// The variable that the word names, with what is known of it: what the word reads counts
    /// before what it writes.
    fn variable(&self) -> Option<(Part, Known)> {
        let operand = read_by(self.word).or(written_by(self.word))?;
        let WordOperand::Slot(slot) = operand else {
            return None;
        };
        let known = self.entry.slots.get(usize::from(slot))?;
        Some((Part::Operand(operand), known))
    }
}

impl fmt::Display for KnownText<'_> {
    fn fmt<W: fmt::Write>(&self, f: &mut fmt::Formatter<W>) -> fmt::Result {
        match self.entry.result {
            Some(known) => write!(f, "result {}", ValuesText { known })?,
            None => f.write_str("no result")?,
        }
        let Some((part, known)) = self.variable() else {
            return Ok(());
        };
        let names = self.names;
        write!(f, ", {} {}", PartText { names, part }, ValuesText { known })
    }
}

/// The values that something may have.
#[derive(Clone, Copy)]
pub struct ValuesText {
    pub known: Known,
}

impl fmt::Display for ValuesText {
    fn fmt<W: fmt::Write>(&self, f: &mut fmt::Formatter<W>) -> fmt::Result {
        match self.known {
            Known::Bool => f.write_str("BOOL"),
            Known::Int(Range { lo, hi }) if lo == hi => write!(f, "{lo}"),
            Known::Int(Range { lo, hi }) => write!(f, "{lo}..{hi}"),
        }
    }
}
