//! What words name, and the lines that they stand on.

use ilcode::{Code, Target, Word, WordOperand};

/// The line of the text from which the word at a place of a code comes, counted from 1; 0 where
/// there is none.
pub fn line_at(code: &Code, place: usize) -> usize {
    match code.lines().get(place) {
        Some(line) => *line as usize,
        None => 0,
    }
}

/// The operand that a word reads.
pub fn read_by(word: Word) -> Option<WordOperand> {
    match word {
        Word::Load { operand, .. } | Word::Pass { operand, .. } | Word::Give { operand, .. } => {
            Some(operand)
        }
        Word::Apply(_, operand) => Some(operand),
        _ => None,
    }
}

/// The variable or the port that a word writes, as an operand.
pub fn written_by(word: Word) -> Option<WordOperand> {
    match word {
        Word::Store { variable, .. } | Word::Set(variable) | Word::Reset(variable) => {
            match variable {
                Target::Slot(slot) => Some(WordOperand::Slot(slot)),
                Target::Port { port, block } => Some(WordOperand::Port { port, block }),
            }
        }
        Word::Pass { port, block, .. } => Some(WordOperand::Port { port, block }),
        Word::Give { slot, .. } => Some(WordOperand::Slot(slot)),
        _ => None,
    }
}
