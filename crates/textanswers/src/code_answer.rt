//! What is answered to bytes that may be a code file.

ghost use Rattle.std.specs.Prelude.{Some};
ghost use Rattle.textanswers.specs.CodePrinted.{printed};

use ilcodefile::{FileCause, FileFault};
use ilverify::Refusal;
use std::fmt;

/// What is answered to bytes that may be a code file.
#[derive(Clone, Copy, PartialEq, Eq, Debug)]
pub enum CodeAnswer {
    /// Their code is accepted: the number of its words, and the greatest number of them in a
    /// scan.
    Accepted { words: usize, bound: u32 },
    /// Their code is refused.
    Refused(Refusal),
    /// They are no code file: the first fault.
    Faulty(FileCause),
    /// The allocator is out of memory.
    Memory,
}

impl fmt::Display for CodeAnswer {
    ghost output = { λ answer. Some (printed answer) };

    fn fmt<W: fmt::Write>(&self, f: &mut fmt::Formatter<W>) -> fmt::Result {
        match self {
            CodeAnswer::Accepted { words, bound } => write!(f, "code words {words} bound {bound}"),
            CodeAnswer::Refused(refusal) => write!(f, "code {refusal}"),
            CodeAnswer::Faulty(cause) => write!(f, "{}", FileFault::Of(*cause)),
            CodeAnswer::Memory => write!(f, "no memory"),
        }
    }
}
