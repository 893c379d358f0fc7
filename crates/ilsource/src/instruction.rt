//! Instructions and lines (IEC 61131-3, 3.2).

ghost use Rattle.std.specs.Prelude.{◌≡◌, [], ◌∷◌, ◌++◌, replicate, take, vec_len};
ghost use Rattle.std.specs.Prelude.{OnErr, OnOk};
ghost use Rattle.ilsource.specs.Uses.{write_at};

use crate::arguments::Arguments;
use crate::nested::Nested;
use crate::operand::Operand;
use crate::operands::Operands;
use crate::uses::{Purpose, Use, push_invoked, push_use};
use iltypes::{Condition, Function, Operator};
use std::alloc::AllocError;

/// One instruction, over names `N` and labels `L`.
pub enum Instruction<N: Drop, L: Drop> {
    /// LD, LDN: the operand becomes the current result.
    Load {
        negated: bool,
        operand: Operand<N>,
    },
    /// `result := result OP operand`.
    Apply(Operator, Operand<N>),
    /// An operator with parentheses: `result := result OP (..)`.
    Deferred {
        operator: Operator,
        nested: Nested<N>,
        /// The place in the text of `)`.
        close: usize,
    },
    /// NOT, ABS, a conversion.
    Transform(Function),
    /// LIMIT low, high.
    Limit {
        low: Operand<N>,
        high: Operand<N>,
    },
    /// ST, STN: the variable becomes the current result.
    Store {
        negated: bool,
        variable: N,
    },
    /// S: the variable becomes TRUE where the current result is.
    Set(N),
    /// R: the variable becomes FALSE where the current result is TRUE.
    Reset(N),
    /// JMP, JMPC, JMPCN: on with the next line that has the label.
    Jump(Condition, L),
    /// RET, RETC, RETCN: the end of the program.
    Return(Condition),
    /// CAL, CALC, CALCN of a block instance: its arguments are stored, one after another.
    Call {
        condition: Condition,
        instance: N,
        arguments: Arguments<N>,
    },
    /// A call of a function: the current result and the operands are its arguments, and what it
    /// gives is the new result.
    Invoke {
        function: N,
        operands: Operands<N>,
    },
}

/// Written out, so that it is proved here alone.
impl<N: Drop, L: Drop> Drop for Instruction<N, L> {
    fn drop(self) {
        match self {
            Instruction::Load {
                negated: _,
                operand: _,
            } => {}
            Instruction::Apply(_, _) => {}
            Instruction::Deferred {
                operator: _,
                nested: _,
                close: _,
            } => {}
            Instruction::Transform(_) => {}
            Instruction::Limit { low: _, high: _ } => {}
            Instruction::Store {
                negated: _,
                variable: _,
            } => {}
            Instruction::Set(_) => {}
            Instruction::Reset(_) => {}
            Instruction::Jump(_, _) => {}
            Instruction::Return(_) => {}
            Instruction::Call {
                condition: _,
                instance: _,
                arguments: _,
            } => {}
            Instruction::Invoke {
                function: _,
                operands: _,
            } => {}
        }
    }
}

/// A line that is not empty: a label, an instruction, or both.
pub struct Line<N: Drop, L: Drop> {
    /// The place in the text of the instruction's first byte, after its label; of a label alone the
    /// place of the label's first byte.
    pub at: usize,
    pub label: Option<L>,
    pub instruction: Option<Instruction<N, L>>,
}

/// Written out, so that it is proved here alone.
impl<N: Drop, L: Drop> Drop for Line<N, L> {
    fn drop(self) {
        let Self {
            at: _,
            label: _,
            instruction: _,
        } = self;
    }
}

impl<N: Drop, L: Drop> Instruction<N, L> {
    ghost use Rattle.std.specs.Prelude.{min};
    ghost use Rattle.ilsource.specs.Words.{places_of, words_of};

    /// How many words of code the instruction is, and `usize::MAX` where it is more.
    pub fn words(&self) -> usize
        ensures { result ≡ min (words_of self.now) usize.MAX }
    {
        match self {
            Instruction::Deferred { nested, .. } => nested.pieces().len().saturating_add(2),
            Instruction::Limit { .. } => 2,
            Instruction::Call {
                condition: Condition::Always,
                arguments,
                ..
            } => arguments.as_slice().len().saturating_add(1),
            Instruction::Call { arguments, .. } => arguments.as_slice().len().saturating_add(2),
            Instruction::Invoke { operands, .. } => operands.as_slice().len().saturating_add(2),
            _ => 1,
        }
    }

    /// Adds the place of each word, of an instruction at this place. Out of memory, some of them
    /// may have been added.
    fn push_places(&self, at: usize, places: &mut Vec<usize>) -> Result<(), AllocError>
        ensures ok { OnOk result (places.new.items ≡ places.old.items ++ places_of at self.now) }
        ensures first { OnErr result
            (take (vec_len places.old) places.new.items ≡ places.old.items) }
    {
        match self {
            Instruction::Deferred { nested, close, .. } => {
                places.push(at)?;
                nested.push_places(places)?;
                places.push(*close)?;
                Ok(())
            }
            Instruction::Limit { .. } => push_same(places, at, 2),
            Instruction::Call {
                condition,
                arguments,
                ..
            } => {
                push_same(places, at, arguments.as_slice().len())?;
                match condition {
                    Condition::Always => push_same(places, at, 1),
                    Condition::IfTrue | Condition::IfFalse => push_same(places, at, 2),
                }
            }
            Instruction::Invoke { operands, .. } => {
                push_same(places, at, operands.as_slice().len())?;
                push_same(places, at, 2)
            }
            _ => push_same(places, at, 1),
        }
    }
}

/// Adds the same place as often as `times` says. Out of memory, some of them may have been added.
fn push_same(places: &mut Vec<usize>, at: usize, times: usize) -> Result<(), AllocError>
    ensures ok { OnOk result (places.new.items ≡ places.old.items ++ replicate times at) }
    ensures first { OnErr result (take (vec_len places.old) places.new.items ≡ places.old.items) }
{
    for _ in 0..times {
        places.push(at)?;
    }
    Ok(())
}

/// Adds that a variable is written.
fn push_write<N: Drop>(uses: &mut Vec<Use<N>>, at: usize, variable: N) -> Result<(), AllocError>
    ensures ok { OnOk result (uses.new.items ≡ uses.old.items ++ write_at at variable ∷ []) }
    ensures err { OnErr result (uses.new.items ≡ uses.old.items) }
{
    push_use(uses, at, Purpose::Write, Operand::Name(variable))
}

impl<N: Copy, L: Drop> Instruction<N, L> {
    ghost use Rattle.ilsource.specs.Uses.{uses_of};

    /// Adds what the instruction uses, at this place. Out of memory, some of it may have
    /// been added.
    fn push_uses(&self, at: usize, uses: &mut Vec<Use<N>>) -> Result<(), AllocError>
        ensures ok { OnOk result (uses.new.items ≡ uses.old.items ++ uses_of at self.now) }
        ensures first { OnErr result (take (vec_len uses.old) uses.new.items ≡ uses.old.items) }
    {
        match self {
            Instruction::Load { operand, .. } => push_use(uses, at, Purpose::Read, *operand),
            Instruction::Apply(_, operand) => push_use(uses, at, Purpose::Read, *operand),
            Instruction::Deferred { nested, .. } => nested.push_uses(uses),
            Instruction::Limit { low, high } => {
                push_use(uses, at, Purpose::Read, *low)?;
                push_use(uses, at, Purpose::Read, *high)
            }
            Instruction::Store { variable, .. } => push_write(uses, at, *variable),
            Instruction::Set(variable) => push_write(uses, at, *variable),
            Instruction::Reset(variable) => push_write(uses, at, *variable),
            Instruction::Call {
                instance,
                arguments,
                ..
            } => {
                push_use(uses, at, Purpose::Call, Operand::Name(*instance))?;
                arguments.push_uses(at, uses)
            }
            Instruction::Invoke { function, operands } => {
                push_invoked(uses, at, *function)?;
                operands.push_uses(at, uses)
            }
            Instruction::Transform(_) | Instruction::Jump(..) | Instruction::Return(_) => Ok(()),
        }
    }
}

impl<N: Drop, L: Drop> Line<N, L> {
    ghost use Rattle.std.specs.Prelude.{min};
    ghost use Rattle.ilsource.specs.Words.{places_in, words_in};

    /// How many words of code the line is, none where it is a label alone, and `usize::MAX` where
    /// it is more.
    pub fn words(&self) -> usize
        ensures { result ≡ min (words_in self.now) usize.MAX }
    {
        match &self.instruction {
            Some(instruction) => instruction.words(),
            None => 0,
        }
    }

    /// Adds the place in the text of each word of code that the line is.
    pub fn push_places(&self, places: &mut Vec<usize>) -> Result<(), AllocError>
        ensures ok { OnOk result (places.new.items ≡ places.old.items ++ places_in self.now) }
        ensures err { OnErr result (places.new.items ≡ places.old.items) }
    {
        let before = places.len();
        match &self.instruction {
            Some(instruction) => {
                let added = instruction.push_places(self.at, places);
                if added.is_err() {
                    places.truncate(before);
                }
                added
            }
            None => Ok(()),
        }
    }
}

impl<N: Copy, L: Drop> Line<N, L> {
    ghost use Rattle.ilsource.specs.Uses.{uses_in};

    /// Adds what the line uses, in the order of the text.
    pub fn push_uses(&self, uses: &mut Vec<Use<N>>) -> Result<(), AllocError>
        ensures ok { OnOk result (uses.new.items ≡ uses.old.items ++ uses_in self.now) }
        ensures err { OnErr result (uses.new.items ≡ uses.old.items) }
    {
        let before = uses.len();
        match &self.instruction {
            Some(instruction) => {
                let added = instruction.push_uses(self.at, uses);
                if added.is_err() {
                    uses.truncate(before);
                }
                added
            }
            None => Ok(()),
        }
    }
}
