//! The words of lines.

ghost use Rattle.std.specs.Prelude.{◌≡◌, ◌≤◌, ◌+◌, ◌∷◌, ◌++◌, [], length, map, IfOk, OnOk};
ghost use Rattle.std.specs.List.{AllByRecursion};
ghost use Rattle.limits.specs.Limits.{most_words};
ghost use Rattle.ilsource.specs.Trees.{call_pieces};
ghost use Rattle.ilsource.specs.Words as counts;
ghost use Rattle.ilplan.specs.Plans.{all_lines};
ghost use Rattle.ilcode.specs.Words.{HasWord};
ghost use Rattle.ilcode.specs.declared.word.Word.TheVariants as variants;
ghost use Rattle.ilcompile.specs.Layout.{number_of as numbered, variable_of, word_of_argument};
ghost use Rattle.ilcompile.specs.Layout.{word_of, jump_over, words_of, words_in, words_of_lines};
ghost use Rattle.ilcompile.specs.Layout.{words_of_programs, starts_from, programs_of};
ghost use Rattle.ilcompile.specs.LayoutSteps.{gives_from};

use crate::numbers::{CodeNumbers, number_of, port_of};
use crate::targets::{count, next_target, targets};
use ilcode::{Target, Word};
use ilplan::{Place, ProgramInstance};
use ilsource::{Action, Argument, Instruction, Line, Operand, Piece};
use iltypes::{Condition, Operator};
use std::alloc::{AllocError, Global};

/// The place where each instance's first word stands, or would stand, and the words of all.
pub(crate) fn words(
    alloc: Global,
    numbers: &CodeNumbers<'_>,
    instances: &[ProgramInstance],
) -> Result<(Vec<usize>, Vec<Word>), AllocError>
    requires near { AllByRecursion HasWord
        (words_of_programs numbers.now 0 (programs_of instances.now)) }
    requires limit { counts.words_of_lines (all_lines instances.now) ≤ most_words }
    ensures starts { IfOk result (λ code.
        code.0.items ≡ starts_from 0 (programs_of instances.now)) }
    ensures words { IfOk result (λ code.
        code.1.items ≡ words_of_programs numbers.now 0 (programs_of instances.now)) }
    ensures long { IfOk result (λ code.
        length code.1.items ≡ counts.words_of_lines (all_lines instances.now)) }
{
    let mut starts = Vec::new(alloc);
    let mut words = Vec::new(alloc);
    for instance in instances {
        starts.push(words.len())?;
        push_lines(alloc, &mut words, numbers, instance.lines())?;
    }
    Ok((starts, words))
}

/// Adds the words of the lines of a program or of a function's body.
pub(crate) fn push_lines(
    alloc: Global,
    words: &mut Vec<Word>,
    numbers: &CodeNumbers<'_>,
    lines: &[Line<Place, usize>],
) -> Result<(), AllocError>
    requires near { AllByRecursion HasWord (words_of_lines numbers.now
        (length words.old.items + counts.words_of_lines lines.now) (length words.old.items)
        lines.now) }
    requires limit { length words.old.items + counts.words_of_lines lines.now ≤ most_words }
    ensures words { OnOk result (words.new.items ≡ words.old.items ++ words_of_lines numbers.now
        (length words.old.items + counts.words_of_lines lines.now) (length words.old.items)
        lines.now) }
    ensures long { OnOk result (length words.new.items
        ≡ length words.old.items + counts.words_of_lines lines.now) }
{
    let end = (words.len() + count(lines)) as u32;
    let mut targets = targets(alloc, words.len() as u32, lines)?;
    for line in lines {
        let next = (words.len() + line.words()) as u32;
        let target = next_target(&mut targets, &line.instruction);
        push_line(words, numbers, end, next, target, line)?;
    }
    Ok(())
}

/// Adds the words of a line, of a program or a body that ends at `end`; a jump over a call leads to
/// `next`, and one to a label to `target`.
fn push_line(
    words: &mut Vec<Word>,
    numbers: &CodeNumbers<'_>,
    end: u32,
    next: u32,
    target: u32,
    line: &Line<Place, usize>,
) -> Result<(), AllocError>
    requires near { AllByRecursion HasWord
        (words_in numbers.now end next (λ label. target) line.now) }
    ensures { OnOk result (words.new.items
        ≡ words.old.items ++ words_in numbers.now end next (λ label. target) line.now) }
{
    match &line.instruction {
        Some(instruction) => push_words(words, numbers, end, next, target, instruction),
        None => Ok(()),
    }
}

/// Adds the words of an instruction, of a program or a body that ends at `end`; a jump over a call
/// leads to `next`, and one to a label to `target`.
fn push_words(
    words: &mut Vec<Word>,
    numbers: &CodeNumbers<'_>,
    end: u32,
    next: u32,
    target: u32,
    instruction: &Instruction<Place, usize>,
) -> Result<(), AllocError>
    requires near { AllByRecursion HasWord
        (words_of numbers.now end next (λ label. target) instruction.now) }
    ensures { OnOk result (words.new.items
        ≡ words.old.items ++ words_of numbers.now end next (λ label. target) instruction.now) }
{
    match instruction {
        Instruction::Load { negated, operand } => push(words, load(numbers, *negated, *operand)),
        Instruction::Apply(operator, operand) => push(words, apply(numbers, *operator, *operand)),
        Instruction::Deferred {
            operator,
            nested,
            ..
        } => {
            push(words, Word::Open(*operator))?;
            push_pieces(words, numbers, nested.pieces())?;
            push(words, Word::Close)
        }
        Instruction::Transform(function) => push(words, Word::Transform(*function)),
        Instruction::Limit { low, high } => {
            push(words, apply(numbers, Operator::Max, *low))?;
            push(words, apply(numbers, Operator::Min, *high))
        }
        Instruction::Store { negated, variable } => {
            push(words, store(numbers, *negated, *variable))
        }
        Instruction::Set(place) => push(words, Word::Set(numbers.variable(*place))),
        Instruction::Reset(place) => push(words, Word::Reset(numbers.variable(*place))),
        Instruction::Jump(condition, _) => push(words, jump(*condition, target)),
        Instruction::Return(condition) => push(words, jump(*condition, end)),
        Instruction::Call {
            condition,
            instance,
            arguments,
        } => {
            push_jump_over(words, next, *condition)?;
            push_arguments(words, numbers, arguments.as_slice())?;
            push(words, call(*instance))
        }
        Instruction::Invoke { function, operands } => {
            push_invoke(words, numbers, *function, operands.as_slice())
        }
    }
}

/// Adds the words of a call of a function: the current result is stored to its first input, each
/// operand is given to another, and it is called.
fn push_invoke(
    words: &mut Vec<Word>,
    numbers: &CodeNumbers<'_>,
    function: Place,
    operands: &[Operand<Place>],
) -> Result<(), AllocError>
    requires near { AllByRecursion HasWord
        (map (λ p. word_of numbers.now p.action) (call_pieces 0 function operands.now)) }
    ensures { OnOk result (words.new.items ≡ words.old.items
        ++ map (λ p. word_of numbers.now p.action) (call_pieces 0 function operands.now)) }
{
    push(words, word(numbers, Action::Hand(function)))?;
    push_operands(words, numbers, function, operands)?;
    push(words, word(numbers, Action::Invoke(function)))
}

/// Adds the words that give operands to the inputs of a function, from its second one on.
fn push_operands(
    words: &mut Vec<Word>,
    numbers: &CodeNumbers<'_>,
    function: Place,
    operands: &[Operand<Place>],
) -> Result<(), AllocError>
    requires near { AllByRecursion HasWord (gives_from numbers.now function 1 operands.now) }
    ensures { OnOk result (words.new.items
        ≡ words.old.items ++ gives_from numbers.now function 1 operands.now) }
{
    for (number, operand) in operands.iter().enumerate() {
        let action = Action::Give {
            function,
            number: number + 1,
            operand: *operand,
        };
        words.push(word(numbers, action))?;
    }
    Ok(())
}

/// Adds the words of pieces.
fn push_pieces(
    words: &mut Vec<Word>,
    numbers: &CodeNumbers<'_>,
    pieces: &[Piece<Place>],
) -> Result<(), AllocError>
    requires near { AllByRecursion HasWord (map (λ p. word_of numbers.now p.action) pieces.now) }
    ensures { OnOk result (words.new.items
        ≡ words.old.items ++ map (λ p. word_of numbers.now p.action) pieces.now) }
{
    for piece in pieces {
        words.push(word(numbers, piece.action))?;
    }
    Ok(())
}

/// Adds the jump over a call that is not carried out.
fn push_jump_over(words: &mut Vec<Word>, next: u32, condition: Condition) -> Result<(), AllocError>
    ensures { OnOk result (words.new.items ≡ words.old.items ++ jump_over next condition) }
{
    match condition {
        Condition::Always => Ok(()),
        Condition::IfTrue => push(words, jump(Condition::IfFalse, next)),
        Condition::IfFalse => push(words, jump(Condition::IfTrue, next)),
    }
}

/// Adds the words of arguments.
fn push_arguments(
    words: &mut Vec<Word>,
    numbers: &CodeNumbers<'_>,
    arguments: &[Argument<Place>],
) -> Result<(), AllocError>
    requires near { AllByRecursion HasWord (map (word_of_argument numbers.now) arguments.now) }
    ensures { OnOk result (words.new.items
        ≡ words.old.items ++ map (word_of_argument numbers.now) arguments.now) }
{
    for argument in arguments {
        words.push(pass(numbers, *argument))?;
    }
    Ok(())
}

/// Adds a word.
pub(crate) fn push(words: &mut Vec<Word>, word: Word) -> Result<(), AllocError>
    ensures { OnOk result (words.new.items ≡ words.old.items ++ word ∷ []) }
{
    words.push(word)?;
    Ok(())
}

/// The word of a piece.
fn word(numbers: &CodeNumbers<'_>, action: Action<Place>) -> Word
    requires near { HasWord (word_of numbers.now action) }
    ensures { result ≡ word_of numbers.now action }
{
    match action {
        Action::Load { negated, operand } => load(numbers, negated, operand),
        Action::Apply(operator, operand) => apply(numbers, operator, operand),
        Action::Transform(function) => Word::Transform(function),
        Action::Open(operator) => Word::Open(operator),
        Action::Close => Word::Close,
        Action::Hand(function) => hand(numbers, function),
        Action::Give {
            function,
            number,
            operand,
        } => give(numbers, function, number, operand),
        Action::Invoke(function) => Word::Invoke(numbers.function(function).number),
    }
}

/// LD, LDN.
fn load(numbers: &CodeNumbers<'_>, negated: bool, operand: Operand<Place>) -> Word
    requires near { HasWord (word_of numbers.now (Action.Load negated operand)) }
    ensures { result ≡ word_of numbers.now (Action.Load negated operand) }
{
    Word::Load {
        negated,
        operand: numbers.operand(operand),
    }
}

/// An operator with its operand.
fn apply(numbers: &CodeNumbers<'_>, operator: Operator, operand: Operand<Place>) -> Word
    requires near { HasWord (word_of numbers.now (Action.Apply operator operand)) }
    ensures { result ≡ word_of numbers.now (Action.Apply operator operand) }
{
    Word::Apply(operator, numbers.operand(operand))
}

/// The current result goes to a function's first input.
fn hand(numbers: &CodeNumbers<'_>, function: Place) -> Word
    ensures { result ≡ word_of numbers.now (Action.Hand function) }
{
    Word::Store {
        negated: false,
        variable: Target::Slot(numbers.function(function).first),
    }
}

/// An operand goes to the function's input of this number.
fn give(numbers: &CodeNumbers<'_>, function: Place, number: usize, operand: Operand<Place>) -> Word
    requires near { HasWord (word_of numbers.now (Action.Give function number operand)) }
    ensures { result ≡ word_of numbers.now (Action.Give function number operand) }
{
    Word::Give {
        operand: numbers.operand(operand),
        slot: (usize::from(numbers.function(function).first) + number) as u16,
    }
}

/// ST, STN.
fn store(numbers: &CodeNumbers<'_>, negated: bool, place: Place) -> Word
    requires near { HasWord (variants.Store negated (variable_of numbers.now place)) }
    ensures { result ≡ variants.Store negated (variable_of numbers.now place) }
{
    Word::Store {
        negated,
        variable: numbers.variable(place),
    }
}

/// An argument of a call.
fn pass(numbers: &CodeNumbers<'_>, argument: Argument<Place>) -> Word
    requires near { HasWord (word_of_argument numbers.now argument) }
    ensures { result ≡ word_of_argument numbers.now argument }
{
    Word::Pass {
        port: port_of(argument.port),
        block: number_of(argument.port) as u16,
        operand: numbers.operand(argument.operand),
    }
}

/// CAL of a block instance.
fn call(instance: Place) -> Word
    requires near { HasWord (variants.Call (numbered instance)) }
    ensures { result ≡ variants.Call (numbered instance) }
{
    Word::Call(number_of(instance) as u16)
}

/// A jump to a place.
fn jump(condition: Condition, target: u32) -> Word
    ensures { result ≡ variants.Jump condition target }
{
    Word::Jump { condition, target }
}
