//! Instructions and lines (IEC 61131-3, 3.2).

ghost use Rattle.std.specs.Prelude.{◌≡◌, List, length};
ghost use Rattle.iltokens.specs.Items.{begins};
ghost use Rattle.iltokens.specs.Results.{Gives};
ghost use Rattle.iltext.specs.Instructions.{line_of, applied, on_content, content, operands};
ghost use Rattle.iltext.specs.Instructions.{invoked, invocation, operation, instruction};
ghost use Rattle.iltext.specs.Instructions.{after_label, named_line, line, lines};

use crate::calls::call;
use crate::invocations::handed;
use crate::operands::{operand, symbol};
use crate::parentheses::{bounds, content, may_open};
use crate::reading::{begins_name, closing, delimiter, line_break, name};
use crate::roles::{OperatorRole, role_of};
use crate::token::{Token, TokenKind};
use ilsource::{Instruction, Line, Name, Nested, Operands, Symbol};
use iltokens::{Delimiter, ReadError, What};
use iltypes::Operator;
use limits::MOST_NESTING;
use std::alloc::Global;

/// An instruction at the place of its operator, with no label.
fn line_of(at: usize, instruction: Instruction<Symbol, Name>) -> Line<Symbol, Name>
    ensures { result ≡ line_of at instruction }
{
    Line {
        at,
        label: None,
        instruction: Some(instruction),
    }
}

/// `"(" content ")"`, after an operator.
#[tactic(auto, unfolding(crate::specs::Instructions::on_content))]
fn on_content<'a>(
    alloc: Global,
    operator: Operator,
    at: usize,
    ts: &'a [Token],
) -> Result<(Line<Symbol, Name>, &'a [Token]), ReadError<'a, Token>>
    ensures { Gives (λ x. (x.0, x.1.now)) result
        ((on_content (content 31) operator at).read ts.now) }
{
    let rest = delimiter(ts, Delimiter::Open)?;
    let mut pieces = Vec::new(alloc);
    let rest = content(MOST_NESTING - 1, at, &mut pieces, rest)?;
    let (close, rest) = closing(rest)?;
    let nested = Nested::new(pieces);
    let instruction = Instruction::Deferred {
        operator,
        nested,
        close,
    };
    Ok((line_of(at, instruction), rest))
}

/// What an operator is applied to: an operand, or parentheses.
fn applied<'a>(
    alloc: Global,
    operator: Operator,
    at: usize,
    ts: &'a [Token],
) -> Result<(Line<Symbol, Name>, &'a [Token]), ReadError<'a, Token>>
    ensures { Gives (λ x. (x.0, x.1.now)) result ((applied 32 operator at).read ts.now) }
{
    if may_open(MOST_NESTING, operator, ts) {
        on_content(alloc, operator, at, ts)
    } else {
        let (operand, rest) = operand(ts)?;
        Ok((line_of(at, Instruction::Apply(operator, operand)), rest))
    }
}

/// What follows an operator at a place.
fn operands<'a>(
    alloc: Global,
    role: OperatorRole,
    at: usize,
    ts: &'a [Token],
) -> Result<(Line<Symbol, Name>, &'a [Token]), ReadError<'a, Token>>
    ensures { Gives (λ x. (x.0, x.1.now)) result ((operands (applied 32) role at).read ts.now) }
{
    let (instruction, rest) = match role {
        OperatorRole::Load { negated } => {
            let (operand, rest) = operand(ts)?;
            (Instruction::Load { negated, operand }, rest)
        }
        OperatorRole::Apply(operator) => return applied(alloc, operator, at, ts),
        OperatorRole::Transform(function) => (Instruction::Transform(function), ts),
        OperatorRole::Limit => {
            let ((low, high), rest) = bounds(ts)?;
            (Instruction::Limit { low, high }, rest)
        }
        OperatorRole::Store { negated } => {
            let (variable, rest) = symbol(ts)?;
            (Instruction::Store { negated, variable }, rest)
        }
        OperatorRole::Set => {
            let (variable, rest) = symbol(ts)?;
            (Instruction::Set(variable), rest)
        }
        OperatorRole::Reset => {
            let (variable, rest) = symbol(ts)?;
            (Instruction::Reset(variable), rest)
        }
        OperatorRole::Jump(condition) => {
            let (label, rest) = name(ts)?;
            (Instruction::Jump(condition, label), rest)
        }
        OperatorRole::Return(condition) => (Instruction::Return(condition), ts),
        OperatorRole::Call(condition) => {
            let ((block, arguments), rest) = call(alloc, ts)?;
            let instruction = Instruction::Call {
                condition,
                instance: Symbol::Block(block),
                arguments,
            };
            (instruction, rest)
        }
    };
    Ok((line_of(at, instruction), rest))
}

/// What follows the name of a function that is called.
#[tactic(auto, unfolding(crate::specs::Instructions::invoked))]
fn invoked<'a>(
    alloc: Global,
    name: Name,
    ts: &'a [Token],
) -> Result<(Line<Symbol, Name>, &'a [Token]), ReadError<'a, Token>>
    ensures { Gives (λ x. (x.0, x.1.now)) result ((invoked name).read ts.now) }
{
    let (operands, rest) = handed(alloc, ts)?;
    let instruction = Instruction::Invoke {
        function: Symbol::Function(name),
        operands: Operands::new(operands),
    };
    Ok((line_of(name.from, instruction), rest))
}

/// `name [operand {"," operand}]`: a call of a function.
#[tactic(auto, unfolding(crate::specs::Instructions::invocation))]
fn invocation<'a>(
    alloc: Global,
    ts: &'a [Token],
) -> Result<(Line<Symbol, Name>, &'a [Token]), ReadError<'a, Token>>
    ensures { Gives (λ x. (x.0, x.1.now)) result (invocation.read ts.now) }
{
    let (name, rest) = name(ts)?;
    invoked(alloc, name, rest)
}

/// An operator and what follows it.
#[tactic(auto, unfolding(crate::specs::Instructions::operation))]
fn operation<'a>(
    alloc: Global,
    ts: &'a [Token],
) -> Result<(Line<Symbol, Name>, &'a [Token]), ReadError<'a, Token>>
    ensures { Gives (λ x. (x.0, x.1.now)) result (operation.read ts.now) }
{
    match ts {
        [first, rest @ ..] => match role_of(first.kind) {
            Some(role) => operands(alloc, role, first.from, rest),
            None => Err(ReadError::Fault(ts)),
        },
        [] => Err(ReadError::Fault(ts)),
    }
}

/// Whether an operator stands first.
#[tactic(auto, unfolding(crate::specs::Instructions::operation))]
fn begins_operation(ts: &[Token]) -> bool
    ensures { result ≡ begins operation ts.now }
{
    match ts {
        [] => false,
        [first, ..] => role_of(first.kind).is_some(),
    }
}

/// An operator and what follows it, or a call of a function.
#[tactic(auto, unfolding(crate::specs::Instructions::instruction))]
fn instruction<'a>(
    alloc: Global,
    ts: &'a [Token],
) -> Result<(Line<Symbol, Name>, &'a [Token]), ReadError<'a, Token>>
    ensures { Gives (λ x. (x.0, x.1.now)) result (instruction.read ts.now) }
{
    if begins_operation(ts) {
        operation(alloc, ts)
    } else {
        invocation(alloc, ts)
    }
}

/// Whether a name stands first, with which a call of a function begins, and so may a line.
#[tactic(auto, unfolding(crate::specs::Instructions::invocation, crate::specs::Instructions::named_line))]
fn begins_named(ts: &[Token]) -> bool
    ensures calls { result ≡ begins invocation ts.now }
    ensures lines { result ≡ begins named_line ts.now }
{
    begins_name(ts)
}

/// Whether an operator or a call of a function stands first.
#[tactic(auto, unfolding(crate::specs::Instructions::instruction))]
fn begins_instruction(ts: &[Token]) -> bool
    ensures { result ≡ begins instruction ts.now }
{
    begins_operation(ts) || begins_named(ts)
}

/// Whether `:` stands first, which makes the name before it a label.
#[tactic(auto, unfolding(crate::specs::Instructions::after_label, crate::specs::Terminals::delimiter))]
fn begins_after_label(label: Name, ts: &[Token]) -> bool
    ensures { result ≡ begins (after_label label) ts.now }
{
    matches!(
        ts,
        [
            Token {
                kind: TokenKind::Good(What::Delimiter(Delimiter::Colon)),
                ..
            },
            ..
        ]
    )
}

/// What follows a label: `:`, and the instruction after it, if one is written.
#[tactic(auto, unfolding(crate::specs::Instructions::after_label))]
fn after_label<'a>(
    alloc: Global,
    label: Name,
    ts: &'a [Token],
) -> Result<(Line<Symbol, Name>, &'a [Token]), ReadError<'a, Token>>
    ensures { Gives (λ x. (x.0, x.1.now)) result ((after_label label).read ts.now) }
{
    let rest = delimiter(ts, Delimiter::Colon)?;
    if begins_instruction(rest) {
        let (line, rest) = instruction(alloc, rest)?;
        let mut line = line;
        line.label = Some(label);
        Ok((line, rest))
    } else {
        let line = Line {
            at: label.from,
            label: Some(label),
            instruction: None,
        };
        Ok((line, rest))
    }
}

/// A label and the instruction after it, if one is written, or a call of a function.
#[tactic(auto, unfolding(crate::specs::Instructions::named_line, crate::specs::Instructions::after_name))]
fn named_line<'a>(
    alloc: Global,
    ts: &'a [Token],
) -> Result<(Line<Symbol, Name>, &'a [Token]), ReadError<'a, Token>>
    ensures { Gives (λ x. (x.0, x.1.now)) result (named_line.read ts.now) }
{
    let (name, rest) = name(ts)?;
    if begins_after_label(name, rest) {
        after_label(alloc, name, rest)
    } else {
        invoked(alloc, name, rest)
    }
}

/// A label, an instruction or both, the line end, and the empty lines after it.
#[tactic(auto, unfolding(crate::specs::Instructions::line))]
fn line<'a>(
    alloc: Global,
    ts: &'a [Token],
) -> Result<(Line<Symbol, Name>, &'a [Token]), ReadError<'a, Token>>
    ensures { Gives (λ x. (x.0, x.1.now)) result (line.read ts.now) }
{
    let (line, rest) = if begins_named(ts) {
        named_line(alloc, ts)?
    } else {
        operation(alloc, ts)?
    };
    let rest = line_break(rest)?;
    Ok((line, rest))
}

#[tactic(auto, unfolding(crate::specs::Instructions::line))]
fn begins_line(ts: &[Token]) -> bool
    ensures { result ≡ begins line ts.now }
{
    begins_named(ts) || begins_operation(ts)
}

/// `{line}`
pub fn lines<'a>(
    alloc: Global,
    ts: &'a [Token],
) -> Result<(Vec<Line<Symbol, Name>>, &'a [Token]), ReadError<'a, Token>>
    ensures { Gives (λ x. (x.0.items, x.1.now)) result (lines.read ts.now) }
{
    let mut all = Vec::new(alloc);
    let mut rest = ts;
    'all: while begins_line(rest) {
        let (one, after) = line(alloc, rest)?;
        all.push(one)?;
        rest = after;
    }
    Ok((all, rest))
}
