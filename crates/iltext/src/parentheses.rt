//! What stands in parentheses (IEC 61131-3, 3.2.2). Its pieces are added to one vector.

ghost use Rattle.std.specs.Prelude.{◌≡◌, ◌<◌, [], ◌∷◌, ◌++◌, length, IsTrue, OnOk};
ghost use Rattle.ilsource.specs.Trees.{piece, pieces_of, Load};
ghost use Rattle.iltokens.specs.Items.{begins};
ghost use Rattle.iltokens.specs.Results.{Gives, extend};
ghost use Rattle.iltokens.specs.declared.lexed.Delimiter.TheVariants as delimiters;
ghost use Rattle.iltext.specs.Terminals.{delimiter, ended};
ghost use Rattle.iltext.specs.Operands.{operand};
ghost use Rattle.iltext.specs.Instructions.{bounds, load, beginning, applied, on_content};
ghost use Rattle.iltext.specs.Instructions.{operands, invocation, inner, content};
ghost use Rattle.iltext.specs.InstructionSteps.{pieces_in, may_open};
ghost use Rattle.iltext.specs.Roles.{may_nest};

use crate::invocations::handed;
use crate::operands::operand;
use crate::reading::{begins_line_end, begins_name, closing, delimiter, line_break, name};
use crate::roles::{OperatorRole, inner_role_of, role_of};
use crate::token::{Token, TokenKind};
use ilsource::{Action, Operand, Piece, Symbol, push_call};
use iltokens::{Delimiter, ReadError, What};
use iltypes::Operator;
use std::alloc::AllocError;

/// Whether `(` stands first.
#[tactic(auto, unfolding(crate::specs::Terminals::delimiter))]
fn opens(ts: &[Token]) -> bool
    ensures { result ≡ begins (delimiter delimiters.Open) ts.now }
{
    matches!(
        ts,
        [
            Token {
                kind: TokenKind::Good(What::Delimiter(Delimiter::Open)),
                ..
            },
            ..
        ]
    )
}

/// `operand "," operand`
#[tactic(auto, unfolding(crate::specs::Instructions::bounds))]
pub(crate) fn bounds<'a>(
    ts: &'a [Token],
) -> Result<((Operand<Symbol>, Operand<Symbol>), &'a [Token]), ReadError<'a, Token>>
    ensures { Gives (λ x. (x.0, x.1.now)) result (bounds.read ts.now) }
{
    let (low, rest) = operand(ts)?;
    let rest = delimiter(rest, Delimiter::Comma)?;
    let (high, rest) = operand(rest)?;
    Ok(((low, high), rest))
}

/// Adds a piece.
fn push(
    pieces: &mut Vec<Piece<Symbol>>,
    at: usize,
    action: Action<Symbol>,
) -> Result<(), AllocError>
    ensures { OnOk result (pieces.new.items ≡ pieces.old.items ++ piece at action ∷ []) }
{
    pieces.push(Piece { at, action })?;
    Ok(())
}

/// LD or LDN and an operand: its place, whether the modifier N stands there, and the operand.
#[tactic(auto, unfolding(crate::specs::Instructions::load))]
fn load<'a>(
    ts: &'a [Token],
) -> Result<((usize, bool, Operand<Symbol>), &'a [Token]), ReadError<'a, Token>>
    ensures { Gives (λ x. (Load x.0.0 x.0.1 x.0.2, x.1.now)) result (load.read ts.now) }
{
    match ts {
        [first, rest @ ..] => match role_of(first.kind) {
            Some(OperatorRole::Load { negated }) => {
                let (operand, rest) = operand(rest)?;
                Ok(((first.from, negated, operand), rest))
            }
            _ => Err(ReadError::Fault(ts)),
        },
        [] => Err(ReadError::Fault(ts)),
    }
}

/// With what the content begins, after an operator at this place and `(`: LD or LDN on the next
/// line, or an operand.
#[tactic(auto, unfolding(crate::specs::Instructions::beginning))]
fn beginning<'a>(
    at: usize,
    ts: &'a [Token],
) -> Result<((usize, bool, Operand<Symbol>), &'a [Token]), ReadError<'a, Token>>
    ensures { Gives (λ x. (Load x.0.0 x.0.1 x.0.2, x.1.now)) result ((beginning at).read ts.now) }
{
    if begins_line_end(ts) {
        let rest = line_break(ts)?;
        let (loaded, rest) = load(rest)?;
        let rest = line_break(rest)?;
        Ok((loaded, rest))
    } else {
        let (operand, rest) = operand(ts)?;
        let rest = line_break(rest)?;
        Ok(((at, false, operand), rest))
    }
}

/// `"(" content ")"`, after an operator.
#[cycle(nest)]
#[tactic(auto, unfolding(crate::specs::Instructions::on_content))]
fn on_content<'a>(
    more: usize,
    operator: Operator,
    at: usize,
    pieces: &mut Vec<Piece<Symbol>>,
    ts: &'a [Token],
) -> Result<&'a [Token], ReadError<'a, Token>>
    ensures { Gives (λ rest. (pieces.new.items, rest.now)) result
        (extend pieces_in pieces.old.items ((on_content (content more) operator at).read ts.now)) }
{
    let rest = delimiter(ts, Delimiter::Open)?;
    push(pieces, at, Action::Open(operator))?;
    let rest = content(more, at, pieces, rest)?;
    let (close, rest) = closing(rest)?;
    push(pieces, close, Action::Close)?;
    Ok(rest)
}

/// Whether `(` stands after an operator that may be deferred, where `more` may be opened.
pub(crate) fn may_open(more: usize, operator: Operator, ts: &[Token]) -> bool
    ensures opens { result ≡ may_open more operator ts.now }
    ensures some { IsTrue result → 0 < more }
{
    more > 0 && operator.may_defer() && opens(ts)
}

/// What an operator is applied to in parentheses, where `more` may still be opened.
#[cycle(nest)]
fn applied<'a>(
    more: usize,
    operator: Operator,
    at: usize,
    pieces: &mut Vec<Piece<Symbol>>,
    ts: &'a [Token],
) -> Result<&'a [Token], ReadError<'a, Token>>
    ensures { Gives (λ rest. (pieces.new.items, rest.now)) result
        (extend pieces_in pieces.old.items ((applied more operator at).read ts.now)) }
{
    if may_open(more, operator, ts) {
        on_content(more - 1, operator, at, pieces, ts)
    } else {
        let (operand, rest) = operand(ts)?;
        push(pieces, at, Action::Apply(operator, operand))?;
        Ok(rest)
    }
}

/// What follows an operator in parentheses.
#[cycle(nest)]
fn operands<'a>(
    more: usize,
    role: OperatorRole,
    at: usize,
    pieces: &mut Vec<Piece<Symbol>>,
    ts: &'a [Token],
) -> Result<&'a [Token], ReadError<'a, Token>>
    requires { IsTrue (may_nest role) }
    ensures { Gives (λ rest. (pieces.new.items, rest.now)) result
        (extend pieces_in pieces.old.items ((operands (applied more) role at).read ts.now)) }
{
    match role {
        OperatorRole::Load { negated } => {
            let (operand, rest) = operand(ts)?;
            push(pieces, at, Action::Load { negated, operand })?;
            Ok(rest)
        }
        OperatorRole::Apply(operator) => applied(more, operator, at, pieces, ts),
        OperatorRole::Transform(function) => {
            push(pieces, at, Action::Transform(function))?;
            Ok(ts)
        }
        OperatorRole::Limit => {
            let ((low, high), rest) = bounds(ts)?;
            push(pieces, at, Action::Apply(Operator::Max, low))?;
            push(pieces, at, Action::Apply(Operator::Min, high))?;
            Ok(rest)
        }
        OperatorRole::Store { .. }
        | OperatorRole::Set
        | OperatorRole::Reset
        | OperatorRole::Jump(_)
        | OperatorRole::Return(_)
        | OperatorRole::Call(_) => { unreachable!() }
    }
}

/// A call of a function in parentheses: its name, and the operands.
#[tactic(auto, unfolding(crate::specs::Instructions::invocation, crate::specs::Instructions::invoked))]
fn invocation<'a>(
    pieces: &mut Vec<Piece<Symbol>>,
    ts: &'a [Token],
) -> Result<&'a [Token], ReadError<'a, Token>>
    ensures { Gives (λ rest. (pieces.new.items, rest.now)) result
        (extend pieces_in pieces.old.items (invocation.read ts.now)) }
{
    let alloc = *pieces.allocator();
    let (function, rest) = name(ts)?;
    let (operands, rest) = handed(alloc, rest)?;
    push_call(pieces, function.from, Symbol::Function(function), &operands)?;
    Ok(rest)
}

/// An operator in parentheses and what follows it, or a call of a function.
#[cycle(nest)]
#[tactic(auto, unfolding(crate::specs::Instructions::inner_of, crate::specs::Instructions::inner_operation))]
fn inner<'a>(
    more: usize,
    pieces: &mut Vec<Piece<Symbol>>,
    ts: &'a [Token],
) -> Result<&'a [Token], ReadError<'a, Token>>
    ensures { Gives (λ rest. (pieces.new.items, rest.now)) result
        (extend pieces_in pieces.old.items ((inner more).read ts.now)) }
{
    match ts {
        [first, rest @ ..] => match inner_role_of(first.kind) {
            Some(role) => operands(more, role, first.from, pieces, rest),
            None => invocation(pieces, ts),
        },
        [] => Err(ReadError::Fault(ts)),
    }
}

/// An instruction in parentheses, its line end, and the empty lines after it.
#[cycle(nest)]
fn inner_line<'a>(
    more: usize,
    pieces: &mut Vec<Piece<Symbol>>,
    ts: &'a [Token],
) -> Result<&'a [Token], ReadError<'a, Token>>
    ensures { Gives (λ rest. (pieces.new.items, rest.now)) result
        (extend pieces_in pieces.old.items ((ended (inner more)).read ts.now)) }
{
    let rest = inner(more, pieces, ts)?;
    line_break(rest)
}

#[tactic(auto, unfolding(crate::specs::Instructions::inner_of, crate::specs::Instructions::inner_operation, crate::specs::Instructions::invocation))]
fn begins_inner(more: usize, ts: &[Token]) -> bool
    ensures { result ≡ begins (ended (inner more)) ts.now }
{
    match ts {
        [] => false,
        [first, ..] => inner_role_of(first.kind).is_some() || begins_name(ts),
    }
}

/// The content of parentheses after an operator at this place, where `more` may still be opened.
#[cycle(nest)]
pub(crate) fn content<'a>(
    more: usize,
    at: usize,
    pieces: &mut Vec<Piece<Symbol>>,
    ts: &'a [Token],
) -> Result<&'a [Token], ReadError<'a, Token>>
    ensures { Gives (λ rest. (pieces.new.items, rest.now)) result
        (extend pieces_of pieces.old.items ((content more at).read ts.now)) }
{
    let ((first, negated, operand), rest) = beginning(at, ts)?;
    push(pieces, first, Action::Load { negated, operand })?;
    let mut rest = rest;
    'all: while begins_inner(more, rest) {
        rest = inner_line(more, pieces, rest)?;
    }
    Ok(rest)
}
