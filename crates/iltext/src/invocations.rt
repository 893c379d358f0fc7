//! What follows the name of a function that is called (IEC 61131-3, 3.2.3).

ghost use Rattle.std.specs.Prelude.{◌≡◌};
ghost use Rattle.iltokens.specs.Items.{begins};
ghost use Rattle.iltokens.specs.Results.{Gives};
ghost use Rattle.iltext.specs.Invocations.{next_operand, some_operands, handed};

use crate::operands::operand;
use crate::reading::delimiter;
use crate::token::{Token, TokenKind};
use ilsource::{Operand, Symbol};
use iltokens::{Delimiter, Keyword, ReadError, What};
use std::alloc::Global;

#[tactic(auto, unfolding(crate::specs::Invocations::next_operand, crate::specs::Terminals::delimiter))]
fn begins_next_operand(ts: &[Token]) -> bool
    ensures { result ≡ begins next_operand ts.now }
{
    matches!(
        ts,
        [
            Token {
                kind: TokenKind::Good(What::Delimiter(Delimiter::Comma)),
                ..
            },
            ..
        ]
    )
}

/// `"," operand`
#[tactic(auto, unfolding(crate::specs::Invocations::next_operand))]
fn next_operand<'a>(ts: &'a [Token]) -> Result<(Operand<Symbol>, &'a [Token]), ReadError<'a, Token>>
    ensures { Gives (λ x. (x.0, x.1.now)) result (next_operand.read ts.now) }
{
    let rest = delimiter(ts, Delimiter::Comma)?;
    operand(rest)
}

/// `operand {"," operand}`
#[tactic(auto, unfolding(crate::specs::Invocations::some_operands))]
fn some_operands<'a>(
    alloc: Global,
    ts: &'a [Token],
) -> Result<(Vec<Operand<Symbol>>, &'a [Token]), ReadError<'a, Token>>
    ensures { Gives (λ x. (x.0.items, x.1.now)) result (some_operands.read ts.now) }
{
    let (first, rest) = operand(ts)?;
    let mut all = Vec::new(alloc);
    all.push(first)?;
    let mut rest = rest;
    'more: while begins_next_operand(rest) {
        let (next, after) = next_operand(rest)?;
        all.push(next)?;
        rest = after;
    }
    Ok((all, rest))
}

/// Whether an operand stands first.
#[tactic(auto, unfolding(crate::specs::Invocations::some_operands, crate::specs::Operands::operand, crate::specs::Operands::symbol, crate::specs::Operands::literal, crate::specs::Terminals::name))]
fn begins_operand(ts: &[Token]) -> bool
    ensures { result ≡ begins some_operands ts.now }
{
    matches!(
        ts,
        [
            Token {
                kind: TokenKind::Good(
                    What::Name
                        | What::Number(_)
                        | What::Time(_)
                        | What::Keyword(Keyword::True)
                        | What::Keyword(Keyword::False),
                ),
                ..
            },
            ..
        ]
    )
}

/// `[operand {"," operand}]`: the arguments of a call but the first, which is the current result.
#[tactic(auto, unfolding(crate::specs::Invocations::handed))]
pub(crate) fn handed<'a>(
    alloc: Global,
    ts: &'a [Token],
) -> Result<(Vec<Operand<Symbol>>, &'a [Token]), ReadError<'a, Token>>
    ensures { Gives (λ x. (x.0.items, x.1.now)) result (handed.read ts.now) }
{
    if begins_operand(ts) {
        let (operands, rest) = some_operands(alloc, ts)?;
        Ok((operands, rest))
    } else {
        Ok((Vec::new(alloc), ts))
    }
}
