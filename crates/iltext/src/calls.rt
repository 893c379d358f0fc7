//! What follows CAL, CALC and CALCN (IEC 61131-3, 3.2.3).

ghost use Rattle.std.specs.Prelude.{◌≡◌};
ghost use Rattle.iltokens.specs.Items.{begins};
ghost use Rattle.iltokens.specs.Results.{Gives};
ghost use Rattle.iltext.specs.Calls.{argument, next_argument, arguments, passed, call};

use crate::operands::{spaced_operand, spaced_port};
use crate::reading::{delimiter, name, spaced_delimiter};
use crate::token::{Token, TokenKind};
use ilsource::{Argument, Arguments, Name, Symbol};
use iltokens::{Delimiter, ReadError, What};
use std::alloc::Global;

/// `port ":=" operand`, in a call of `block`.
#[tactic(auto, unfolding(crate::specs::Calls::argument))]
fn argument<'a>(
    block: Name,
    ts: &'a [Token],
) -> Result<(Argument<Symbol>, &'a [Token]), ReadError<'a, Token>>
    ensures { Gives (λ x. (x.0, x.1.now)) result ((argument block).read ts.now) }
{
    let (port, rest) = spaced_port(ts)?;
    let rest = spaced_delimiter(rest, Delimiter::Assign)?;
    let (operand, rest) = spaced_operand(rest)?;
    let port = Symbol::Port { block, port };
    Ok((Argument { port, operand }, rest))
}

#[tactic(auto, unfolding(crate::specs::Calls::next_argument, crate::specs::Terminals::delimiter))]
fn begins_next_argument(block: Name, ts: &[Token]) -> bool
    ensures { result ≡ begins (next_argument block) ts.now }
{
    matches!(
        ts,
        [
            Token {
                kind: TokenKind::Good(What::Delimiter(Delimiter::Comma)),
                ..
            },
            ..
        ]
    )
}

/// `"," argument`
#[tactic(auto, unfolding(crate::specs::Calls::next_argument))]
fn next_argument<'a>(
    block: Name,
    ts: &'a [Token],
) -> Result<(Argument<Symbol>, &'a [Token]), ReadError<'a, Token>>
    ensures { Gives (λ x. (x.0, x.1.now)) result ((next_argument block).read ts.now) }
{
    let rest = spaced_delimiter(ts, Delimiter::Comma)?;
    argument(block, rest)
}

/// `argument {"," argument}`
#[tactic(auto, unfolding(crate::specs::Calls::arguments))]
fn arguments<'a>(
    alloc: Global,
    block: Name,
    ts: &'a [Token],
) -> Result<(Vec<Argument<Symbol>>, &'a [Token]), ReadError<'a, Token>>
    ensures { Gives (λ x. (x.0.items, x.1.now)) result ((arguments block).read ts.now) }
{
    let (first, rest) = argument(block, ts)?;
    let mut all = Vec::new(alloc);
    all.push(first)?;
    let mut rest = rest;
    'more: while begins_next_argument(block, rest) {
        let (next, after) = next_argument(block, rest)?;
        all.push(next)?;
        rest = after;
    }
    Ok((all, rest))
}

/// `"(" arguments ")"`
#[tactic(auto, unfolding(crate::specs::Calls::passed))]
fn passed<'a>(
    alloc: Global,
    block: Name,
    ts: &'a [Token],
) -> Result<(Vec<Argument<Symbol>>, &'a [Token]), ReadError<'a, Token>>
    ensures { Gives (λ x. (x.0.items, x.1.now)) result ((passed block).read ts.now) }
{
    let rest = spaced_delimiter(ts, Delimiter::Open)?;
    let (all, rest) = arguments(alloc, block, rest)?;
    let rest = delimiter(rest, Delimiter::Close)?;
    Ok((all, rest))
}

#[tactic(auto, unfolding(crate::specs::Calls::passed, crate::specs::Terminals::delimiter))]
fn begins_passed(block: Name, ts: &[Token]) -> bool
    ensures { result ≡ begins (passed block) ts.now }
{
    matches!(
        ts,
        [
            Token {
                kind: TokenKind::Good(What::Delimiter(Delimiter::Open)),
                ..
            },
            ..
        ]
    )
}

/// `name ["(" argument {"," argument} ")"]`: a block instance, and what is passed to it.
#[tactic(auto, unfolding(crate::specs::Calls::call))]
pub(crate) fn call<'a>(
    alloc: Global,
    ts: &'a [Token],
) -> Result<((Name, Arguments<Symbol>), &'a [Token]), ReadError<'a, Token>>
    ensures { Gives (λ x. (x.0, x.1.now)) result (call.read ts.now) }
{
    let (block, rest) = name(ts)?;
    if begins_passed(block, rest) {
        let (arguments, rest) = passed(alloc, block, rest)?;
        Ok(((block, Arguments::new(arguments)), rest))
    } else {
        Ok(((block, Arguments::new(Vec::new(alloc))), rest))
    }
}
