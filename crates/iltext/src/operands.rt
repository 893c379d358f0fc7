//! What instructions name, and their operands (IEC 61131-3, 2.4.1.1 and 3.2).

ghost use Rattle.std.specs.Prelude.{◌≡◌};
ghost use Rattle.iltokens.specs.Items.{begins};
ghost use Rattle.iltokens.specs.Results.{Gives};
ghost use Rattle.iltext.specs.Terminals.{name, spaced};
ghost use Rattle.iltext.specs.Operands.{port, dot_port, symbol_of, symbol, literal, operand};
ghost use Rattle.iltext.specs.Operands.{spaced_dot_port, spaced_symbol, spaced_operand};

use crate::reading::{begins_name, delimiter, line_ends, name, spaced_delimiter, spaced_name};
use crate::token::{Token, TokenKind};
use ilsource::{Name, Operand, Symbol};
use iltokens::{Delimiter, Keyword, ReadError, What};
use iltypes::Value;

/// The name of a port: a word that is not reserved, or R.
#[tactic(auto, unfolding(crate::specs::Operands::port))]
fn port<'a>(ts: &'a [Token]) -> Result<(Name, &'a [Token]), ReadError<'a, Token>>
    ensures { Gives (λ x. (x.0, x.1.now)) result (port.read ts.now) }
{
    match ts {
        [first, rest @ ..] => match first.kind {
            TokenKind::Good(What::Name) | TokenKind::Good(What::Keyword(Keyword::R)) => Ok((
                Name {
                    from: first.from,
                    to: first.to,
                },
                rest,
            )),
            _ => Err(ReadError::Fault(ts)),
        },
        [] => Err(ReadError::Fault(ts)),
    }
}

/// The name of a port and the line ends after it.
pub(crate) fn spaced_port<'a>(ts: &'a [Token]) -> Result<(Name, &'a [Token]), ReadError<'a, Token>>
    ensures { Gives (λ x. (x.0, x.1.now)) result ((spaced port).read ts.now) }
{
    let (found, rest) = port(ts)?;
    Ok((found, line_ends(rest)))
}

/// Whether `.` stands first.
#[tactic(auto, unfolding(crate::specs::Operands::dot_port, crate::specs::Operands::spaced_dot_port, crate::specs::Terminals::delimiter))]
fn begins_dot_port(ts: &[Token]) -> bool
    ensures same_line { result ≡ begins dot_port ts.now }
    ensures spaced { result ≡ begins spaced_dot_port ts.now }
{
    matches!(
        ts,
        [
            Token {
                kind: TokenKind::Good(What::Delimiter(Delimiter::Dot)),
                ..
            },
            ..
        ]
    )
}

/// `"." port`
#[tactic(auto, unfolding(crate::specs::Operands::dot_port))]
fn dot_port<'a>(ts: &'a [Token]) -> Result<(Name, &'a [Token]), ReadError<'a, Token>>
    ensures { Gives (λ x. (x.0, x.1.now)) result (dot_port.read ts.now) }
{
    let rest = delimiter(ts, Delimiter::Dot)?;
    port(rest)
}

/// `name ["." port]`: a variable, or a port of a block instance.
#[tactic(auto, unfolding(crate::specs::Operands::symbol))]
pub(crate) fn symbol<'a>(ts: &'a [Token]) -> Result<(Symbol, &'a [Token]), ReadError<'a, Token>>
    ensures { Gives (λ x. (x.0, x.1.now)) result (symbol.read ts.now) }
{
    let (name, rest) = name(ts)?;
    if begins_dot_port(rest) {
        let (port, rest) = dot_port(rest)?;
        Ok((Symbol::Port { block: name, port }, rest))
    } else {
        Ok((Symbol::Variable(name), rest))
    }
}

/// TRUE, FALSE, a number, or a duration, which is the number of its milliseconds.
#[tactic(auto, unfolding(crate::specs::Operands::literal))]
fn literal<'a>(ts: &'a [Token]) -> Result<(Value, &'a [Token]), ReadError<'a, Token>>
    ensures { Gives (λ x. (x.0, x.1.now)) result (literal.read ts.now) }
{
    match ts {
        [first, rest @ ..] => {
            let value = match first.kind {
                TokenKind::Good(What::Keyword(Keyword::True)) => Value::Bool(true),
                TokenKind::Good(What::Keyword(Keyword::False)) => Value::Bool(false),
                TokenKind::Good(What::Number(number)) => Value::Int(number),
                TokenKind::Good(What::Time(milliseconds)) => Value::Int(i64::from(milliseconds)),
                _ => return Err(ReadError::Fault(ts)),
            };
            Ok((value, rest))
        }
        [] => Err(ReadError::Fault(ts)),
    }
}

/// Whether a word stands first that is not reserved.
#[tactic(auto, unfolding(crate::specs::Operands::symbol, crate::specs::Operands::spaced_symbol))]
fn begins_symbol(ts: &[Token]) -> bool
    ensures same_line { result ≡ begins symbol ts.now }
    ensures spaced { result ≡ begins spaced_symbol ts.now }
{
    begins_name(ts)
}

/// A variable, a port or a constant.
#[tactic(auto, unfolding(crate::specs::Operands::operand))]
pub(crate) fn operand<'a>(
    ts: &'a [Token],
) -> Result<(Operand<Symbol>, &'a [Token]), ReadError<'a, Token>>
    ensures { Gives (λ x. (x.0, x.1.now)) result (operand.read ts.now) }
{
    if begins_symbol(ts) {
        let (symbol, rest) = symbol(ts)?;
        Ok((Operand::Name(symbol), rest))
    } else {
        let (value, rest) = literal(ts)?;
        Ok((Operand::Constant(value), rest))
    }
}

/// `"." port`, each with the line ends after it.
#[tactic(auto, unfolding(crate::specs::Operands::spaced_dot_port))]
fn spaced_dot_port<'a>(ts: &'a [Token]) -> Result<(Name, &'a [Token]), ReadError<'a, Token>>
    ensures { Gives (λ x. (x.0, x.1.now)) result (spaced_dot_port.read ts.now) }
{
    let rest = spaced_delimiter(ts, Delimiter::Dot)?;
    spaced_port(rest)
}

/// `name ["." port]`, each with the line ends after it.
#[tactic(auto, unfolding(crate::specs::Operands::spaced_symbol))]
fn spaced_symbol<'a>(ts: &'a [Token]) -> Result<(Symbol, &'a [Token]), ReadError<'a, Token>>
    ensures { Gives (λ x. (x.0, x.1.now)) result (spaced_symbol.read ts.now) }
{
    let (name, rest) = spaced_name(ts)?;
    if begins_dot_port(rest) {
        let (port, rest) = spaced_dot_port(rest)?;
        Ok((Symbol::Port { block: name, port }, rest))
    } else {
        Ok((Symbol::Variable(name), rest))
    }
}

/// A variable, a port or a constant, with the line ends after each word and delimiter.
#[tactic(auto, unfolding(crate::specs::Operands::spaced_operand))]
pub(crate) fn spaced_operand<'a>(
    ts: &'a [Token],
) -> Result<(Operand<Symbol>, &'a [Token]), ReadError<'a, Token>>
    ensures { Gives (λ x. (x.0, x.1.now)) result (spaced_operand.read ts.now) }
{
    if begins_symbol(ts) {
        let (symbol, rest) = spaced_symbol(ts)?;
        Ok((Operand::Name(symbol), rest))
    } else {
        let (value, rest) = literal(ts)?;
        Ok((Operand::Constant(value), line_ends(rest)))
    }
}
