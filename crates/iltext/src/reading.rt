//! Single tokens, and the line ends after them.

ghost use Rattle.std.specs.Prelude.{◌≡◌, ◌<◌, List, length, IsTrue, Ok};
ghost use Rattle.iltokens.specs.Items.{begins};
ghost use Rattle.iltokens.specs.Results.{Gives};
ghost use Rattle.iltext.specs.Terminals.{word, delimiter, name, number, constant, closing};
ghost use Rattle.iltext.specs.Terminals.{line_ends, spaced, line_break, end};

use crate::token::{Token, TokenKind};
use ilsource::{Constant, Name};
use iltokens::{Delimiter, Keyword, ReadError, What};

/// This reserved word.
#[tactic(auto, unfolding(crate::specs::Terminals::word))]
pub(crate) fn word<'a>(
    ts: &'a [Token],
    wanted: Keyword,
) -> Result<&'a [Token], ReadError<'a, Token>>
    ensures { Gives (λ rest. (tt, rest.now)) result ((word wanted).read ts.now) }
{
    match ts {
        [
            Token {
                kind: TokenKind::Good(What::Keyword(found)),
                ..
            },
            rest @ ..,
        ] => {
            if *found == wanted {
                Ok(rest)
            } else {
                Err(ReadError::Fault(ts))
            }
        }
        _ => Err(ReadError::Fault(ts)),
    }
}

/// Whether this reserved word stands first.
#[tactic(auto, unfolding(crate::specs::Terminals::word))]
pub fn begins_word(ts: &[Token], wanted: Keyword) -> bool
    ensures { result ≡ begins (word wanted) ts.now }
{
    match ts {
        [
            Token {
                kind: TokenKind::Good(What::Keyword(found)),
                ..
            },
            ..
        ] => *found == wanted,
        _ => false,
    }
}

/// This delimiter.
#[tactic(auto, unfolding(crate::specs::Terminals::delimiter))]
pub(crate) fn delimiter<'a>(
    ts: &'a [Token],
    wanted: Delimiter,
) -> Result<&'a [Token], ReadError<'a, Token>>
    ensures { Gives (λ rest. (tt, rest.now)) result ((delimiter wanted).read ts.now) }
{
    match ts {
        [
            Token {
                kind: TokenKind::Good(What::Delimiter(found)),
                ..
            },
            rest @ ..,
        ] => {
            if *found == wanted {
                Ok(rest)
            } else {
                Err(ReadError::Fault(ts))
            }
        }
        _ => Err(ReadError::Fault(ts)),
    }
}

/// A word that is not reserved.
#[tactic(auto, unfolding(crate::specs::Terminals::name))]
pub(crate) fn name<'a>(ts: &'a [Token]) -> Result<(Name, &'a [Token]), ReadError<'a, Token>>
    ensures { Gives (λ x. (x.0, x.1.now)) result (name.read ts.now) }
{
    match ts {
        [first, rest @ ..] => match first.kind {
            TokenKind::Good(What::Name) => Ok((
                Name {
                    from: first.from,
                    to: first.to,
                },
                rest,
            )),
            _ => Err(ReadError::Fault(ts)),
        },
        [] => Err(ReadError::Fault(ts)),
    }
}

/// Whether a word stands first that is not reserved.
#[tactic(auto, unfolding(crate::specs::Terminals::name))]
pub fn begins_name(ts: &[Token]) -> bool
    ensures { result ≡ begins name ts.now }
{
    matches!(
        ts,
        [
            Token {
                kind: TokenKind::Good(What::Name),
                ..
            },
            ..
        ]
    )
}

/// TRUE, FALSE, a number or a duration.
#[tactic(auto, unfolding(crate::specs::Terminals::constant))]
pub(crate) fn constant<'a>(ts: &'a [Token]) -> Result<(Constant, &'a [Token]), ReadError<'a, Token>>
    ensures { Gives (λ x. (x.0, x.1.now)) result (constant.read ts.now) }
{
    match ts {
        [first, rest @ ..] => match first.kind {
            TokenKind::Good(What::Keyword(Keyword::True)) => Ok((Constant::Bool(true), rest)),
            TokenKind::Good(What::Keyword(Keyword::False)) => Ok((Constant::Bool(false), rest)),
            TokenKind::Good(What::Number(number)) => Ok((Constant::Number(number), rest)),
            TokenKind::Good(What::Time(milliseconds)) => Ok((Constant::Time(milliseconds), rest)),
            _ => Err(ReadError::Fault(ts)),
        },
        [] => Err(ReadError::Fault(ts)),
    }
}

/// A number.
#[tactic(auto, unfolding(crate::specs::Terminals::number))]
pub(crate) fn number<'a>(ts: &'a [Token]) -> Result<(i64, &'a [Token]), ReadError<'a, Token>>
    ensures { Gives (λ x. (x.0, x.1.now)) result (number.read ts.now) }
{
    match ts {
        [first, rest @ ..] => match first.kind {
            TokenKind::Good(What::Number(number)) => Ok((number, rest)),
            _ => Err(ReadError::Fault(ts)),
        },
        [] => Err(ReadError::Fault(ts)),
    }
}

/// `)`, by its place.
#[tactic(auto, unfolding(crate::specs::Terminals::closing))]
pub(crate) fn closing<'a>(ts: &'a [Token]) -> Result<(usize, &'a [Token]), ReadError<'a, Token>>
    ensures { Gives (λ x. (x.0, x.1.now)) result (closing.read ts.now) }
{
    match ts {
        [first, rest @ ..] => match first.kind {
            TokenKind::Good(What::Delimiter(Delimiter::Close)) => Ok((first.from, rest)),
            _ => Err(ReadError::Fault(ts)),
        },
        [] => Err(ReadError::Fault(ts)),
    }
}

/// Whether a line end stands first.
#[tactic(auto, unfolding(crate::specs::Terminals::delimiter, crate::specs::Terminals::line_break))]
pub(crate) fn begins_line_end(ts: &[Token]) -> bool
    ensures begins { result ≡ begins (delimiter Delimiter.LineEnd) ts.now }
    ensures breaks { result ≡ begins line_break ts.now }
    ensures some { IsTrue result → 0 < length ts.now }
{
    matches!(
        ts,
        [
            Token {
                kind: TokenKind::Good(What::Delimiter(Delimiter::LineEnd)),
                ..
            },
            ..
        ]
    )
}

/// What stands after the line ends.
pub fn line_ends(ts: &[Token]) -> &[Token]
    ensures { line_ends.read ts.now ≡ Ok (tt, result.now) }
{
    let mut rest = ts;
    'ends: while begins_line_end(rest) {
        let (_, after) = rest.split_at(1);
        rest = after;
    }
    rest
}

/// The end of a line, and the empty lines after it.
#[tactic(auto, unfolding(crate::specs::Terminals::line_break))]
pub(crate) fn line_break(ts: &[Token]) -> Result<&[Token], ReadError<'_, Token>>
    ensures { Gives (λ rest. (tt, rest.now)) result (line_break.read ts.now) }
{
    spaced_delimiter(ts, Delimiter::LineEnd)
}

/// This reserved word and the line ends after it.
pub fn spaced_word<'a>(
    ts: &'a [Token],
    wanted: Keyword,
) -> Result<&'a [Token], ReadError<'a, Token>>
    ensures { Gives (λ rest. (tt, rest.now)) result ((spaced (word wanted)).read ts.now) }
{
    let rest = word(ts, wanted)?;
    Ok(line_ends(rest))
}

/// This delimiter and the line ends after it.
pub fn spaced_delimiter<'a>(
    ts: &'a [Token],
    wanted: Delimiter,
) -> Result<&'a [Token], ReadError<'a, Token>>
    ensures { Gives (λ rest. (tt, rest.now)) result ((spaced (delimiter wanted)).read ts.now) }
{
    let rest = delimiter(ts, wanted)?;
    Ok(line_ends(rest))
}

/// A name and the line ends after it.
pub fn spaced_name<'a>(ts: &'a [Token]) -> Result<(Name, &'a [Token]), ReadError<'a, Token>>
    ensures { Gives (λ x. (x.0, x.1.now)) result ((spaced name).read ts.now) }
{
    let (found, rest) = name(ts)?;
    Ok((found, line_ends(rest)))
}

/// A number and the line ends after it.
pub fn spaced_number<'a>(ts: &'a [Token]) -> Result<(i64, &'a [Token]), ReadError<'a, Token>>
    ensures { Gives (λ x. (x.0, x.1.now)) result ((spaced number).read ts.now) }
{
    let (found, rest) = number(ts)?;
    Ok((found, line_ends(rest)))
}

/// A constant and the line ends after it.
pub fn spaced_constant<'a>(ts: &'a [Token]) -> Result<(Constant, &'a [Token]), ReadError<'a, Token>>
    ensures { Gives (λ x. (x.0, x.1.now)) result ((spaced constant).read ts.now) }
{
    let (found, rest) = constant(ts)?;
    Ok((found, line_ends(rest)))
}

/// The end of the tokens.
pub fn end(ts: &[Token]) -> Result<(), ReadError<'_, Token>>
    ensures { Gives (λ _. tt) result (end ts.now) }
{
    match ts {
        [] => Ok(()),
        [_, ..] => Err(ReadError::Fault(ts)),
    }
}
