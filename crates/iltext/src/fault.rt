//! Why a text was refused.

ghost use Rattle.std.specs.Prelude.{◌≡◌, ◌≤◌, length, false, Some};
ghost use Rattle.iltext.specs.Faults.{text_fault_number, number_of_cause, cause_of_kind, cause_at};
ghost use Rattle.iltext.specs.Faults.{is_deferrable, defers, open_after, open_after_all};
ghost use Rattle.iltext.specs.Faults.{place_at, Reports};

use crate::roles::{OperatorRole, is_inner, role_of};
use crate::token::{Token, TokenKind};
use ilsource::LineColumn;
use iltokens::{Delimiter, LexicalCause, What};
use limits::MOST_NESTING;
use std::fmt;
use thiserror::Error;

/// What stands where a text goes on as none.
#[derive(Clone, Copy, PartialEq, Eq, Debug)]
pub enum TextCause {
    /// A byte of 80 hex or more outside comments.
    NotAscii,
    /// A byte that begins no token.
    BadToken,
    /// A token, or the end of the text.
    Unexpected,
    /// A number or time outside its limit.
    BadNumber,
    /// A `(` where 32 parentheses of operators are open.
    TooDeep,
    /// A reserved word that stands only outside parentheses.
    NotNested,
    /// A comment without end.
    CommentOpen,
    /// A text of more than 1,048,576 bytes.
    TooLong,
}

impl TextCause {
    /// The number by which the fault is printed.
    pub fn number(self) -> u8
        ensures { result ≡ number_of_cause self }
    {
        match self {
            TextCause::NotAscii => 2,
            TextCause::BadToken => 3,
            TextCause::Unexpected => 4,
            TextCause::BadNumber => 5,
            TextCause::TooDeep => 6,
            TextCause::NotNested => 7,
            TextCause::CommentOpen => 8,
            TextCause::TooLong => 9,
        }
    }
}

/// Why a text was refused.
#[derive(Debug, Drop, Error)]
pub enum TextFault {
    /// Out of memory.
    Memory,
    /// The first fault of the text; line and column count from 1, the column in bytes.
    At {
        line: usize,
        col: usize,
        cause: TextCause,
    },
}

impl fmt::Display for TextFault {
    ghost use Rattle.iltext.specs.Printed.{printed};

    ghost output = { λ fault. Some (printed fault) };

    fn fmt<W: fmt::Write>(&self, f: &mut fmt::Formatter<W>) -> fmt::Result {
        match self {
            TextFault::Memory => write!(f, "no memory"),
            TextFault::At { line, col, cause } => {
                write!(f, "text fault {} at {line}:{col}", cause.number())
            }
        }
    }
}

impl TextFault {
    /// The number by which the fault is printed.
    pub fn number(&self) -> u8
        ensures { result ≡ text_fault_number self.now }
    {
        match self {
            TextFault::Memory => 1,
            TextFault::At { cause, .. } => cause.number(),
        }
    }
}

/// Whether a token is an operator that may be deferred.
fn defers(kind: TokenKind) -> bool
    ensures { result ≡ defers kind }
{
    match role_of(kind) {
        Some(OperatorRole::Apply(operator)) => operator.may_defer(),
        _ => false,
    }
}

/// How many parentheses of operators are open after these tokens.
fn open_after(before: &[Token]) -> usize
    ensures { result ≡ open_after_all false 0 before.now }
{
    let mut count: usize = 0;
    let mut deferred = false;
    'tokens: for token in before {
        match token.kind {
            TokenKind::Good(What::Delimiter(Delimiter::Open)) => {
                if deferred {
                    count += 1;
                }
            }
            TokenKind::Good(What::Delimiter(Delimiter::Close)) => count = count.saturating_sub(1),
            _ => {}
        }
        deferred = defers(token.kind);
    }
    count
}

/// What stands at the first of the tokens that are left, after those before it.
fn cause_at(before: &[Token], rest: &[Token]) -> TextCause
    ensures { result ≡ cause_at before.now rest.now }
{
    match rest {
        [] => TextCause::Unexpected,
        [first, ..] => match first.kind {
            TokenKind::Bad(LexicalCause::NotAscii) => TextCause::NotAscii,
            TokenKind::Bad(LexicalCause::BadToken) => TextCause::BadToken,
            TokenKind::Bad(LexicalCause::BadNumber) => TextCause::BadNumber,
            TokenKind::Bad(LexicalCause::CommentOpen) => TextCause::CommentOpen,
            TokenKind::Good(What::Delimiter(Delimiter::Open)) => {
                if open_after(before) >= MOST_NESTING {
                    TextCause::TooDeep
                } else {
                    TextCause::Unexpected
                }
            }
            TokenKind::Good(What::Keyword(word)) => {
                if open_after(before) > 0 && !is_inner(word) {
                    TextCause::NotNested
                } else {
                    TextCause::Unexpected
                }
            }
            _ => TextCause::Unexpected,
        },
    }
}

/// The place of the first of these tokens in a text; the end of a text counts as a token just past
/// its last byte.
fn place_at(text: &[u8], rest: &[Token]) -> usize
    ensures { result ≡ place_at text.now rest.now }
{
    match rest {
        [] => text.len(),
        [first, ..] => first.from,
    }
}

/// The fault at the first of the tokens that are left, after those before it.
pub(crate) fn fault_at(text: &[u8], before: &[Token], rest: &[Token]) -> TextFault
    requires { place_at text.now rest.now ≤ length text.now }
    ensures { Reports text.now before.now rest.now result }
{
    let place = LineColumn::of(text, place_at(text, rest));
    TextFault::At {
        line: place.line,
        col: place.col,
        cause: cause_at(before, rest),
    }
}
