//! Slots for more or less than a word: how many bytes stand in them.

use crate::bytes::{byte_at, digits_len, place_of_any, place_of_pair};
use crate::kinds::is_name;
use crate::slots::is_written;
use explaincures::{Spot, content_len, part};

/// What stands in a slot for more or less than a word.
#[derive(Clone, Copy)]
pub(crate) enum Span {
    /// A word or a number with its port, its dots and its sign.
    Value,
    Digits,
    /// This number of digits.
    Exactly(usize),
    /// What stands before a dot.
    Whole,
    /// The rest of the line.
    Rest,
    /// All up to the sign that begins a comment, with it.
    Opens,
    /// All up to the sign that ends a comment.
    Closes,
    /// What stands in parentheses, with them.
    Range,
    /// A name, with its port.
    Target,
    /// A sign of an assignment.
    Given,
    /// An operator of Structured Text.
    Operator,
    /// The same, where it is no word and is not `=` with a blank behind it.
    Sign,
    /// The rest of the line between two signs, with them.
    Within(&'static str, &'static str),
}

/// Signs and words of operators, and what they are here.
macro_rules! operators {
    ($($sign:literal $word:literal,)+) => { &[$(($sign, $word)),+] };
}

/// Operators of Structured Text, and their words.
const OPERATORS: &[(&str, &str)] = operators! {
    "AND" "AND", "&" "AND", "OR" "OR", "XOR" "XOR", "MOD" "MOD", "+" "ADD", "-" "SUB",
    "*" "MUL", "/" "DIV", "==" "EQ", "=" "EQ", "<>" "NE", "<=" "LE", "<" "LT",
    ">=" "GE", ">" "GT",
};

/// How many bytes stand in a slot at a place; 0 where something else does.
pub(crate) fn span_len(here: &Spot, span: Span) -> usize {
    let rest = here.rest();
    match span {
        Span::Value => value_len(here),
        Span::Digits => digits_len(rest),
        Span::Exactly(count) if digits_len(rest) == count => count,
        Span::Exactly(_) => 0,
        Span::Whole => place_of_any(rest, b".").unwrap_or(0),
        Span::Rest => content_len(rest),
        Span::Opens => opens_len(rest),
        Span::Closes => place_of_pair(rest, b"*)").unwrap_or(0),
        Span::Range => range_len(rest),
        Span::Target if is_name(here.token()) => literal_len(here),
        Span::Target => 0,
        Span::Given => given_len(rest),
        Span::Operator => operator_of(here).0,
        Span::Sign if is_sign(rest) => operator_of(here).0,
        Span::Sign => 0,
        Span::Within(open, close) if bracket_len(rest, open, close) > 0 => content_len(rest),
        Span::Within(..) => 0,
    }
}

/// How many bytes a value has.
fn value_len(here: &Spot) -> usize {
    let word = here.token();
    if matches!(byte_at(word, 0), b'+' | b'-') && word.len() > 1 {
        word.len()
    } else {
        literal_len(here)
    }
}

/// How many letters, digits, dots and signs of numbers stand at a place.
fn literal_len(here: &Spot) -> usize {
    here.literal().1.saturating_sub(here.at)
}

/// How many bytes there are up to the sign that begins a comment, with it, where none ends before.
fn opens_len(rest: &[u8]) -> usize {
    let Some(len) = place_of_pair(rest, b"(*") else {
        return 0;
    };
    match place_of_pair(rest, b"*)") {
        Some(end) if end <= len => 0,
        _ => len.saturating_add(2),
    }
}

/// How many bytes stand in parentheses, with them.
fn range_len(rest: &[u8]) -> usize {
    match place_of_any(rest, b")") {
        Some(len) if byte_at(rest, 0) == b'(' => len.saturating_add(1),
        _ => 0,
    }
}

/// How many bytes the sign of an assignment has.
fn given_len(rest: &[u8]) -> usize {
    match (byte_at(rest, 0), byte_at(rest, 1)) {
        (b':', b'=') => 2,
        (b'=', b'=') => 0,
        (b'=', _) => 1,
        _ => 0,
    }
}

/// Whether a sign begins here, which is not `=` with a blank behind it.
fn is_sign(rest: &[u8]) -> bool {
    let first = byte_at(rest, 0);
    let is_apart = first == b'=' && byte_at(rest, 1) == b' ';
    !is_apart && first != b'&' && !first.is_ascii_alphabetic()
}

/// How many bytes the sign has that begins the rest of a line, where another one ends it.
pub(crate) fn bracket_len(rest: &[u8], open: &str, close: &str) -> usize {
    let content = part(rest, 0, content_len(rest));
    let least = open.len().saturating_add(close.len());
    let is_between = content.starts_with(open.as_bytes()) && content.ends_with(close.as_bytes());
    if is_between && content.len() >= least {
        open.len()
    } else {
        0
    }
}

/// How many bytes stand before the last comma in front of a place.
pub(crate) fn front_len(here: &Spot, place: usize) -> usize {
    let mut last = 0_usize;
    for (index, byte) in here.part(here.at, place).iter().enumerate() {
        if *byte == b',' {
            last = index;
        }
    }
    last
}

/// How many bytes the operator of Structured Text has that stands at a place, and its word.
pub(crate) fn operator_of(here: &Spot) -> (usize, &'static str) {
    for (sign, word) in OPERATORS {
        if is_written(here.token(), here, sign.as_bytes()) {
            return (sign.len(), *word);
        }
    }
    (0, "")
}
