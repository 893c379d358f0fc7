//! What a word is by itself.

use crate::bytes::{byte_at, digits_len, is_digits, last_of};
use explaincures::{is_of_group, is_one_of, meant_instruction, near_word, part};
use iltokens::{KeywordGroup, Lexed, What, keyword_of, keywords, token};

/// What a word may be.
#[derive(Clone, Copy)]
pub(crate) enum Kind {
    Name,
    /// Anything but a name.
    Other,
    Word,
    Number,
    /// It begins with a digit.
    Digit,
    /// It begins with a sign and a digit.
    Signed,
    Dotted,
    /// Three bytes, of which the last two are digits.
    Group,
    /// Up to three digits, the first of which is not 0.
    Thousands,
    Time,
    Amount,
    /// A number or a time.
    Constant,
    Address,
    Operand,
    /// It ends something, as END_VAR does.
    End,
    Function,
    /// It is near to a word of the language.
    Near,
    /// CAL, CALC or CALCN may be meant by it, and none is plainly meant.
    Calling,
    /// An instruction that takes the opposite where it has an N behind it, as LD does.
    Negatable,
    /// A port of a function block.
    Port,
}

/// Ports of function blocks.
const PORTS: &[&str] = &[
    "CLK", "Q", "CU", "PV", "CV", "IN", "PT", "ET", "REQ", "BUS", "ADR", "LEVEL", "CMD", "DATA",
    "BANK", "OFFSET", "INST", "SCHEME",
];

/// Functions of the language.
const FUNCTIONS: &[KeywordGroup] = &[
    KeywordGroup::Extremum,
    KeywordGroup::Limitation,
    KeywordGroup::Magnitude,
    KeywordGroup::Conversion,
];

/// Whether a word is of a kind.
pub(crate) fn is_kind(word: &[u8], kind: Kind) -> bool {
    let (first, last, second) = (byte_at(word, 0), last_of(word), byte_at(word, 1));
    let is_begun = first.is_ascii_digit();
    match kind {
        Kind::Word => true,
        Kind::Number => is_digits(word),
        Kind::Digit => is_begun,
        Kind::Signed => matches!(first, b'+' | b'-') && second.is_ascii_digit(),
        Kind::Dotted => is_begun && last.is_ascii_digit() && word.contains(&b'.'),
        Kind::Group => word.len() == 3 && digits_len(part(word, 1, 3)) == 2,
        Kind::Thousands => is_begun && first != b'0' && is_digits(word) && word.len() < 4,
        Kind::Operand => is_operand(word, first),
        Kind::End => is_reserved(word) && part(word, 0, 4).eq_ignore_ascii_case(b"END_"),
        Kind::Function => is_of_group(word, FUNCTIONS),
        Kind::Near => near_word(word).is_some(),
        Kind::Calling => near_word(word).is_none() && is_calling(word),
        Kind::Negatable => is_reserved(word) && has_negation(word),
        Kind::Port => is_one_of(word, PORTS),
        Kind::Name => is_name(word),
        Kind::Other => !is_name(word),
        Kind::Time | Kind::Amount | Kind::Constant | Kind::Address => is_literal(word, kind),
    }
}

/// Whether a number, a time or an address of a kind stands first.
fn is_literal(word: &[u8], kind: Kind) -> bool {
    match (what_of(word), kind) {
        (Some(What::Time(_)), Kind::Time | Kind::Constant) => true,
        (Some(What::Number(_)), Kind::Amount | Kind::Constant) => true,
        (Some(What::Address { .. }), Kind::Address) => true,
        _ => false,
    }
}

/// What a word is that stands first.
fn what_of(word: &[u8]) -> Option<What> {
    match token(word, 0) {
        Lexed::Token { what, .. } => Some(what),
        _ => None,
    }
}

/// Whether a word is a name.
pub(crate) fn is_name(word: &[u8]) -> bool {
    matches!(what_of(word), Some(What::Name))
}

/// Whether a word may be meant that calls a block.
fn is_calling(word: &[u8]) -> bool {
    match meant_instruction(word, 0) {
        Some(meant) => is_of_group(meant.as_bytes(), &[KeywordGroup::Call]),
        None => false,
    }
}

/// Whether a word is reserved.
fn is_reserved(word: &[u8]) -> bool {
    keyword_of(word).is_some()
}

/// Whether a word may be an operand, by its first byte: a name or a number.
fn is_operand(word: &[u8], first: u8) -> bool {
    (first.is_ascii_alphanumeric() || first == b'_') && !is_reserved(word)
}

/// Whether a reserved word is another one with an N behind it.
fn has_negation(word: &[u8]) -> bool {
    for keyword in keywords() {
        match keyword.spelling().as_bytes() {
            [front @ .., b'N'] if front.eq_ignore_ascii_case(word) => return true,
            _ => {}
        }
    }
    false
}
