//! What stands in the slots of patterns: which slots there are, and where one ends.

use crate::around::{Around, is_around};
use crate::bytes::{named, names};
use crate::kinds::{Kind, is_kind};
use crate::spans::{Span, bracket_len, front_len, operator_of, span_len};
use crate::standing::{Extent, Standing};
use explaincures::{Spot, is_of_group, near_word, part};
use iltokens::KeywordGroup;

/// Slots for a word, by what it is.
const KINDS: &[(&str, Kind)] = names! { Kind: "name" Name, "other" Other, "word" Word,
    "number" Number, "digit" Digit, "signed" Signed, "dotted" Dotted, "group" Group,
    "thousands" Thousands, "time" Time, "amount" Amount, "constant" Constant, "address" Address,
    "operand" Operand, "end" End, "function" Function, "near" Near,
    "calling" Calling, "negatable" Negatable, "port" Port };

/// Slots for a word, by what stands around it.
const AROUND: &[(&str, Around)] = names! { Around: "called" Called, "ported" Ported,
    "untyped" Untyped, "begun" Begun, "first" First, "label" Label, "jumped" Jumped,
    "defined" Defined, "not" Not, "hex" Hexadecimal };

/// Slots for more or less than a word.
const SPANS: &[(&str, Span)] = names! { Span: "value" Value, "digits" Digits, "1" Exactly(1),
    "2" Exactly(2), "3" Exactly(3), "whole" Whole, "rest" Rest, "opens" Opens, "closes" Closes,
    "range" Range, "target" Target, "given" Given, "operator" Operator, "sign" Sign,
    "inner" Within("(" ")"), "braced" Within("{" "}"), "remark" Within("/*" "*/") };

/// Slots for a reserved word of some groups.
const GROUPS: &[(&str, &[KeywordGroup])] = &[
    ("with", WITH), // an instruction that takes one operand
    ("store", &[KeywordGroup::Store]),
    (
        "single",
        &[KeywordGroup::Load, KeywordGroup::Store, KeywordGroup::Jump],
    ),
    ("deferred", DEFERRED), // an operator that may wait for what stands in parentheses
    (
        "limiting",
        &[KeywordGroup::Extremum, KeywordGroup::Limitation],
    ),
    ("call", &[KeywordGroup::Call]),
    ("return", &[KeywordGroup::Return]),
    ("truth", &[KeywordGroup::Truth]),
    ("integer", &[KeywordGroup::IntegerType]),
    ("type", TYPES),
    ("standard", &[KeywordGroup::StandardBlock]),
    (
        "block",
        &[KeywordGroup::StandardBlock, KeywordGroup::RequestBlock],
    ),
];

/// Instructions and operators that take an operand.
const WITH: &[KeywordGroup] = &[
    KeywordGroup::Load,
    KeywordGroup::Store,
    KeywordGroup::Logic,
    KeywordGroup::Arithmetic,
    KeywordGroup::Comparison,
    KeywordGroup::Extremum,
];

/// Operators that the standard has with `(`.
const DEFERRED: &[KeywordGroup] = &[
    KeywordGroup::Logic,
    KeywordGroup::Arithmetic,
    KeywordGroup::Comparison,
];

/// Types of variables.
const TYPES: &[KeywordGroup] = &[KeywordGroup::ElementaryType, KeywordGroup::IntegerType];

/// Where a slot ends that begins at a place, if that stands there.
pub(crate) fn slot_end(standing: &Standing, here: &Spot, slot: &[u8]) -> Option<usize> {
    let len = if let Some(span) = named(SPANS, slot) {
        span_len(here, span)
    } else if slot == b"front".as_slice() {
        front_len(here, standing.spot.at)
    } else {
        word_len(standing, here, slot)
    };
    (len > 0).then_some(here.at.saturating_add(len))
}

/// How many bytes the word at a place has, where it is what a slot asks for.
fn word_len(standing: &Standing, here: &Spot, slot: &[u8]) -> usize {
    let word = word_at(standing, here);
    let is_asked = if let Some(kind) = named(KINDS, slot) {
        is_kind(word, kind)
    } else if let Some(around) = named(AROUND, slot) {
        is_around(standing, here, word, around)
    } else {
        is_grouped(word, slot)
    };
    if is_asked { word.len() } else { 0 }
}

/// The word at a place; just before the place that is asked about, what was read there.
pub(crate) fn word_at<'a>(standing: &Standing<'a>, here: &Spot<'a>) -> &'a [u8] {
    let (from, to) = standing.around.before;
    if here.at == from && to > from {
        standing.before()
    } else {
        here.token()
    }
}

/// Whether a word is a reserved one of the groups of a slot.
fn is_grouped(word: &[u8], slot: &[u8]) -> bool {
    match named(GROUPS, slot) {
        Some(groups) => is_of_group(word, groups),
        None => false,
    }
}

/// Whether a word is that of a type of variables, or of a block that they often are.
pub(crate) fn is_type(word: &[u8]) -> bool {
    is_of_group(word, TYPES) || is_of_group(word, &[KeywordGroup::StandardBlock])
}

/// The place of a slot, or of what stands within its signs.
pub(crate) fn place_within(here: &Spot, slot: &[u8], to: usize) -> Extent {
    let len = match named(SPANS, slot) {
        Some(Span::Within(open, close)) => bracket_len(here.rest(), open, close),
        _ => 0,
    };
    here.trimmed(here.at.saturating_add(len), to.saturating_sub(len))
}

/// The word of the language that is meant by what stands in a slot, where it is one for that.
pub(crate) fn word_meant(here: &Spot, slot: &[u8]) -> Option<&'static str> {
    if let Some(Span::Operator | Span::Sign) = named(SPANS, slot) {
        return Some(operator_of(here).1);
    }
    match named(KINDS, slot) {
        Some(Kind::Near) => near_word(here.token()),
        _ => None,
    }
}

/// Where a word or a sign ends, if it is written at a place.
pub(crate) fn word_end(standing: &Standing, here: &Spot, word: &[u8]) -> Option<usize> {
    let found = word_at(standing, here);
    is_written(found, here, word).then_some(here.at.saturating_add(word.len()))
}

/// The same of the first of some words that is written there.
pub(crate) fn words_end(standing: &Standing, here: &Spot, words: &str) -> Option<usize> {
    for word in words.split(' ') {
        let end = word_end(standing, here, word.as_bytes());
        if end.is_some() {
            return end;
        }
    }
    None
}

/// Whether a word or a sign is written at a place: a word, which begins and ends with a letter, is
/// all that was found there, and a sign is its front.
pub(crate) fn is_written(found: &[u8], here: &Spot, word: &[u8]) -> bool {
    let has_letters = has_letter(word.first()) && has_letter(word.last());
    let written = if has_letters {
        found
    } else {
        part(here.rest(), 0, word.len())
    };
    written.eq_ignore_ascii_case(word)
}

/// Whether a byte is a letter.
fn has_letter(byte: Option<&u8>) -> bool {
    match byte {
        Some(byte) => byte.is_ascii_alphabetic(),
        None => false,
    }
}
