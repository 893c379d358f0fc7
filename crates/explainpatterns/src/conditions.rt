//! What patterns ask of what stands next.

use crate::around::{is_declaration, is_first_name};
use crate::bytes::{byte_at, last_of, named, names, place_of_pair};
use crate::kinds::is_name;
use crate::slots::word_at;
use crate::standing::Standing;
use explaincures::{Spot, is_one_of, part};
use iltokens::{Lexed, What, token};

/// What may be asked of what stands next.
#[derive(Clone, Copy)]
enum Condition {
    /// No sign of an assignment stands on the line.
    Plain,
    /// The operands of a call stand there.
    Call,
    /// No second quote stands on the line.
    Sole,
    /// Something else than a comment stands there.
    Text,
    /// No digit stands right there.
    Apart,
    /// What an operand ends with stands there.
    Closed,
    /// A comma parts two operands there.
    List,
    /// No second operand can be meant.
    One,
    /// The number around the place that is asked about has a dot.
    Dotted,
    /// The time there has no unit.
    Unitless,
    /// An address as other languages have it stands there.
    Absolute,
    /// A declaration stands on the line.
    Declared,
    /// A declaration begins there.
    First,
}

/// Conditions by their names.
const CONDITIONS: &[(&str, Condition)] = names! { Condition: "(plain)" Plain, "(call)" Call,
    "(sole)" Sole, "(text)" Text, "(apart)" Apart, "(closed)" Closed, "(list)" List, "(one)" One,
    "(dotted)" Dotted, "(unitless)" Unitless, "(absolute)" Absolute, "(declared)" Declared,
    "(first)" First };

/// Whether the condition of a name holds of what stands next.
pub(crate) fn holds(standing: &Standing, here: &Spot, name: &[u8]) -> bool {
    match named(CONDITIONS, name) {
        Some(condition) => is_met(standing, here, condition),
        None => false,
    }
}

/// Whether a condition holds of what stands next.
fn is_met(standing: &Standing, here: &Spot, condition: Condition) -> bool {
    let spot = &standing.spot;
    let rest = here.rest().trim_ascii_start();
    match condition {
        Condition::Plain => place_of_pair(rest, b":=").is_none(),
        Condition::Call => rest.starts_with(b"()") || place_of_pair(rest, b":=").is_some(),
        Condition::Sole => !rest.contains(&b'\''),
        Condition::Text => !rest.is_empty() && !rest.starts_with(b"(*"),
        Condition::Apart => !byte_at(here.rest(), 0).is_ascii_digit(),
        Condition::Closed => rest.is_empty() || matches!(byte_at(rest, 0), b',' | b')' | b';'),
        Condition::List => is_list(here, rest),
        // As `ADD 1 100` may be meant as two operands, where `ADD 1 050` is none.
        Condition::One => rest.starts_with(b"0") || is_one_of(spot.first_word(), &["LD"]),
        Condition::Dotted => literal_of(spot).contains(&b'.'),
        Condition::Unitless => spot.at < spot.literal().1 && !is_time(literal_of(spot)),
        Condition::Absolute => spot.at > spot.literal().0 && is_absolute(literal_of(spot)),
        Condition::Declared => is_declaration(spot),
        Condition::First => is_name(word_at(standing, here)) && is_first_name(standing, here),
    }
}

/// The letters, digits, dots and signs of numbers around a place.
fn literal_of<'a>(spot: &Spot<'a>) -> &'a [u8] {
    let (from, to) = spot.literal();
    spot.part(from, to)
}

/// Whether a comma parts two operands at a place: no fraction is meant.
fn is_list(here: &Spot, rest: &[u8]) -> bool {
    let is_fraction = byte_at(rest, 1).is_ascii_digit() && last_of(here.front()).is_ascii_digit();
    byte_at(rest, 0) == b',' && rest.len() > 1 && !is_fraction
}

/// Whether a literal is a time.
fn is_time(literal: &[u8]) -> bool {
    match token(literal, 0) {
        Lexed::Token { what, to, .. } => matches!(what, What::Time(_)) && to == literal.len(),
        _ => false,
    }
}

/// Whether a literal is an address as other languages have it.
fn is_absolute(literal: &[u8]) -> bool {
    let is_number = byte_at(literal, 1).is_ascii_digit() || byte_at(literal, 2).is_ascii_digit();
    let is_block = is_one_of(part(literal, 0, 2), &["DB"]);
    let is_known = is_block || is_one_of(part(literal, 0, 1), &["E", "A", "I", "Q", "M"]);
    is_number && is_known && literal.contains(&b'.')
}
