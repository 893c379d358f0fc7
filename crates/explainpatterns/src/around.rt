//! What a word is by what stands around it.

use crate::bytes::{byte_at, count_of_digits, is_digits, last_of};
use crate::kinds::is_name;
use crate::slots::is_type;
use crate::standing::Standing;
use explaincures::{Spot, Surroundings, is_of_group, is_one_of};
use iltokens::{Keyword, KeywordGroup, keyword_of};

/// What a word may be by what stands around it.
#[derive(Clone, Copy)]
pub(crate) enum Around {
    /// A name, but that of the program or the function that is open.
    Called,
    /// What stands behind a dot.
    Ported,
    /// A name that no colon stands before.
    Untyped,
    /// The sign or the word behind which a declaration begins.
    Begun,
    /// The first name of a declaration.
    First,
    Label,
    /// The label of a jump further up.
    Jumped,
    /// A function that is declared further up.
    Defined,
    /// A sign or a word that turns a truth value round.
    Not,
    Hexadecimal,
}

/// Whether a word at a place is this.
pub(crate) fn is_around(standing: &Standing, here: &Spot, word: &[u8], around: Around) -> bool {
    match around {
        Around::Called => is_name(word) && !is_own_name(standing, here, word.len()),
        Around::Ported => last_of(here.front()) == b'.',
        Around::Untyped => is_name(word) && !is_behind(here, b":"),
        Around::Begun => word == b";".as_slice() || begins_block(standing, here),
        Around::First => is_name(word) && is_first_name(standing, here),
        Around::Label => is_name(word) && has_colon(here, word.len()) && !is_declaration(here),
        Around::Jumped | Around::Defined => is_name(word) && stands_above(here, around, word),
        Around::Not => is_negation(here, word),
        Around::Hexadecimal => is_hexadecimal(here, word),
    }
}

/// What stands just before a place.
fn before_of<'a>(here: &Spot<'a>) -> &'a [u8] {
    let (from, to) = Surroundings::of(here.text, here.at).before;
    here.part(from, to)
}

/// Whether one of some signs stands just before a place.
fn is_behind(here: &Spot, signs: &[u8]) -> bool {
    let before = before_of(here);
    before.len() == 1 && signs.contains(&byte_at(before, 0))
}

/// Whether the name of the program or the function that is open stands at a place.
fn is_own_name(standing: &Standing, here: &Spot, len: usize) -> bool {
    let Some(unit) = standing.around.unit else {
        return false;
    };
    unit.name == Some((here.at, here.at.saturating_add(len)))
}

/// Whether the word stands at a place that begins the block of variables that is open.
fn begins_block(standing: &Standing, here: &Spot) -> bool {
    match standing.around.block {
        Some(block) => block.at == here.at,
        None => false,
    }
}

/// Whether a declaration begins at a place, or a name follows another one there.
pub(crate) fn is_first_name(standing: &Standing, here: &Spot) -> bool {
    let last = Surroundings::of(here.text, here.at).before;
    let is_begun = match standing.around.innermost() {
        Some(open) => open.at == last.0,
        None => false,
    };
    is_begun || is_behind(here, b";,")
}

/// Whether a colon stands right behind a word, which is no sign of an assignment.
fn has_colon(here: &Spot, len: usize) -> bool {
    let behind = here.part(here.at.saturating_add(len), here.line_to);
    let is_apart = behind.len() == 1 || matches!(byte_at(behind, 1), b' ' | b'\t' | b'\r');
    byte_at(behind, 0) == b':' && is_apart
}

/// Whether a word turns a truth value round: NOT, or a sign of other languages.
fn is_negation(here: &Spot, word: &[u8]) -> bool {
    let behind = here.part(here.at.saturating_add(word.len()), here.line_to);
    let is_sign = word.len() == 1 && matches!(byte_at(word, 0), b'!' | b'~');
    is_sign && byte_at(behind, 0) != b'=' || is_one_of(word, &["NOT"])
}

/// Whether hexadecimal digits stand behind `&H`, or behind a sign alone: with one of 0 to 9 and one
/// of A to F among them, or FF or FE, since a name may be meant, or a number of base 10.
fn is_hexadecimal(here: &Spot, digits: &[u8]) -> bool {
    let is_marked = matches!(last_of(here.front()), b'h' | b'H');
    let is_mixed = count_of_digits(digits) > 0 && (is_marked || !is_digits(digits));
    let is_known = is_mixed || is_one_of(digits, &["FF", "FE"]);
    is_known && are_hexadecimal(digits)
}

/// Whether there are hexadecimal digits alone.
fn are_hexadecimal(digits: &[u8]) -> bool {
    for byte in digits {
        if !byte.is_ascii_hexdigit() {
            return false;
        }
    }
    true
}

/// Whether a line above begins with a jump, or with FUNCTION, and has a name behind that.
fn stands_above(here: &Spot, around: Around, name: &[u8]) -> bool {
    for line in here.part(0, here.line_from).split(|byte| *byte == b'\n') {
        let line = Spot::of(line, 0);
        let is_begun = match around {
            Around::Jumped => is_of_group(line.first_word(), &[KeywordGroup::Jump]),
            _ => keyword_of(line.first_word()) == Some(Keyword::Function),
        };
        if is_begun && is_second(&line, name) {
            return true;
        }
    }
    false
}

/// Whether a name is the second word of a line.
fn is_second(line: &Spot, name: &[u8]) -> bool {
    let (_, to) = line.first_place();
    let (from, _) = line.trimmed(to, line.line_to);
    Spot::of(line.text, from).token().eq_ignore_ascii_case(name)
}

/// Whether a type stands behind a colon on the line of a place, which begins with a name.
pub(crate) fn is_declaration(spot: &Spot) -> bool {
    for piece in spot.line().split(|byte| *byte == b':').skip(1) {
        if is_type(Spot::of(piece.trim_ascii_start(), 0).token()) {
            return is_name(spot.first_word());
        }
    }
    false
}
