//! The search for a change where something cannot stand: what is open is ended, a word or a sign
//! that could stand there is put in place of what was found or before it, the line is broken, or a
//! sign is left out.

use crate::said::{Change, Row, Said, Trial, advice};
use explaincures::{
    Advice, Group, OpenConstruct, Possible, Spot, content_len, is_of_group, is_one_of, line_number,
    near_word, part, sign_name,
};
use explainpatterns::{Extent, Standing, is_digits};
use iltokens::{KeywordGroup, keyword_of};

/// Words that begin a block of variables.
const BLOCKS: &[&str] = &["VAR", "VAR_INPUT", "VAR_EXTERNAL", "VAR_GLOBAL"];

pub(crate) const ASKED: Row = advice!("{0} where {w} is asked for"; "write {w}"; "");

const NEAR: Row = advice!("{0} is no word of the language";
    "the word that is near to it is {w}";
    "");

pub(crate) const RESERVED: Row = advice!("{0} is a word of the language, and no name";
    "choose another name, here and wherever it is meant";
    "");

const TIMED: Row = advice!("a number where a time is asked for";
    "write T# before it, and its unit behind it: d, h, m, s or ms";
    "");

/// The words that are tried at a place: an end, one that is near to what stands there, or one that
/// is asked for.
pub(crate) fn words(standing: &Standing, possible: &Possible) -> [Option<Said>; 6] {
    let spot = &standing.spot;
    let found = (spot.at, spot.found_to());
    let last = standing.around.before;
    [
        put(NEAR, last, meant_end(standing, possible), "{w}"),
        end(standing, possible),
        close(standing),
        ended(put(ASKED, found, other_end(standing, possible), "{w}")),
        put(NEAR, found, near_word(spot.token()), "{w}"),
        put(NEAR, last, near_word(spot.part(last.0, last.1)), "{w}"),
    ]
}

/// Another form of the word that was found: a time, the one word that could stand there, or a name.
pub(crate) fn forms(standing: &Standing, possible: &Possible) -> [Option<Said>; 3] {
    let spot = &standing.spot;
    let found = (spot.at, spot.found_to());
    [
        put(
            TIMED,
            found,
            is_timed(spot, possible).then_some(""),
            "T#{0}ms",
        ),
        ended(put(ASKED, found, only(spot, possible), "{w}")),
        put(
            RESERVED,
            found,
            is_renamed(spot, possible).then_some(""),
            "{0}_1",
        ),
    ]
}

/// A sign more before the place.
pub(crate) fn signs_before(standing: &Standing, possible: &Possible) -> [Option<Said>; 7] {
    [
        before(standing, possible, ";"),
        before(standing, possible, ":"),
        before(standing, possible, ","),
        before(standing, possible, ":="),
        before(standing, possible, ".."),
        before(standing, possible, "("),
        before(standing, possible, ")"),
    ]
}

/// The line broken, and the line without what was found.
pub(crate) fn parted(standing: &Standing, possible: &Possible) -> [Option<Said>; 3] {
    [
        broken(standing, possible),
        inner(standing, possible),
        without(&standing.spot, possible),
    ]
}

/// Another sign in place of what was found; or that it ends nothing.
pub(crate) fn signs_instead(standing: &Standing, possible: &Possible) -> [Option<Said>; 6] {
    let spot = &standing.spot;
    [
        instead(spot, possible, ":"),
        instead(spot, possible, ";"),
        instead(spot, possible, ","),
        instead(spot, possible, ":="),
        instead(spot, possible, ".."),
        unopened(standing),
    ]
}

/// The same, where the next line reads too.
fn ended(said: Option<Said>) -> Option<Said> {
    let trial = Trial::Behind;
    Some(Said { trial, ..said? })
}

/// The end of what is open, where the word before the place is near to it.
fn meant_end(standing: &Standing, possible: &Possible) -> Option<&'static str> {
    let (_, word) = standing.around.innermost()?.words();
    let is_meant = near_word(standing.before()) == Some(word) && possible.has_word(word);
    is_meant.then_some(word)
}

/// What is said of a word that ends something where nothing is open that it ends.
fn unopened(standing: &Standing) -> Option<Said> {
    let Standing { spot, around, .. } = standing;
    let word = spot.token();
    let row = advice!("{0} ends nothing that is open here";
        "leave it out, or begin above it what it ends";
        "VAR count : UINT; END_VAR");
    let is_open = ends(word, around.unit)
        || ends(word, around.resource)
        || ends(word, around.block);
    (is_end(word) && !is_open).then_some(Said::of(row, (spot.at, spot.found_to())))
}

/// Whether a word ends what may be open.
fn ends(word: &[u8], open: Option<OpenConstruct>) -> bool {
    matches!(open, Some(one) if is_one_of(word, &[one.words().1]))
}

/// A text in place of a part, where there is a word for it.
fn put(row: Row, place: Extent, word: Option<&'static str>, with: &'static str) -> Option<Said> {
    let said = Said::of(row, place).with_words((word?, ""));
    Some(said.put(place, with))
}

/// The end of what is open, before a word that begins or ends something else, or at the text's end.
fn end(standing: &Standing, possible: &Possible) -> Option<Said> {
    let spot = &standing.spot;
    let opened = standing.around.innermost()?;
    let (begin, word) = opened.words();
    let row = match opened.name {
        Some(_) => advice!("{w} of {0} (line {n}) is missing"; "write {w} before what follows"; ""),
        None => advice!("{w} of the {v} in line {n} is missing";
            "write {w} before what follows";
            ""),
    };
    let is_end = spot.at >= spot.text.len();
    let is_meant = is_end || keyword_of(spot.token()).is_some();
    if !is_meant || !possible.has_word(word) {
        return None;
    }
    let from = if spot.is_first() {
        spot.line_from
    } else {
        spot.at
    };
    let line = line_number(spot.text, opened.at) as u64;
    let said = Said::of(row, opened.name.unwrap_or((0, 0))).with_words((word, begin));
    Some(
        said.with_numbers((line, 0))
            .put((from, from), end_text(spot, is_end)),
    )
}

/// How the end of what is open is written at a place, which may be the text's end.
fn end_text(spot: &Spot, is_end: bool) -> &'static str {
    if !is_end {
        "{w}\n"
    } else if spot.front().is_empty() {
        "{w}"
    } else {
        "\n{w}"
    }
}

/// Instructions that stand outside parentheses alone.
const OUTSIDE: &[KeywordGroup] = &[
    KeywordGroup::Store,
    KeywordGroup::Jump,
    KeywordGroup::Call,
    KeywordGroup::Return,
];

/// The parentheses that close what operators opened, before a word that stands only outside, each
/// on a line of its own.
fn close(standing: &Standing) -> Option<Said> {
    let Standing { spot, around, .. } = standing;
    let row = advice!("the ( of line {n} is not closed";
        "close it before this line, with ) on a line of its own";
        "");
    let line = line_number(spot.text, around.parenthesis?) as u64;
    let behind = spot.part(spot.line_to, spot.text.len());
    if is_of_group(spot.token(), OUTSIDE) && behind.trim_ascii_start().starts_with(b")") {
        let row = advice!("{0} within a parenthesis";
            "what stores, jumps, calls or returns stands outside parentheses: write it\n\
                behind the ) of the next line";
            "LD level\nADD( change\nMUL 2\n)\nST level");
        return Some(Said::of(row, (spot.at, spot.found_to())));
    }
    let from = (spot.line_from, spot.line_from);
    let said = Said::of(row, from).with_numbers((line, around.open as u64));
    (around.is_in_body() && spot.is_first()).then_some(said.put(from, "{)}"))
}

/// The end of what is open, where that of something else was found.
fn other_end(standing: &Standing, possible: &Possible) -> Option<&'static str> {
    let (_, word) = standing.around.innermost()?.words();
    (is_end(standing.spot.token()) && possible.has_word(word)).then_some(word)
}

/// The one word that could stand where another one was found.
fn only(spot: &Spot, possible: &Possible) -> Option<&'static str> {
    let word = possible.only_word()?;
    (is_bracket(spot.token()) && is_bracket(word.as_bytes())).then_some(word)
}

/// Whether a number stands where a time is asked for.
fn is_timed(spot: &Spot, possible: &Possible) -> bool {
    let is_number = is_digits(spot.token());
    let is_time = possible.has(Group::Time) && !possible.has(Group::Number);
    is_number && is_time && !spot.token().is_empty()
}

/// Whether a reserved word stands where a name is asked for.
pub(crate) fn is_renamed(spot: &Spot, possible: &Possible) -> bool {
    let is_value = is_of_group(spot.token(), &[KeywordGroup::Truth]);
    let is_reserved = keyword_of(spot.token()).is_some() && !is_bracket(spot.token()) && !is_value;
    is_reserved && possible.has(Group::Name)
}

/// One sign more, behind what stands before the place.
fn before(standing: &Standing, possible: &Possible, sign: &'static str) -> Option<Said> {
    let spot = &standing.spot;
    let (_, from) = standing.around.before;
    let (place, with) = match sign.as_bytes() {
        b"(" => ((from, spot.line_to), "({0})"),
        [b':', ..] if !standing.around.is_in_body() => ((from, from), " {v}"),
        _ => ((from, from), "{v}"),
    };
    let row = advice!("{w} is missing"; "write it before what was found"; "");
    let said = Said::of(row, (spot.at, spot.line_to)).with_words((sign_name(sign), sign));
    possible
        .has_word(sign)
        .then_some(said.bold(Change::Put(place, with)))
}

/// The end of the line before what was found.
fn broken(standing: &Standing, possible: &Possible) -> Option<Said> {
    let Standing { spot, around, .. } = standing;
    let is_end = spot.token() == b")".as_slice() && around.open > 0;
    let row = Advice {
        what: if is_end {
            ") behind an instruction"
        } else {
            "two instructions on one line"
        },
        cure: "write each on a line of its own",
        line: "",
    };
    // NOT behind a store may be meant for what is stored.
    let is_stored = is_one_of(spot.token(), &["NOT"]) && is_one_of(spot.first_word(), &["ST"]);
    let is_begun = (keyword_of(spot.token()).is_some() || is_end) && !is_stored;
    let is_apart = possible.is_line_end && around.is_in_body() && !spot.is_first();
    let from = spot.line_from.saturating_add(content_len(spot.front()));
    let said = Said::told(row, (spot.at, spot.found_to())).put((from, spot.at), "\n");
    (is_begun && is_apart).then_some(said)
}

/// What stands in a parenthesis of an instruction, where it is written in one line: the operator
/// that was found, and the end, each on a line of its own.
fn inner(standing: &Standing, possible: &Possible) -> Option<Said> {
    let Standing { spot, around, .. } = standing;
    let (from, to) = spot.trimmed(spot.at, spot.line_to);
    let content = spot.part(from, to).strip_suffix(b")".as_slice())?;
    let row = advice!("an expression in parentheses";
        "write each of its instructions on a line of its own, and the ) too";
        "");
    let is_apart = possible.is_line_end && around.is_in_body() && around.open > 0;
    let front_to = spot.line_from.saturating_add(content_len(spot.front()));
    let inner = spot.trimmed(from, from.saturating_add(content.len()));
    let said = Said::of(row, inner).put((front_to, spot.line_to), "\n{0}\n)");
    (is_apart && keyword_of(spot.token()).is_some()).then_some(said)
}

/// The line without the sign that was found.
fn without(spot: &Spot, possible: &Possible) -> Option<Said> {
    let row = advice!("{0} is too much here"; "leave it out, or end the line before it"; "");
    let said = Said::of(row, (spot.at, spot.found_to())).bold(Change::LeaveOut);
    (!possible.has(Group::Outer)).then_some(said)
}

/// A sign in place of what was found.
fn instead(spot: &Spot, possible: &Possible, sign: &'static str) -> Option<Said> {
    // A dot within a name parts it, where a comma would make two of it.
    let is_comma = sign.as_bytes() == b",".as_slice();
    let is_name = spot.token() == b".".as_slice() && is_comma;
    let row = advice!("{0} where {w} is asked for"; "write {w} in its place"; "");
    let said = Said::of(row, (spot.at, spot.found_to())).with_words((sign_name(sign), ""));
    (possible.has_word(sign) && !is_name).then_some(said.bold(Change::Sign(sign)))
}

/// Whether a word ends something.
fn is_end(word: &[u8]) -> bool {
    let front = part(word, 0, 4);
    keyword_of(word).is_some() && front.eq_ignore_ascii_case(b"END_")
}

/// Whether a word ends something, or begins a block of variables.
pub(crate) fn is_bracket(word: &[u8]) -> bool {
    is_end(word) || is_one_of(word, BLOCKS)
}
