//! Why a line is bad, where its words alone say it.

use crate::forms::{BINDING, Field, Form, Part, SCENARIO, fields_behind, form_of, parts_of};
use crate::reason::{Meant, Reason};
use explaincures::{is_near, is_one_of, part};
use limits::{MOST_BUSES, MOST_SOURCES};
use wordlines::{hex_of, number_of, parts_around_dot};

/// Words with which a text begins.
const TEXT: &[&str] = &["(*", "TYPE", "FUNCTION", "PROGRAM", "CONFIGURATION"];

/// What is wrong with a first word.
const CAPITAL: &str = "{word} is not in small letters";

const NO_LINE: &str = "no line begins with {word}";

const OTHER_FILE: &str = "{word} begins a line of a {name}";

/// What helps where no line begins with a word, where one of another file does, and where all do.
const KNOWN: &str = "lines begin with {words}, or # for a comment";

const ELSEWHERE: &str = "its place is the {name}: leave it out here, or write # before it";

const ORDER: &str =
    "the text comes first, the binding second and the scenario third; a comment of\n\
    a binding or a scenario has # before it";

/// What stands between the words of a list.
const SIGNS: [char; 3] = [',', ' ', '\n'];

/// Why the words of a line of a file are bad by themselves: their bytes, their blanks, the first
/// one, or what follows it. Else the form of the line.
pub(crate) fn bad_words(
    bytes: &[u8],
    line: &[u8],
    forms: &'static [Form],
) -> Result<&'static Form, Reason> {
    if let Some(reason) = bad_bytes(line).or(bad_blanks(line)) {
        return Err(reason);
    }
    let word = first_word(line);
    let Some(form) = form_of(forms, word) else {
        return Err(unknown(bytes, word, forms));
    };
    match bad_fields(line, form) {
        Some(reason) => Err(reason),
        None => Ok(form),
    }
}

/// The first word of a line.
pub(crate) fn first_word(line: &[u8]) -> &[u8] {
    line.split(|byte| *byte == b' ').next().unwrap_or(line)
}

/// Why the bytes of a line are bad: the file is saved in another way.
fn bad_bytes(line: &[u8]) -> Option<Reason> {
    let mark = "save the file without one: as ASCII, or as UTF-8 without a mark";
    let (what, cure, from, to) = match line {
        [0xef, 0xbb, 0xbf, ..] => ("a byte order mark", mark, 0, 3),
        [0xff, 0xfe, ..] | [0xfe, 0xff, ..] => ("the byte order mark of UTF-16", mark, 0, 2),
        _ => {
            let at = line.iter().position(|byte| *byte == b'\r')?;
            let ends = "save the file with lines that end with LF or CR LF";
            ("a CR without an LF", ends, at, at.saturating_add(1))
        }
    };
    Some(Reason::of(what, cure).at(from, to).meaning(Meant::With("")))
}

/// Why the blanks of a line are bad.
fn bad_blanks(line: &[u8]) -> Option<Reason> {
    let tab = line.iter().position(|byte| *byte == b'\t');
    let empty = empty_word(line);
    let what = match (tab, empty) {
        (Some(_), _) => "a tab",
        (None, Some(0)) => "a blank at the front of the line",
        (None, Some(at)) if at >= line.len() => "a blank at the end of the line",
        _ => "two blanks",
    };
    let at = tab.or(empty)?.min(line.len().saturating_sub(1));
    let cure = if line.contains(&b'#') {
        "write one blank between two words, and give a comment a line of its own"
    } else {
        "write one blank between two words, and none elsewhere"
    };
    Some(Reason::of(what, cure).at(at, at).meaning(Meant::Spaced))
}

/// Where the first empty word stands.
fn empty_word(line: &[u8]) -> Option<usize> {
    let mut at: usize = 0;
    for word in line.split(|byte| *byte == b' ') {
        if word.is_empty() {
            return Some(at);
        }
        at = at.saturating_add(word.len()).saturating_add(1);
    }
    None
}

/// Why a first word is none: lines of another file begin with it, or people write it for another
/// one; or with the one that is meant, which is near, or differs in letter case.
fn unknown(bytes: &[u8], word: &[u8], forms: &'static [Form]) -> Reason {
    let is_bound = form_of(BINDING, word).is_some();
    let is_other = is_bound || form_of(SCENARIO, word).is_some();
    let (what, cure, meant) = match meant_form(word, forms) {
        Some(form) if word.eq_ignore_ascii_case(form.word.as_bytes()) => {
            (CAPITAL, KNOWN, Meant::With(form.word))
        }
        Some(form) => (NO_LINE, KNOWN, Meant::With(form.word)),
        None if is_other && has_line_of(bytes, forms) => {
            (OTHER_FILE, ELSEWHERE, Meant::Perhaps("# {word}"))
        }
        None if is_other => (OTHER_FILE, ORDER, SMALL),
        None if is_one_of(word, TEXT) => ("{word} begins a text, or a line of one", ORDER, SMALL),
        None if form_of(forms, b"tick").is_some() => foreign(word),
        None => (NO_LINE, KNOWN, SMALL),
    };
    let name = if is_bound { "binding" } else { "scenario" };
    let reason = Reason::of(what, cure).at(0, word.len()).meaning(meant);
    Reason { name, ..reason }
}

/// What is said of a word with which no line of a scenario begins, but people begin one.
fn foreign(word: &[u8]) -> (&'static str, &'static str, Meant) {
    for (words, cure, meant) in FOREIGN {
        if is_in(*words, word) {
            return (NO_LINE, *cure, Meant::Perhaps(*meant));
        }
    }
    (NO_LINE, KNOWN, SMALL)
}

/// Such words, what helps, and what may stand in their place.
const FOREIGN: &[(&str, &str, &str)] = &[
    ("wait,sleep,delay,pause", MOMENTS, "tick"),
    ("lamp,light,lampe,leuchte", KNOWN, "gear"),
    ("button,press,taster,ereignis", EVENT, "event"),
    ("expect", EXPECTED, "# {word}"),
];

const MOMENTS: &str = "write `tick` and a moment: moments count from the start, in milliseconds";

const EVENT: &str = "the line of an event has the bus and a frame of six hexadecimal digits;\n\
    `dalictl event BIND B.K INFORMATION` prints it";

const EXPECTED: &str = "say it in the command: `dalictl play .. --expect lamp=200`";

/// Whether some line of a file begins as one of these forms.
fn has_line_of(bytes: &[u8], forms: &'static [Form]) -> bool {
    for line in bytes.split(|byte| *byte == b'\n') {
        if form_of(forms, first_word(line)).is_some() {
            return true;
        }
    }
    false
}

/// The form whose first word another one is meant for.
fn meant_form(word: &[u8], forms: &'static [Form]) -> Option<&'static Form> {
    for form in forms {
        if is_meant(word, form.word) {
            return Some(form);
        }
    }
    None
}

/// Whether a word is meant for another one: it is near, or differs in letter case.
fn is_meant(word: &[u8], other: &str) -> bool {
    word.eq_ignore_ascii_case(other.as_bytes()) || is_near(word, other.as_bytes())
}

/// Why the words behind the first are bad: one is not what it has to be, is too much, or is
/// missing.
fn bad_fields(line: &[u8], form: &Form) -> Option<Reason> {
    let mut fields = form.fields;
    let mut parts = parts_of(form);
    let mut from = form.word.len().saturating_add(1);
    for word in line.split(|byte| *byte == b' ').skip(1) {
        let to = from.saturating_add(word.len());
        match fields {
            [Field::Number(..), ..] if form.word == "source" && is_in("instance group", word) => {
                let cure = "device-instance, device-group and instance-group are one word each";
                let reason = Reason::of("a blank where a hyphen is asked for", cure);
                let reason = reason.meaning(Meant::With("-"));
                return Some(reason.at(from.saturating_sub(1), from));
            }
            [field, ..] if !is_met(*field, word) => {
                return Some(unmet(form, *field, word).at(from, to));
            }
            [Field::OneOf(..), ..] => fields = fields_behind(word),
            [_, rest @ ..] => fields = rest,
            [] => match part_at(parts, word) {
                Some((part, rest)) => (fields, parts) = (part.1, rest),
                None => return Some(too_many(form, parts, word).at(from, to)),
            },
        }
        from = to.saturating_add(1);
    }
    let (first, end) = (form.word.len().saturating_add(1), line.len());
    let mut reason = unmet(form, *fields.first()?, b"").at(end, end);
    let only = number_of(part(line, first, end), u64::MAX);
    if let ([Field::Number(..), _], Some(1..)) = (form.fields, only) {
        reason = reason.at(first, first).meaning(Meant::Perhaps("0 "));
        reason.what = "one number, where the bus and the {name} are asked for";
        reason.cure = "write both, the bus first";
    }
    Some(reason)
}

/// The part that a word begins, with those that may stand behind it.
fn part_at(parts: &'static [Part], word: &[u8]) -> Option<(&'static Part, &'static [Part])> {
    for (index, part) in parts.iter().enumerate() {
        if part.0.as_bytes() == word {
            let from = index.saturating_add(usize::from(!part.2));
            let (_, left) = parts.split_at(from.min(parts.len()));
            return Some((part, left));
        }
    }
    None
}

/// What helps where a number, a place or a frame is wanted.
const UPWARD: &str = "the {name} is a number of decimal digits alone, {0} or more";

const MILLISECONDS: &str = "the {name} is a number of milliseconds, in decimal digits alone";

const WITHIN: &str = "the {name} is {0} to {1}, in decimal digits alone";

const PLACE: &str = "a place is the number of a bus, a dot and a number of 0 to 63, in one word";

const FRAME: &str = "a frame is six hexadecimal digits, such as 048402";

/// What helps where a moment or an event is asked for and something else is written.
fn cure_of(form: &Form, field: Field, word: &[u8], is_number: bool) -> Option<&'static str> {
    match (form.word, field, word) {
        ("tick" | "ticks", _, [b'0'..=b'9' | b'T' | b't', ..]) if !is_number => Some(MILLISECONDS),
        ("event", Field::Number(..), _) if is_number => None,
        ("event", Field::Frame, [first, _, _, _, ..]) if first.is_ascii_hexdigit() => None,
        ("event", _, _) => Some(EVENT),
        _ => None,
    }
}

/// Why a word is not as its field says, or is missing where it is empty: with what the field may
/// be.
fn unmet(form: &Form, field: Field, word: &[u8]) -> Reason {
    let is_great = word.len() > 19 && number_of(part(word, 0, 19), u64::MAX).is_some();
    let is_number = is_great || number_of(word, u64::MAX).is_some();
    let (name, list, cure, least, most) = match field {
        Field::Number(name, least, u64::MAX) if !is_great => (name, "", UPWARD, least, 0),
        Field::Number(name, least, most) => (name, "", WITHIN, least, most),
        Field::OneOf(name, list) => (name, list, "the {name} is {list}", 0, 0),
        Field::Place => ("place", "", PLACE, 0, 0),
        Field::Frame => ("frame", "", FRAME, 0, 0),
    };
    let cure = cure_of(form, field, word, is_number).unwrap_or(cure);
    let near = near_in(list, word);
    let is_listed = matches!(near, Some(one) if one.as_bytes().eq_ignore_ascii_case(word));
    let what = match field {
        _ if word.is_empty() => "the {name} is missing",
        Field::Number(..) if is_number && most == 0 => "the {name} is {word}, and not {0} or more",
        Field::Number(..) if is_number => "the {name} is {word}, and not {0} to {1}",
        Field::Number(..) => "{word} is no number",
        Field::OneOf(..) if is_listed => CAPITAL,
        _ => "{word} is no {name}",
    };
    let reason = Reason::of(what, cure).with([least, most, 0, 0]);
    let meant = match (near, field) {
        (Some(one), _) => Meant::With(one),
        (None, Field::Frame) => Meant::Digits,
        _ => SMALL,
    };
    Reason {
        name,
        list,
        meant,
        ..reason
    }
}

/// The word of a list that another one is meant for.
fn near_in(list: &'static str, word: &[u8]) -> Option<&'static str> {
    for one in list.split(SIGNS) {
        if is_meant(word, one) {
            return Some(one);
        }
    }
    None
}

/// Whether a word stands in a list.
fn is_in(list: &str, word: &[u8]) -> bool {
    for one in list.split(SIGNS) {
        if one.as_bytes() == word {
            return true;
        }
    }
    false
}

/// Whether a word is as its field says.
fn is_met(field: Field, word: &[u8]) -> bool {
    match field {
        Field::Number(_, least, most) => matches!(number_of(word, most), Some(one) if one >= least),
        Field::Place => match parts_around_dot(word) {
            Some((bus, number)) => {
                number_of(bus, u64::from(MOST_BUSES - 1)).is_some()
                    && number_of(number, u64::from(MOST_SOURCES - 1)).is_some()
            }
            None => false,
        },
        Field::OneOf(_, list) => is_in(list, word),
        Field::Frame => hex_of(word).is_some(),
    }
}

/// Why a word is one too many, where these parts may follow. A number of 64 on is no second
/// address, but a level.
fn too_many(form: &Form, parts: &[Part], word: &[u8]) -> Reason {
    let what = "{word} is a word too many";
    let cure = match (word, parts) {
        ([b'#', ..], _) => "give a comment a line of its own",
        ([b'(', b'*', ..] | [b'/', b'/', ..] | [b';', ..], _) => {
            "give a comment a line of its own, with # before it"
        }
        (_, [Part("level", ..), ..]) if matches!(number_of(word, 254), Some(64..)) => {
            let what = "{word} does not say that it is a level";
            let reason = Reason::of(what, "write the word `level` before it");
            return reason.meaning(Meant::With("level {word}"));
        }
        (b"on" | b"off" | [b'l', b'e', b'v', b'e', b'l', ..], [Part("level", ..), ..]) => {
            let cure = "a first level has the word `level` and a blank before it";
            return Reason::of(what, cure).meaning(Meant::Perhaps("level 254"));
        }
        _ if part_at(parts_of(form), word).is_some() => {
            "give the level once, then the groups, and then the scenes"
        }
        _ => "leave out what stands here, or give it a line of its own",
    };
    Reason::of(what, cure)
}

/// How a line is meant where nothing better is known.
const SMALL: Meant = Meant::InSmallLetters;
