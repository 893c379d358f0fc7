//! What is said of what was meant as a number and is none: it has a fraction, a digit that its base
//! does not have, or letters.

use crate::decimals::Decimal;
use crate::habit_rows::{BASED, DOTTED, FRACTION, GROUPED, PERCENT};
use crate::said::{Row, Said, advice};
use explaincures::{Advice, Spot, content_len, part};
use explainpatterns::{Extent, Standing, digits_len, place_of_any, place_of_pair};

const NO_TIME: Row = advice!("a number with a fraction where a time is asked for";
    "a time begins with T#, and has whole numbers with the units d, h, m, s and ms,\n\
        in this order";
    "CAL rest(PT := T#1s500ms)");

/// What is said where that helps.
const TIMED: Row = advice!("a time without T# before it"; "a time begins with T#"; "");

const LETTERS: Row = advice!("a number with letters in it";
    "a number has the digits 0 to 9, and hexadecimal ones behind 16#; a name begins\n\
        with a letter";
    "LD 16#C8");

/// What may be said of the number that was meant around a place, where it breaks off there.
pub(crate) fn numbers(standing: &Standing) -> [Option<Said>; 2] {
    let spot = &standing.spot;
    let Some(place) = number_at(spot, standing.around.is_in_body()) else {
        return [None, None];
    };
    let number = spot.part(place.0, place.1);
    let said = match (place_of_any(number, b"#"), Decimal::of(number)) {
        (Some(base), _) => based(spot, place, base),
        _ if is_grouped(number) => Some(Said::of(GROUPED, place)),
        (None, Some(_)) if is_time(spot) => Some(Said::of(NO_TIME, place)),
        (None, Some(decimal)) => Some(decimal.said(spot, place)),
        (None, None) => {
            let timed = Said::of(TIMED, place).put((place.0, place.0), "T#");
            return [Some(timed), Some(Said::of(of_letters(number), place))];
        }
    };
    [said, None]
}

/// Whether three digits stand behind a dot or a comma, which may be there for a thousand.
fn is_grouped(number: &[u8]) -> bool {
    let front = digits_len(number);
    let behind = part(number, front.saturating_add(1), number.len());
    let end = front.saturating_add(4);
    let is_end = end >= number.len() || is_parted(number, end);
    let is_sole = digits_len(behind) == 3 && is_parted(number, front) && is_end;
    is_sole && front > 0 && front < 4 && !number.starts_with(b"0")
}

/// Whether a dot or a comma stands at a place of a number.
fn is_parted(number: &[u8], place: usize) -> bool {
    matches!(number.get(place), Some(b'.' | b','))
}

/// Whether a time is given there: behind PT, or in the line before a store to it.
fn is_time(spot: &Spot) -> bool {
    let front = spot.part(spot.line_from, spot.literal().0);
    let named = match front.trim_ascii_end() {
        [named @ .., b':', b'='] => named,
        _ => b"",
    };
    let next = spot.part(spot.line_to, spot.next_line_to());
    is_input_of_time(named) || is_input_of_time(next)
}

/// Whether PT stands last, as an input or a port.
fn is_input_of_time(bytes: &[u8]) -> bool {
    matches!(
        bytes.trim_ascii_end(),
        [.., b'(' | b',' | b' ' | b'.', b'P' | b'p', b'T' | b't']
    )
}

/// What is said of a number with other characters than digits.
fn of_letters(number: &[u8]) -> Row {
    let has_dot = number.contains(&b'.');
    match number {
        [.., b'%'] => PERCENT,
        [.., b's' | b'S' | b'm' | b'M' | b'h' | b'H'] if has_dot => DOTTED,
        [.., b'h' | b'H'] => BASED,
        _ if has_dot => FRACTION,
        _ => LETTERS,
    }
}

/// What is said of a number with `#` behind its base: of the first character behind it that is no
/// digit of this base. One of base 10 has no base before it.
fn based(spot: &Spot, place: Extent, base: usize) -> Option<Said> {
    let from = place.0.saturating_add(base);
    let behind = from.saturating_add(1);
    let (number, digits, line) = match spot.part(place.0, from) {
        b"2" => (2, "0 and 1", "LD 2#101"),
        b"8" => (8, "0 to 7", "LD 8#17"),
        b"16" => (16, "0 to 9 and A to F", "LD 16#C8"),
        b"10" => return Some(Said::of(BASED, place).put((place.0, behind), "")),
        _ => return Some(Said::of(BASED, place)),
    };
    let written = spot.part(behind, place.1);
    let is_bad = |byte: &u8| match char::from(*byte).to_digit(16) {
        Some(digit) => digit >= number,
        None => *byte != b'_',
    };
    let bad = match written.iter().position(is_bad) {
        Some(index) => behind.saturating_add(index),
        None if written.is_empty() => behind,
        None => return None,
    };
    let what = match written {
        [] => "no digit stands behind {n}#",
        _ if spot.text.get(bad) == Some(&b'.') => return Some(Said::of(FRACTION, place)),
        _ => "{0} is no digit of base {n}",
    };
    let cure = "behind {n}# stand the digits {w}";
    let row = Advice { what, cure, line };
    let said = Said::told(row, (bad, bad.saturating_add(1))).with_words((digits, ""));
    Some(said.with_numbers((u64::from(number), 0)))
}

/// Where the number stands that breaks off at a place, if one does: it begins before the place, or
/// there with a dot.
fn number_at(spot: &Spot, is_in_body: bool) -> Option<Extent> {
    let (from, to) = if is_in_body && is_comma_inside(spot) {
        let behind = Spot::of(spot.text, spot.at.saturating_add(1));
        (spot.literal().0, behind.literal().1)
    } else {
        without_ranges(spot)
    };
    let to = with_exponent(spot, from, to);
    match spot.part(from, to) {
        _ if spot.at >= to => None,
        [b'0'..=b'9', ..] if spot.at > from => Some((from, to)),
        [b'.', b'0'..=b'9', ..] if spot.at == from => Some((from, to)),
        _ => None,
    }
}

/// Whether the first comma of the line stands at the place, between two digits.
fn is_comma_inside(spot: &Spot) -> bool {
    let before = matches!(spot.front(), [.., b'0'..=b'9']) && !spot.front().contains(&b',');
    before && matches!(spot.rest(), [b',', b'0'..=b'9', ..])
}

/// Where what belongs to a number stands around the place, up to two dots.
fn without_ranges(spot: &Spot) -> Extent {
    let (first, last) = spot.literal();
    let front = spot.part(first, spot.at.saturating_add(1));
    let from = match front.windows(2).rposition(|pair| pair == b"..".as_slice()) {
        Some(place) => first.saturating_add(place).saturating_add(2),
        None => first,
    };
    let behind = spot.part(spot.at, last);
    match place_of_pair(behind, b"..") {
        Some(place) => (from, spot.at.saturating_add(place)),
        None => (from, last),
    }
}

/// Where a number ends, with the sign and the digits of its exponent.
fn with_exponent(spot: &Spot, from: usize, to: usize) -> usize {
    let is_open = matches!(spot.part(from, to), [b'0'..=b'9', .., b'e' | b'E']);
    match spot.part(to, spot.line_to) {
        [b'+' | b'-', b'0'..=b'9', ..] if is_open => {
            Spot::of(spot.text, to.saturating_add(1)).literal().1
        }
        _ => to,
    }
}
