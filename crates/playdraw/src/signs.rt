//! What stands for each kind of mark, on a terminal and in an SVG: tables, a line for each.

use crate::parts::Sign;
use std::fmt;

/// A mark that lasts until the next one.
pub(crate) fn lasting(sign: Option<Sign>) -> Option<Sign> {
    match sign {
        Some(Sign::Level(_) | Sign::Truth(_) | Sign::Number(_)) => sign,
        _ => None,
    }
}

/// How much a mark matters among those of its row: from 2 on something went wrong.
pub(crate) fn gravity(sign: Sign) -> u8 {
    match sign {
        Sign::Event(_) | Sign::Answered(_) => 1,
        Sign::Damaged => 2,
        Sign::GaveUp => 3,
        Sign::Failed => 4,
        Sign::Down => 5,
        _ => 0,
    }
}

/// The level that a mark shows: of a variable that is TRUE the greatest one.
pub(crate) fn level_of(sign: Option<Sign>) -> Option<u8> {
    match sign {
        Some(Sign::Level(level)) => Some(level),
        Some(Sign::Truth(true)) => Some(254),
        Some(Sign::Truth(false)) => Some(0),
        _ => None,
    }
}

/// What stands for a mark on a terminal, and the word and the number that are written of it.
pub(crate) fn words_of(sign: Sign) -> (&'static str, &'static str, Option<i64>) {
    match sign {
        Sign::Level(level) => ("", "", Some(i64::from(level))),
        Sign::Truth(true) => ("", "TRUE", None),
        Sign::Truth(false) => ("", "FALSE", None),
        Sign::Number(number) => ("", "", Some(number)),
        Sign::Event(information) => ("●", "", Some(i64::from(information))),
        Sign::Stray => ("○", "", None),
        Sign::Scan => ("•", "", None),
        Sign::Sent => ("│", "", None),
        Sign::Answered(value) => ("│", "", Some(i64::from(value))),
        Sign::Damaged => ("│", "?", None),
        Sign::GaveUp => ("│", "×", None),
        Sign::Failed => ("│", "!", None),
        Sign::Down => ("", "down", None),
    }
}

impl fmt::Display for Sign {
    /// Writes what stands for a mark on a terminal.
    fn fmt<W: fmt::Write>(&self, f: &mut fmt::Formatter<W>) -> fmt::Result {
        let (letter, word, number) = words_of(*self);
        f.write_str(letter)?;
        f.write_str(word)?;
        match number {
            Some(number) => write!(f, "{number}"),
            None => Ok(()),
        }
    }
}

/// The element of an SVG that stands for a mark, with its place and then an end for `{}`, and a
/// smaller one where columns have no room beside each other.
pub(crate) fn element_of(sign: Sign, has_room: bool) -> &'static str {
    match (sign, has_room) {
        (Sign::Level(_) | Sign::Truth(_), _) => "",
        (Sign::Number(_), _) => "<path class=\"e\" d=\"M{} {}V{}\"/>\n",
        (Sign::Event(_), true) => "<circle class=\"s\" cx=\"{}\" cy=\"{}\" r=\"5\"/>\n",
        (Sign::Event(_), false) => "<circle class=\"s\" cx=\"{}\" cy=\"{}\" r=\"3.5\"/>\n",
        (Sign::Stray, true) => "<circle class=\"o\" cx=\"{}\" cy=\"{}\" r=\"4.5\"/>\n",
        (Sign::Stray, false) => "<circle class=\"o\" cx=\"{}\" cy=\"{}\" r=\"3\"/>\n",
        (Sign::Scan, true) => "<circle class=\"t\" cx=\"{}\" cy=\"{}\" r=\"3.5\"/>\n",
        (Sign::Scan, false) => "<circle class=\"t\" cx=\"{}\" cy=\"{}\" r=\"2.5\"/>\n",
        (Sign::Sent, _) => "<path class=\"f\" d=\"M{} {}V{}\"/>\n",
        (Sign::Answered(_), _) => "<path class=\"q\" d=\"M{} {}V{}\"/>\n",
        (Sign::Damaged | Sign::GaveUp | Sign::Failed, _) => "<path class=\"l\" d=\"M{} {}V{}\"/>\n",
        (Sign::Down, _) => "<path class=\"l\" d=\"M{} {}H{}\"/>\n",
    }
}

/// The looks of what is written beside a mark in an SVG, and how far right of the mark and above it
/// that stands, in pixels; no looks where nothing is.
pub(crate) fn beside_of(sign: Sign) -> (&'static str, usize, usize) {
    match sign {
        Sign::Level(_) => ("v", 2, 4),
        Sign::Number(_) => ("v", 3, 3),
        Sign::Event(_) => ("i", 7, 3),
        Sign::Answered(_) => ("r", 4, 5),
        Sign::Damaged | Sign::GaveUp | Sign::Failed => ("x", 4, 5),
        Sign::Down => ("x", 0, 5),
        Sign::Truth(_) | Sign::Stray | Sign::Scan | Sign::Sent => ("", 0, 0),
    }
}
