//! A row of a picture in SVG: its name, its place, and its marks.

use crate::axis::{Axis, LEAST_STEP};
use crate::elements::{begin_words, fill, write_words};
use crate::marks::Mark;
use crate::moment::width_of;
use crate::parts::{Kind, Row, Sign};
use crate::sheet::{Base, EDGE, LETTER};
use crate::signs::{beside_of, element_of, gravity, level_of, words_of};
use printout::Printout;

/// The place of a row, which ends at a place.
const PLACE: &str = "<text class=\"p\" x=\"{}\" y=\"{}\" text-anchor=\"end\">{}</text>\n";

/// Draws a row: its name and place, the line on which its marks stand, its levels over that as an
/// area and its edge, and the marks. Those of what went wrong come last, so that no other hides
/// them.
pub(crate) fn write_svg_row(
    page: &mut Printout,
    row: &Row,
    marks: &[Mark],
    axis: &Axis,
    base: Base,
) {
    write_words(page, "n", EDGE, base.name, &row.name);
    if !row.place.is_empty() {
        let end = [axis.left.saturating_sub(10), base.name];
        fill(page, PLACE, &end, &row.place);
    }
    let line = [axis.left, base.y, axis.right];
    fill(page, "<path class=\"b\" d=\"M{} {}H{}\"/>\n", &line, "");
    if row.kind == Kind::Level {
        write_way(page, "<path class=\"a\" d=\"", row.kind, marks, base);
        fill(page, "H{}V{}Z\"/>\n", &[axis.right, base.y], "");
    }
    let is_truth = row.kind == Kind::Variable && matches!(row.first, Some(Sign::Truth(_)));
    if row.kind == Kind::Level || is_truth {
        write_way(page, "<path class=\"e\" d=\"", row.kind, marks, base);
        fill(page, "H{}\"/>\n", &[axis.right], "");
    }
    for is_wrong in [false, true] {
        for mark in marks {
            match mark.sign {
                Some(sign) if (gravity(sign) >= 2) == is_wrong => {
                    write_sign(page, sign, mark, axis, base);
                    write_beside(page, sign, mark, base);
                }
                _ => {}
            }
        }
    }
}

/// Begins a path along the levels of a row, as far as the last mark: the way to each mark and there
/// to its level. At first that of a lamp begins at the base.
fn write_way(page: &mut Printout, begin: &str, kind: Kind, marks: &[Mark], base: Base) {
    page.text(begin);
    for mark in marks {
        let level = level_of(mark.sign);
        let height = base.height_of(level.unwrap_or(0));
        let (form, numbers) = match (mark.is_new, level, kind) {
            (true, Some(_), _) => ("H{}V{}", [mark.x, height, 0]),
            (true, None, _) => ("", [0, 0, 0]),
            (false, Some(_), Kind::Level) => ("M{} {}V{}", [mark.x, base.y, height]),
            (false, Some(_), _) => ("M{} {}", [mark.x, height, 0]),
            (false, None, _) => ("M{} {}", [mark.next, base.y, 0]),
        };
        fill(page, form, &numbers, "");
    }
}

/// Draws what stands for a mark, where it happened.
fn write_sign(page: &mut Printout, sign: Sign, mark: &Mark, axis: &Axis, base: Base) {
    let end = match sign {
        Sign::Down => axis.right,
        Sign::Number(_) => base.y.saturating_sub(6),
        _ => base.y.saturating_sub(13),
    };
    if mark.is_new {
        let element = element_of(sign, axis.is_even);
        fill(page, element, &[mark.x, base.y, end], "");
    }
}

/// Writes what is written of a mark: its word, or its number where that has room up to the next
/// mark. In a column of an even axis each has.
fn write_beside(page: &mut Printout, sign: Sign, mark: &Mark, base: Base) {
    let (class, right, up) = beside_of(sign);
    let (_, word, number) = words_of(sign);
    let right = if mark.is_new { right } else { 2 };
    let width = match number {
        Some(number) => width_of(&number),
        None => 0,
    };
    let least = width.saturating_mul(LETTER).saturating_add(right);
    let has_room = mark.next.saturating_sub(mark.x) >= least.min(LEAST_STEP);
    if class.is_empty() || (number.is_some() && !has_room) {
        return;
    }
    let y = match sign {
        Sign::Level(level) => base.height_of(level),
        _ => base.y,
    };
    let x = mark.x.saturating_add(right);
    begin_words(page, class, x, y.saturating_sub(up));
    page.text(word);
    if let Some(number) = number {
        page.number(number);
    }
    page.text("</text>\n");
}
