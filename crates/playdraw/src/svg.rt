//! A picture as SVG.

use crate::axis::{Axis, place_columns};
use crate::elements::{fill, write_words};
use crate::kinds::{Block, blocks_of, widest_of};
use crate::marks::marks_of;
use crate::moment::width_of;
use crate::parts::Picture;
use crate::sheet::{Base, EDGE, HEADING, LETTER, MOMENTS, NOTE, TOP, place_blocks};
use crate::svg_rows::write_svg_row;
use printout::Printout;
use std::alloc::{AllocError, Global};
use std::io;
use std::io::Write;

/// What stands before all that is drawn, with the width and the height two times, the picture's
/// name, and the looks of what is drawn, by classes.
const HEAD: &str = "<svg xmlns=\"http://www.w3.org/2000/svg\" viewBox=\"0 0 {} {}\" \
width=\"{}\" height=\"{}\" font-family=\"system-ui, 'DejaVu Sans', sans-serif\" \
font-size=\"12\">\n<title>{}</title>
<style>
.d{fill:#222;font-size:13px}
.h{fill:#8a8a8a;font-size:10px;letter-spacing:.08em}
.n{fill:#222;font-weight:600}
.p{fill:#8a8a8a;font-size:10px}
.m{stroke:#dcdcdc}
.g{fill:#eee}
.z{fill:none;stroke:#8a8a8a;stroke-width:1.5}
.k{fill:#555;font-size:11px}
.b{stroke:#d0d0d0}
.a{fill:#ffc93c;fill-opacity:.65}
.e{fill:none;stroke:#c98300;stroke-width:1.5}
.v{fill:#6b4700;font-size:10px}
.s{fill:#2b6cb0}
.o{fill:#fff;stroke:#2b6cb0;stroke-width:1.5}
.i{fill:#2b6cb0;font-size:10px}
.t{fill:#9a9a9a}
.f{stroke:#333;stroke-width:2}
.q{stroke:#2f855a;stroke-width:2}
.r{fill:#2f855a;font-size:10px}
.l{stroke:#c53030;stroke-width:2}
.x{fill:#c53030;font-size:10px;font-weight:600}
.i,.r,.x{paint-order:stroke;stroke:#fff;stroke-width:3px}
.c{fill:none;pointer-events:all}
.c:hover{fill:#2b6cb0;fill-opacity:.08}
</style>
<rect width=\"100%\" height=\"100%\" fill=\"#fff\"/>\n";

/// A time that is left out: the place and the height of its band, and where its strokes begin.
const BREAK: &str = "<rect class=\"g\" x=\"{}\" y=\"{}\" width=\"20\" height=\"{}\"/>
<path class=\"z\" d=\"M{} {}l4 -12m4 12l4 -12\"/>\n";

/// The title of a column: its place, its width and its height, and what happened.
const TITLE: &str = "<rect class=\"c\" x=\"{}\" y=\"{}\" width=\"{}\" height=\"{}\">\
<title>{}</title></rect>\n";

/// What is said of an axis that is not true to time.
const EVEN: &str = "columns in their order: the axis is not true to time";

/// The signs that are explained, from a place on the line of their text.
const SIGNS: &str = "<g transform=\"translate({} {})\">
<circle class=\"s\" cx=\"5\" cy=\"-4\" r=\"5\"/>
<text class=\"p\" x=\"15\">event, with its information</text>
<circle class=\"o\" cx=\"171\" cy=\"-4\" r=\"4.5\"/>
<text class=\"p\" x=\"181\">event of no source</text>
<circle class=\"t\" cx=\"287\" cy=\"-4\" r=\"3\"/>
<text class=\"p\" x=\"295\">the task ran</text>
<path class=\"f\" d=\"M370 2V-10\"/>
<text class=\"p\" x=\"377\">frame sent</text>
<path class=\"q\" d=\"M446 2V-10\"/>
<text class=\"r\" x=\"450\">7</text>
<text class=\"p\" x=\"462\">answered 7</text>
<path class=\"l\" d=\"M531 2V-10\"/>
<text class=\"x\" x=\"535\">?</text>
<text class=\"p\" x=\"545\">damaged</text>
<path class=\"l\" d=\"M602 2V-10\"/>
<text class=\"x\" x=\"606\">×</text>
<text class=\"p\" x=\"616\">lost</text>
<path class=\"l\" d=\"M651 2V-10\"/>
<text class=\"x\" x=\"655\">!</text>
<text class=\"p\" x=\"663\">bus interface failed</text>
</g>\n";

/// Draws a picture as SVG. Where a viewer shows titles, each column has one, with what happened.
///
/// # Errors
///
/// The writer's, or that the allocator is out of memory.
pub fn write_svg<W: Write>(alloc: Global, out: &mut W, picture: Picture) -> io::Result<()> {
    svg_of(alloc, picture)?.write_to(out)
}

/// A picture as SVG.
fn svg_of(alloc: Global, mut picture: Picture) -> Result<Printout, AllocError> {
    let mut blocks = blocks_of(alloc, &picture.rows)?;
    let left = widest_of(&picture.rows, &blocks, 8, LETTER).saturating_add(2 * EDGE);
    let end = left.saturating_add(600).max(1200 - EDGE);
    let axis = place_columns(alloc, &mut picture, left, end)?;
    let width = axis.right.saturating_add(EDGE).max(800);
    let letters = width.saturating_sub(2 * EDGE) / LETTER;
    for block in &mut blocks {
        block.fold(alloc, &picture.rows, letters)?;
    }
    let bottom = place_blocks(&mut blocks);
    let mut page = Printout::new(alloc);
    write_head(&mut page, &picture, width, bottom);
    write_moments(&mut page, &axis, bottom);
    for block in &blocks {
        draw_block(alloc, &mut page, &picture, block, &axis)?;
    }
    write_foot(&mut page, &picture, &axis, bottom);
    Ok(page)
}

/// Writes what stands before all that is drawn, and the picture's name.
fn write_head(page: &mut Printout, picture: &Picture, width: usize, bottom: usize) {
    let notes = picture.notes.len().saturating_add(1).saturating_mul(NOTE);
    let height = bottom.saturating_add(MOMENTS + EDGE).saturating_add(notes);
    fill(page, HEAD, &[width, height, width, height], &picture.name);
    write_words(page, "d", EDGE, TOP - 8, &picture.name);
}

/// Marks the times that are left out: a band over all rows, and two strokes below. Then draws a line
/// for each moment, and writes its name below where there is room; and that the axis is not true to
/// time, where it is not.
fn write_moments(page: &mut Printout, axis: &Axis, bottom: usize) {
    for left in axis.breaks.iter() {
        let (x, stroke) = (left.saturating_add(8), left.saturating_add(12));
        let (height, y) = (bottom.saturating_sub(TOP), bottom.saturating_add(6));
        fill(page, BREAK, &[x, TOP, height, stroke, y], "");
    }
    let mut free: usize = 0;
    for (x, moment) in axis.labels.iter() {
        let (x, y) = (*x, bottom.saturating_add(18));
        let half = width_of(moment).saturating_mul(7) / 2;
        let line = [x, TOP, bottom.saturating_add(4)];
        fill(page, "<path class=\"m\" d=\"M{} {}V{}\"/>\n", &line, "");
        if x >= free.saturating_add(half) {
            let form = "<text class=\"k\" x=\"{}\" y=\"{}\" text-anchor=\"middle\">";
            fill(page, form, &[x, y], "");
            page.shown(moment);
            page.text("</text>\n");
            free = x.saturating_add(half).saturating_add(6);
        }
    }
    if axis.is_even && axis.places.len() > 1 {
        write_words(page, "p", EDGE, bottom.saturating_add(31), EVEN);
    }
}

/// Draws the rows of a kind with their marks, below its heading, and what is said of those that are
/// folded.
fn draw_block(
    alloc: Global,
    page: &mut Printout,
    picture: &Picture,
    block: &Block,
    axis: &Axis,
) -> Result<(), AllocError> {
    let mut top = block.top;
    write_words(page, "h", EDGE, top.saturating_sub(8), block.heading);
    for row in picture.rows.iter() {
        if block.draws(row) {
            let base = Base::of(block.kind, block.is_low, top);
            write_svg_row(page, row, &marks_of(alloc, row, axis)?, axis, base);
            top = top.saturating_add(base.height);
        }
    }
    write_lines(page, "p", &block.folded, block.end.saturating_add(NOTE - 6));
    Ok(())
}

/// Writes lines with the looks of a class, the first one at a height.
fn write_lines(page: &mut Printout, class: &str, lines: &[String], y: usize) {
    let mut y = y;
    for line in lines {
        write_words(page, class, EDGE, y, line);
        y = y.saturating_add(NOTE);
    }
}

/// Writes what the signs mean, the notes, and what happened in each column, over all rows.
fn write_foot(page: &mut Printout, picture: &Picture, axis: &Axis, bottom: usize) {
    let y = bottom.saturating_add(MOMENTS + NOTE - 4);
    fill(page, SIGNS, &[EDGE, y], "");
    write_lines(page, "x", &picture.notes, y.saturating_add(NOTE));
    let height = bottom.saturating_sub(TOP);
    for (number, column) in picture.columns.iter().enumerate() {
        let (x, _) = axis.place(number);
        let (end, _) = axis.place(number.saturating_add(1));
        let area = [x, TOP, end.saturating_sub(x), height];
        fill(page, TITLE, &area, &column.title);
    }
    page.text("</svg>\n");
}
