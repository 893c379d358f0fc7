//! A picture as lines for a terminal.

use crate::axis::{Axis, even_axis};
use crate::kinds::{Block, blocks_of, widest_of};
use crate::marks::{Mark, marks_of};
use crate::moment::width_of;
use crate::parts::{Kind, Picture, Row, Sign};
use crate::signs::level_of;
use printout::Printout;
use std::alloc::{AllocError, Global};
use std::io;
use std::io::Write;

/// The width of a line, where names are short.
const WIDTH: usize = 80;
/// The width of a cell: each column has one.
const CELL: usize = 5;

/// Levels from low to high, each as high as it is; off is a floor.
const BLOCKS: [&str; 9] = ["_", "▁", "▂", "▃", "▄", "▅", "▆", "▇", "█"];

/// What the signs mean.
const SIGNS: &str = "●9 event, with its information   ○ event of no source   • the task ran
│ frame sent   │7 answered 7   │? damaged   │× lost   │! bus interface failed\n";

/// Draws a picture as lines: bands one below the other, each with all rows.
///
/// # Errors
///
/// The writer's, or that the allocator is out of memory.
pub fn write_text<W: Write>(alloc: Global, out: &mut W, picture: &Picture) -> io::Result<()> {
    text_of(alloc, picture)?.write_to(out)
}

/// A picture as lines.
fn text_of(alloc: Global, picture: &Picture) -> Result<Printout, AllocError> {
    let mut blocks = blocks_of(alloc, &picture.rows)?;
    for block in &mut blocks {
        block.fold(alloc, &picture.rows, WIDTH)?;
    }
    let names = widest_of(&picture.rows, &blocks, 1, 0);
    let places = widest_of(&picture.rows, &blocks, 0, 1);
    let left = names.saturating_add(places).saturating_add(4);
    let cells = (WIDTH.saturating_sub(left) / CELL).max(1);
    let mut page = Printout::new(alloc);
    let mut first: usize = 0;
    for columns in picture.columns.chunks(cells) {
        let mut axis = even_axis(alloc, columns, 0, CELL, 0)?;
        axis.first = first;
        draw_rows(alloc, &mut page, picture, &blocks, &axis, (names, places))?;
        write_moments(&mut page, &axis, left);
        first = first.saturating_add(cells);
    }
    for block in &blocks {
        write_lines(&mut page, &block.folded);
    }
    page.text(SIGNS);
    write_lines(&mut page, &picture.notes);
    Ok(page)
}

/// Draws the rows of a picture with their marks on an axis, behind names and places in these widths.
fn draw_rows(
    alloc: Global,
    page: &mut Printout,
    picture: &Picture,
    blocks: &[Block],
    axis: &Axis,
    margins: (usize, usize),
) -> Result<(), AllocError> {
    for block in blocks {
        for row in picture.rows.iter() {
            if block.draws(row) {
                let marks = marks_of(alloc, row, axis)?;
                write_text_row(page, row, &marks, margins);
            }
        }
    }
    Ok(())
}

/// Writes lines.
fn write_lines(page: &mut Printout, lines: &[String]) {
    for line in lines {
        page.text(line);
        page.text("\n");
    }
}

/// Writes a line of the moments of a band whose first cell begins at `left`, each where there is
/// room, where there is one, and an empty line.
fn write_moments(page: &mut Printout, axis: &Axis, left: usize) {
    let mut end = 0;
    for (x, moment) in axis.labels.iter() {
        let x = x.saturating_add(left);
        if end < x {
            page.repeat(" ", x.saturating_sub(end));
            page.shown(moment);
            end = x.saturating_add(width_of(moment));
        }
    }
    page.text(if end == 0 { "\n" } else { "\n\n" });
}

/// Draws a row, its name and place in these widths: a level as high as it is, up to the next one,
/// and other marks in their cells.
fn write_text_row(page: &mut Printout, row: &Row, marks: &[Mark], (names, places): (usize, usize)) {
    write_padded(page, &row.name, names);
    write_padded(page, &row.place, places);
    let mut end = 0;
    for mark in marks {
        end = match (row.kind, level_of(mark.sign)) {
            (_, Some(level)) => write_level(page, level, mark, end),
            (Kind::Level, None) => end,
            (_, None) => write_cells(page, mark, end),
        };
    }
    page.text("\n");
}

/// Writes a text in a width, and two spaces.
fn write_padded(page: &mut Printout, text: &str, width: usize) {
    page.text(text);
    let gap = width.saturating_sub(text.len());
    page.repeat(" ", gap.saturating_add(2));
}

/// Draws a level up to the next mark, behind its number where it is not TRUE or FALSE. Where that
/// ends; what stands before ends at `end`.
fn write_level(page: &mut Printout, level: u8, mark: &Mark, end: usize) -> usize {
    if mark.x >= mark.next {
        return end;
    }
    page.repeat(" ", mark.x.saturating_sub(end));
    let mut begins = mark.x;
    if let Some(Sign::Level(level)) = mark.sign {
        page.count(usize::from(level));
        begins = begins.saturating_add(width_of(&level));
    }
    let block = BLOCKS.get((usize::from(level) + 31) / 32).copied();
    page.repeat(block.unwrap_or("█"), mark.next.saturating_sub(begins));
    mark.next
}

/// Writes a mark, and a dot in each further cell up to the next mark, each where there is room: a
/// number of a variable touches nothing. Where that ends; what stands before ends at `end`.
fn write_cells(page: &mut Printout, mark: &Mark, end: usize) -> usize {
    let mut end = end;
    for x in (mark.x..mark.next).step_by(CELL) {
        let has_room = match mark.sign {
            Some(Sign::Number(_)) => end == 0 || end < x,
            _ => end <= x,
        };
        if has_room {
            page.repeat(" ", x.saturating_sub(end));
            end = x.saturating_add(match mark.sign {
                Some(sign) if x == mark.x => {
                    page.shown(&sign);
                    width_of(&sign)
                }
                _ => {
                    page.text("·");
                    1
                }
            });
        }
    }
    end
}
