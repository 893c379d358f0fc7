//! Lines of a file, with a place marked.

use crate::spots::{Sought, Spot, before_first, part, place_of};
use ilsource::LineColumn;
use std::alloc::{AllocError, Global};
use std::io::Write;
use std::{fmt, io};

/// Writes where a fault stands, as editors read it: the file, the line and the column.
pub fn write_place<W: Write>(out: &mut W, path: &str, line: usize, col: usize) -> io::Result<()> {
    write!(out, "{path}:{line}:{col}: ")
}

/// Writes a line of a file, counted from 1, and below it a mark at a column, counted from 1, where
/// there is one.
pub fn write_line<W: Write>(
    out: &mut W,
    bytes: &[u8],
    line: usize,
    col: Option<usize>,
) -> io::Result<()> {
    let found = line_of(bytes, line);
    let shown = Shown {
        bytes: found,
        is_blank: false,
    };
    let Some(col) = col else {
        return writeln!(out, "\n{line:>6} | {shown}\n");
    };
    let blanks = Shown {
        bytes: part(found, 0, col.saturating_sub(1)),
        is_blank: true,
    };
    writeln!(out, "\n{line:>6} | {shown}\n       | {blanks}^\n")
}

/// The line of this number, without its end.
pub fn line_of(bytes: &[u8], line: usize) -> &[u8] {
    let rest = part(bytes, place_of(bytes, line, 1), bytes.len());
    part(rest, 0, before_first(rest, Sought::LineFeed))
}

/// The number of the line at a place, counted from 1.
pub fn line_number(bytes: &[u8], place: usize) -> usize {
    LineColumn::of(bytes, place).line
}

/// The column of the first word of a line, counted from 1.
pub fn first_column(bytes: &[u8], line: usize) -> usize {
    before_first(line_of(bytes, line), Sought::NoBlank).saturating_add(1)
}

/// A byte as it is shown: what is not printed ASCII as a question mark.
fn letter(byte: u8) -> char {
    match byte {
        b' '..=b'~' | b'\n' => char::from(byte),
        b'\t' | b'\r' => ' ',
        _ => '?',
    }
}

/// Bytes as they are shown.
pub fn shown_text(alloc: Global, bytes: &[u8]) -> Result<String, AllocError> {
    let mut text = String::new(alloc);
    for byte in bytes {
        if *byte != b'\r' {
            text.push(letter(*byte))?;
        }
    }
    Ok(text)
}

/// Bytes as they are shown, or a blank for each.
#[derive(Clone, Copy)]
struct Shown<'a> {
    bytes: &'a [u8],
    is_blank: bool,
}

impl fmt::Display for Shown<'_> {
    fn fmt<W: fmt::Write>(&self, f: &mut fmt::Formatter<W>) -> fmt::Result {
        for byte in self.bytes {
            f.write_char(if self.is_blank { ' ' } else { letter(*byte) })?;
        }
        Ok(())
    }
}

/// Writes what stands at a column of a line: a word, a number, a sign, or an end.
pub fn write_found<W: Write>(out: &mut W, bytes: &[u8], line: usize, col: usize) -> io::Result<()> {
    let spot = Spot::of(bytes, place_of(bytes, line, col));
    let found = Shown {
        bytes: spot.token(),
        is_blank: false,
    };
    let end = if spot.at >= bytes.len() {
        "the end of the text"
    } else if found.bytes.is_empty() {
        "the end of the line"
    } else {
        ""
    };
    writeln!(out, "found: {end}{found}")
}
