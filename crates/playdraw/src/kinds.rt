//! The kinds of rows, and which rows of a kind are drawn.

use crate::parts::{Kind, Row};
use std::alloc::{AllocError, Global};

/// The kinds, in the order in which they are drawn, with what stands above their rows, and what is
/// said of those without a mark.
const KINDS: [(Kind, &str, &str); 5] = [
    (Kind::Level, "LEVELS", "levels that never change"),
    (
        Kind::Source,
        "BUTTONS AND SENSORS",
        "sources without an event",
    ),
    (Kind::Task, "TASKS", "tasks that never ran"),
    (Kind::Variable, "VARIABLES", "variables that never change"),
    (Kind::Bus, "FRAMES", "buses without a frame"),
];

/// The rows of a kind.
#[derive(Drop)]
pub(crate) struct Block {
    pub kind: Kind,
    /// What stands above them.
    pub heading: &'static str,
    /// What is said of those without a mark.
    silence: &'static str,
    /// How many are drawn.
    pub drawn: usize,
    /// How many are folded: they have no mark, a line names them, and they are not drawn.
    silent: usize,
    /// What is said of those that are folded, a line each.
    pub folded: Vec<String>,
    /// Where the first one begins on a sheet, in pixels.
    pub top: usize,
    /// Where the last one that is drawn ends there.
    pub end: usize,
    /// Whether they are low there, since rows are many.
    pub is_low: bool,
}

impl Block {
    /// Whether a row is of this kind and drawn.
    pub fn draws(&self, row: &Row) -> bool {
        row.kind == self.kind && (self.silent == 0 || !row.marks.is_empty())
    }

    /// Says of the rows that are folded what they are, in lines of this width at most, where a name
    /// is not wider.
    pub fn fold(&mut self, alloc: Global, rows: &[Row], width: usize) -> Result<(), AllocError> {
        let mut left = self.silent;
        if left == 0 {
            return Ok(());
        }
        let mut line = format!(in alloc; "{left} {}:", self.silence)?;
        for row in rows {
            if row.kind == self.kind && row.marks.is_empty() {
                left = left.saturating_sub(1);
                let word = word_of(alloc, row, if left == 0 { "" } else { "," })?;
                if line.len().saturating_add(word.len()) > width {
                    self.folded.push(line)?;
                    line = String::from_str(alloc, " ")?;
                }
                line.push_str(&word)?;
            }
        }
        self.folded.push(line)?;
        Ok(())
    }
}

/// The rows of a picture, kind by kind, where there are any. Those without a mark are folded where
/// they are more than one.
pub(crate) fn blocks_of(alloc: Global, rows: &[Row]) -> Result<Vec<Block>, AllocError> {
    let mut blocks = Vec::new(alloc);
    for (kind, heading, silence) in KINDS {
        let mut all: usize = 0;
        let mut silent: usize = 0;
        for row in rows {
            if row.kind == kind {
                all = all.saturating_add(1);
                silent = silent.saturating_add(usize::from(row.marks.is_empty()));
            }
        }
        if silent < 2 {
            silent = 0;
        }
        if all > 0 {
            blocks.push(Block {
                kind,
                heading,
                silence,
                drawn: all.saturating_sub(silent),
                silent,
                folded: Vec::new(alloc),
                top: 0,
                end: 0,
                is_low: false,
            })?;
        }
    }
    Ok(blocks)
}

/// A row without a mark in words, with its level or value where it has one, up to an end: by its
/// place where it has no name.
fn word_of(alloc: Global, row: &Row, end: &str) -> Result<String, AllocError> {
    let name = match row.name.as_str() {
        "-" => row.place.as_str(),
        name => name,
    };
    match row.first {
        Some(first) => format!(in alloc; " {name} {first}{end}"),
        None => format!(in alloc; " {name}{end}"),
    }
}

/// The width of the widest names and places that are drawn, where letters of names and of places
/// have these widths.
pub(crate) fn widest_of(rows: &[Row], blocks: &[Block], name: usize, place: usize) -> usize {
    let mut widest: usize = 0;
    for block in blocks {
        for row in rows {
            if block.draws(row) {
                let name = row.name.len().saturating_mul(name);
                let place = row.place.len().saturating_mul(place);
                widest = widest.max(name.saturating_add(place));
            }
        }
    }
    widest
}
