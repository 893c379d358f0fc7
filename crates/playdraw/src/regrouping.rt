//! Parts of a picture, and columns that are drawn as one.

use crate::parts::{Column, Picture, Row, RowMark, Sign};
use crate::signs::{gravity, lasting};
use std::alloc::{AllocError, Global};
use std::mem;

impl Picture {
    /// What of it is of a bus: no rows of other buses, and the columns of moments, of this bus, and
    /// of what happened to the rows that are left.
    ///
    /// # Errors
    ///
    /// The allocator is out of memory.
    pub fn of_bus(mut self, alloc: Global, bus: u8) -> Result<Picture, AllocError> {
        self.rows.retain(|row| row.bus.unwrap_or(bus) == bus);
        let mut begins = Vec::new(alloc);
        for column in self.columns.iter() {
            let is_kept = column.bus.unwrap_or(bus) == bus;
            begins.push(is_kept.then_some(true))?;
        }
        for row in self.rows.iter() {
            for mark in row.marks.iter() {
                if let Some(begins) = begins.get_mut(mark.column) {
                    *begins = Some(true);
                }
            }
        }
        self.regroup(alloc, &begins)?;
        Ok(self)
    }

    /// What of it happened from a moment to another, in milliseconds, with both. Before the first
    /// moment it is moment 0.
    ///
    /// # Errors
    ///
    /// The allocator is out of memory.
    pub fn between(mut self, alloc: Global, from: u64, until: u64) -> Result<Picture, AllocError> {
        let mut begins = Vec::new(alloc);
        let mut now = 0;
        for column in self.columns.iter() {
            if let Some(moment) = column.moment {
                now = moment.milliseconds;
            }
            let is_kept = from <= now && now <= until;
            begins.push(is_kept.then_some(true))?;
        }
        self.regroup(alloc, &begins)?;
        Ok(self)
    }

    /// Makes other columns of these, of each of which it is said whether it begins one or is one
    /// with those before it; those of which nothing is said are left out.
    pub(crate) fn regroup(
        &mut self,
        alloc: Global,
        begins: &[Option<bool>],
    ) -> Result<(), AllocError> {
        let mut numbers = Vec::new(alloc);
        let columns = mem::replace(&mut self.columns, Vec::new(alloc));
        for (column, begins) in columns.into_iter().zip(begins) {
            if let Some(begins) = *begins {
                add_column(&mut self.columns, column, begins)?;
            }
            numbers.push(begins.and(self.columns.len().checked_sub(1)))?;
        }
        let first = numbers.iter().position(|number| number.is_some());
        let first = first.unwrap_or(numbers.len());
        for row in &mut self.rows {
            regroup_row(alloc, row, &numbers, first)?;
        }
        Ok(())
    }
}

/// Adds a column, as one with the last one unless it begins one.
fn add_column(columns: &mut Vec<Column>, column: Column, begins: bool) -> Result<(), AllocError> {
    match columns.last_mut() {
        Some(last) if !begins => {
            last.title.push_str("\n")?;
            last.title.push_str(&column.title)?;
        }
        _ => columns.push(column)?,
    }
    Ok(())
}

/// Gives the marks of a row the numbers of their columns, where they have one. Before them it is as
/// the marks left it that stood before the first column with a number.
fn regroup_row(
    alloc: Global,
    row: &mut Row,
    numbers: &[Option<usize>],
    first: usize,
) -> Result<(), AllocError> {
    let (before, _) = row.split(first);
    row.first = lasting(before);
    for mark in mem::replace(&mut row.marks, Vec::new(alloc)) {
        if let Some(Some(number)) = numbers.get(mark.column) {
            add_mark(&mut row.marks, *number, mark.sign)?;
        }
    }
    if row.marks.is_empty() && before == Some(Sign::Down) {
        add_mark(&mut row.marks, 0, Sign::Down)?;
    }
    Ok(())
}

/// Adds a mark at a number; of two the one stays that matters more, else the later one.
fn add_mark(marks: &mut Vec<RowMark>, column: usize, sign: Sign) -> Result<(), AllocError> {
    match marks.last_mut() {
        Some(last) if last.column == column => {
            if gravity(last.sign) <= gravity(sign) {
                last.sign = sign;
            }
        }
        _ => marks.push(RowMark { column, sign })?,
    }
    Ok(())
}
