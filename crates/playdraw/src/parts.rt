//! What a picture is made of.

use crate::moment::Moment;
use crate::signs::lasting;
use std::alloc::{AllocError, Global};

/// What a scenario did.
#[derive(Drop)]
pub struct Picture {
    /// What it is of: the files of the scenario.
    pub name: String,
    /// The steps of time, from left to right.
    pub columns: Vec<Column>,
    /// What is followed through time: any number of rows of each kind. They are drawn kind by kind.
    pub rows: Vec<Row>,
    /// What is said below, a line each.
    pub notes: Vec<String>,
}

/// A step of time.
#[derive(Drop)]
pub struct Column {
    /// The moment that begins here, where one does.
    pub moment: Option<Moment>,
    /// The bus on which it happened, where it happened on one.
    pub bus: Option<u8>,
    /// Whether it follows from what happened before: from the moment, or from what was heard.
    pub follows: bool,
    /// What happened, in words.
    pub title: String,
}

/// A kind of rows.
#[derive(Clone, Copy, PartialEq, Eq)]
pub enum Kind {
    /// The level of a lamp, of a group, or of all lamps of a bus.
    Level,
    /// What was heard of a button or a sensor.
    Source,
    /// When a task ran.
    Task,
    /// The value of a variable.
    Variable,
    /// What was sent on a bus.
    Bus,
}

/// A thing that a picture follows through time.
#[derive(Drop)]
pub struct Row {
    pub kind: Kind,
    /// What people call it; `-` where it has no name.
    pub name: String,
    /// Where it is.
    pub place: String,
    /// The bus that it belongs to, where it belongs to one.
    pub bus: Option<u8>,
    /// Its level or value before its first mark, where it has one.
    pub first: Option<Sign>,
    /// What happened to it, by rising columns.
    pub marks: Vec<RowMark>,
}

/// What happened in a column of a row.
#[derive(Clone, Copy)]
pub struct RowMark {
    /// The column, counted from 0.
    pub column: usize,
    pub sign: Sign,
}

/// A kind of mark.
#[derive(Clone, Copy, PartialEq, Eq)]
pub enum Sign {
    /// From here on it has this level, 0 to 254.
    Level(u8),
    /// From here on the variable is TRUE or FALSE.
    Truth(bool),
    /// From here on the variable is this number.
    Number(i64),
    /// An event with this information was heard.
    Event(u16),
    /// An event was heard that nobody waits for.
    Stray,
    /// The task ran.
    Scan,
    /// Frames were sent, and nobody answered.
    Sent,
    /// Frames were sent, and the last was answered.
    Answered(u8),
    /// Frames were sent, and the answer was damaged.
    Damaged,
    /// Frames were lost in each attempt.
    GaveUp,
    /// The bus interface failed at a frame.
    Failed,
    /// The bus went down.
    Down,
}

impl Picture {
    /// A picture of nothing.
    pub fn new(alloc: Global) -> Self {
        Picture {
            name: String::new(alloc),
            columns: Vec::new(alloc),
            rows: Vec::new(alloc),
            notes: Vec::new(alloc),
        }
    }
}

impl Row {
    /// Sets what happened in a column, unless that is the level or the value that it has already. A
    /// column has one mark of a row, the last.
    ///
    /// # Errors
    ///
    /// The allocator is out of memory.
    pub fn set(&mut self, column: usize, sign: Sign) -> Result<(), AllocError> {
        let (before, _) = self.split(usize::MAX);
        if lasting(before) == Some(sign) {
            return Ok(());
        }
        match self.marks.last_mut() {
            Some(last) if last.column >= column => last.sign = sign,
            _ => self.marks.push(RowMark { column, sign })?,
        }
        Ok(())
    }

    /// What it was before a column, and its marks from there on.
    pub(crate) fn split(&self, column: usize) -> (Option<Sign>, &[RowMark]) {
        let past = self.marks.partition_point(|mark| mark.column < column);
        let (past, marks) = self.marks.split_at(past);
        match past.last() {
            Some(mark) => (Some(mark.sign), marks),
            None => (self.first, marks),
        }
    }
}
