//! Why not all rows hold.

use std::alloc::AllocError;
use std::{fmt, io};

/// What a row's command did that it shouldn't, or why its line is not one of a row.
#[derive(Drop)]
pub enum RowDifference {
    /// The line is none of a row.
    Line,
    /// It ended with another status.
    Status(u8),
    /// It printed something else: this.
    Printed(String),
    /// It complained of something else: this.
    Complained(String),
    /// It wrote another file: these hex digits.
    Wrote(String),
    /// A page shows a file or a picture otherwise than it is.
    Page,
}

impl RowDifference {
    /// Its kind, in one word.
    pub fn kind(&self) -> &'static str {
        match self {
            RowDifference::Line => "line",
            RowDifference::Status(_) => "status",
            RowDifference::Printed(_) => "printed",
            RowDifference::Complained(_) => "complained",
            RowDifference::Wrote(_) => "wrote",
            RowDifference::Page => "page",
        }
    }
}

impl fmt::Display for RowDifference {
    fn fmt<W: fmt::Write>(&self, f: &mut fmt::Formatter<W>) -> fmt::Result {
        match self {
            RowDifference::Line => write!(f, "is no line of a row"),
            RowDifference::Page => write!(f, "isn't the file that lies there"),
            RowDifference::Status(status) => write!(f, "ended with status {status}"),
            RowDifference::Printed(text)
            | RowDifference::Complained(text)
            | RowDifference::Wrote(text) => { write!(f, "{}\n{text}", self.kind()) }
        }
    }
}

/// Why the rows are not judged to their end.
pub enum RowsStop {
    Memory,
    /// A file of rows is not read.
    File(io::Error),
    /// The first row that does not hold, the line of it where that shows, and why.
    Row {
        row: String,
        line: String,
        why: RowDifference,
    },
    /// A row of this name holds, though it is wrong.
    Held(String),
}

/// Written out, so that it is proved here alone.
impl Drop for RowsStop {
    fn drop(self) {
        match self {
            RowsStop::Memory => {}
            RowsStop::File(_) => {}
            RowsStop::Row {
                row: _,
                line: _,
                why: _,
            } => {}
            RowsStop::Held(_) => {}
        }
    }
}

impl From<AllocError> for RowsStop {
    fn from(_: AllocError) -> Self {
        RowsStop::Memory
    }
}

impl From<io::Error> for RowsStop {
    fn from(error: io::Error) -> Self {
        RowsStop::File(error)
    }
}

impl fmt::Display for RowsStop {
    fn fmt<W: fmt::Write>(&self, f: &mut fmt::Formatter<W>) -> fmt::Result {
        match self {
            RowsStop::Memory => write!(f, "no memory"),
            RowsStop::File(error) => write!(f, "a file of rows isn't read: {error}"),
            RowsStop::Held(row) => write!(f, "the wrong row '{row}' holds"),
            RowsStop::Row { row, line, why } => write!(f, "row '{row}', at '{line}': {why}"),
        }
    }
}
