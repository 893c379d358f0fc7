//! Why a line of a binding or of a scenario is bad: the one reason, with its column.
//!
//! What crosses the boundary: the bytes of a file with its fault, and a [`BadLine`]. The rules are
//! those of `wordlines`, to be read first. A line that is shown in place of a bad one was tried
//! (`CuresLine`, specs/Curing.antt). What is printed is fixed by worked rows (crates/rows); of the
//! rest of the code it is proved that it is safe and ends.
//!
//! ```text
//! // two blanks, at column 7
//! let bad = bad_line(alloc, LineFile::Binding, bytes, 3, LineCause::BadLine)?;
//! ```
#![tactic(auto)]

mod forms;
mod lines;
mod order;
mod reason;
mod words;

pub use lines::{BadLine, LineFile, bad_line};
