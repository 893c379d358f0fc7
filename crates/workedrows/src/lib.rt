//! Worked rows of a command line: reads them line by line, has their commands run on a machine that
//! is held in memory, and compares.
//!
//! What crosses the boundary: the lines of rows go into a [`Judge`], who answers the
//! [`CommandLine`] that is to be run next, makes the [`Machine`] for it, and is told how it ended;
//! the first row that is otherwise is a [`RowsStop`]. [`page_steps`] finds the files and the
//! commands that a page of the documents shows. Both formats are those of ../rows/README.md.
//! Nothing is proved of the rows themselves, and a row more costs no proof.
//!
//! ```text
//! if let Some(line) = judge.take_line("-- run check house.il")? {
//!     let machine = judge.machine(&line); // run it, and judge.note_end(status, machine.into_output())
//! }
//! ```
#![tactic(auto)]

mod body;
mod command_line;
mod difference;
mod judge;
mod lines;
mod machine;
mod page;
mod table;

pub use command_line::CommandLine;
pub use difference::{RowDifference, RowsStop};
pub use judge::Judge;
pub use machine::{Machine, Output, Page, StoredFile, Terminal};
pub use page::{Fit, PageStep, ShownRun, page_steps};
pub use table::{CHANGED, ChangedLine};
