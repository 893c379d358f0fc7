//! The words of the tasks of an accepted text as lists, with what is known before each word and
//! which words make the bound of a scan, and who calls each function.
//!
//! What crosses the boundary: a setup, and lines on a writer. A [`WordText`] and a [`KnownText`] are
//! written with the names of the text, which [`TaskNames`] has. What is known before a word
//! ([`Entry`](ilverify::Entry)) and how long the ways from it are is what `ilverify` found, to be
//! read first. All this is for people: the verdict is that of `ilverify`. What is printed is fixed
//! by worked rows (crates/rows); of the code it is proved that it is safe and ends.
//!
//! ```text
//! write_task(alloc, &mut out, &setup, 0)?;
//! ```
#![tactic(auto)]

mod bodies;
mod marks;
mod table;
mod task_names;
mod uses;
mod words;

pub use bodies::{print_deepest_calls, print_longest_calls};
pub use marks::{add_at, count_at, is_marked, mark};
pub use table::write_task;
pub use task_names::{TaskNames, functions_in, name_in};
pub use uses::{line_at, read_by, written_by};
pub use words::{KnownText, ValuesText, WordText};
