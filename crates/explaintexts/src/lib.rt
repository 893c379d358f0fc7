//! What is said of the faults of a text: what could stand there, and a line that was tried.
//!
//! What crosses the boundary: [`answer_text`], of a cause at a place; a change that it shows was
//! tried (`ShowsCure`). What people write who come from other languages has a row each
//! (src/habit_rows.rt), in patterns (`explainpatterns`). What is printed is fixed by worked rows
//! (crates/rows); of the rest of the code it is proved that it is safe and ends.
//!
//! ```text
//! let answer = answer_text(alloc, &asked, line, col, TextCause::Unexpected)?;
//! ```
#![tactic(auto)]

mod answers;
mod decimals;
mod examples;
mod filling;
mod habit;
mod habit_rows;
mod habits;
mod near_rows;
mod numbers;
mod proposals;
mod said;

pub use answers::answer_text;
