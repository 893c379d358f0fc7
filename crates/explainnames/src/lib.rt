//! What is said of the faults of names: names that are near, and where else a name stands; and
//! which faults a text has besides the least.
//!
//! What crosses the boundary: [`answer_name`], of a cause at a place, of which a change that it
//! shows was tried (`ShowsCure`), and [`OtherFaults`]. Names that other languages have stand in
//! short tables (src/name_habits.rt). What is printed is fixed by worked rows (crates/rows); of the
//! rest of the code it is proved that it is safe and ends.
//!
//! ```text
//! let answer = answer_name(alloc, &asked, &source, line, at, NameCause::Unknown)?;
//! let others = OtherFaults::of(alloc, &asked, &source, at, NameCause::Unknown)?;
//! ```
#![tactic(auto)]

mod addresses;
mod answers;
mod declarations;
mod name_answers;
mod name_habits;
mod other_faults;
mod said;
mod standing;
mod tokens;
mod unknown_names;

pub use name_answers::answer_name;
pub use other_faults::{NamedFault, OtherFaults};
