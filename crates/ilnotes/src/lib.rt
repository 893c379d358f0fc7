//! Notes on an accepted text, and on a scenario that is played with it: what is likely not meant,
//! though nothing stands against it.
//!
//! What crosses the boundary: a setup, its source program and a scenario go in, and lines come out
//! on a writer, or the members of a list of JSON. A note refuses nothing. What the tasks do is found
//! in one walk along their words (facts.rt); each rule looks at that and gives small values, and one
//! printer writes them. Where a note is a sentence about the plan by itself, it is given exactly
//! where that is true. What is printed is fixed by worked rows (crates/rows); of the rest of the code
//! it is proved that it is safe and ends. The definition to read first is `NotesUse` (specs/Said.antt),
//! over those of a plan in specs/Planned.antt.
//!
//! ```text
//! write_notes(alloc, &mut out, &setup, &source, None, asked)?;
//! ```
#![tactic(auto)]

mod block_notes;
mod call_notes;
mod current;
mod facts;
mod kinds;
mod levels;
mod line_starts;
mod load;
mod note;
mod notes;
mod number_notes;
mod overwritten;
mod pace_notes;
mod planned;
mod quoted;
mod range_notes;
mod reads;
mod rules;
mod scenario_notes;
mod text_notes;
mod variable_notes;

pub use kinds::{NOTE_NAMES, is_note_name};
pub use load::write_load;
pub use notes::{NotedFiles, NotesAsked, write_notes};
pub use planned::{is_stored, starts_task, uses_function, uses_source};
pub use quoted::Quoted;
pub use reads::Reads;
pub use scenario_notes::Played;
