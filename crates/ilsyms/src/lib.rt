//! Names of a source program: what each name in a line means, and the plan of its task.
//!
//! What crosses the boundary: [`resolve`], which takes an [`ilsource::Source`] and a binding to its
//! one [`Plan`], where each name is the number of a slot, or reports the least [`NameFault`];
//! [`next_fault`] finds all faults, one after the other. A task of a source program
//! (specs/Tasks.antt) means `source_scan` (specs/Meaning.antt, to be read first), over names. The
//! plan is `plan_of_tree` (specs/Resolved.antt), whose scans leave the same, and what stands
//! against it is `IsFault` (specs/Faults.antt).
//!
//! Meaning and plan find names by one function, `place_of`, so that a mistake in it would be in
//! both. The law [`names_have_places`] says that it makes none: by declarations alone, each name in
//! a line has exactly the place at which what it means stands (`HavePlaces`, specs/Placed.antt).
//!
//! ```text
//! let plan = resolve(alloc, &source, &binding)?; // or: name fault 4 at 7:5
//! ```
#![tactic(auto)]

mod blocks;
mod counting;
mod excess;
mod faults;
mod functions;
mod globals;
mod needs;
mod numbering;
mod past;
mod placing;
mod planning;
mod plans;
mod resolving;
mod slots;
mod task_parts;
mod task_sets;
mod tasks;
mod usage;
mod words;
mod written_twice;

pub use faults::next_fault;
pub use ilplan::{Plan, ProgramInstance, Slot, SlotOwner, Task};
pub use ilscope::{Found, NameCause, NameFault, Scope};
pub use placing::names_have_places;
pub use resolving::resolve;
