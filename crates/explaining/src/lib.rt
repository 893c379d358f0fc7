//! What stands against a file, explained: the line with the place marked, the cause in words, what
//! could stand there, and the cure; of a refused word also what is known there, and a way that
//! leads there.
//!
//! What crosses the boundary: the bytes of a file with its fault ([`AskedText`] for a text, and
//! what `plantload::load_with_source` says of it), and an [`Explanation`], or lines on a writer. An
//! explanation stands at the place that the loader gives (`StandsAt`), and a change of the text
//! that it shows was tried: with it the text is accepted, or its fault is gone (`ShowsCure`). What
//! is printed is fixed by worked rows (crates/rows); of the rest of the code it is proved that it
//! is safe and ends.
//!
//! ```text
//! let Err(stop) = load_with_source(alloc, &text, &binding) else { .. };
//! explanation_of(alloc, &asked, &stop)?.write_to(alloc, &mut out, &text)?;
//! ```
#![tactic(auto)]

mod code_answers;
mod code_causes;
mod code_edits;
mod cured;
mod files;
mod further;
mod mismatch;
mod refused;
mod requests;
mod taken;
mod told;
mod ways;

pub use explaincures::AskedText;
pub use files::{explain_binding, explain_scenario, explanation_of};
pub use told::Explanation;
