//! A place of a text, and changes there that may cure it.
//!
//! What crosses the boundary: a [`Spot`], what stands at a place and around it; [`Surroundings`],
//! what is open there; [`Possible`], what could stand there, for which the parser is asked; an
//! [`Edit`], a change, with its [`EditOutcome`] where it is tried; and a [`FaultAnswer`], what is
//! said of a fault, with a change that was tried, or lines of another text. [`Edit::outcome`] says
//! what the loader says of the text with the change (`IsTried`). [`left_out`] and
//! [`in_place_of_sign`] take away signs that stand for nothing, and nothing else (`LeavesOut`,
//! `ReplacesSign`). What is printed is fixed by worked rows (crates/rows); of the rest of the code
//! it is proved that it is safe and ends.
//!
//! ```text
//! let spot = Spot::of(text, at);
//! let edit = Edit::new(alloc, spot.at, spot.found_to(), b"LD")?;
//! let is_read = edit.is_read(alloc, &spot, 0, false)?;
//! ```
#![tactic(auto)]

mod answers;
mod edits;
mod leaving_out;
mod marking;
mod nearest;
mod possible;
mod spots;
mod surroundings;
mod words;

pub use answers::{Advice, AskedText, Example, FaultAnswer, write_answer};
pub use edits::{Edit, EditOutcome, Side, TriedLines, is_end};
pub use leaving_out::{in_place_of_sign, left_out};
pub use marking::{
    first_column, line_number, line_of, shown_text, write_found, write_line, write_place,
};
pub use nearest::{is_near, meant_instruction, near_word};
pub use possible::{Possible, list_words};
pub use spots::{Spot, content_len, part, place_of};
pub use surroundings::{OpenConstruct, Surroundings};
pub use words::{Group, is_of_group, is_one_of, sign_name};
