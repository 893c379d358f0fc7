//! How a line of a text looks: patterns with words, signs and slots, and which a line is like.
//!
//! What crosses the boundary: a [`Standing`], a place of a text that is asked about; and a
//! [`Likeness`], where its line is like a pattern, with what stands in the slots
//! (src/likeness.rt says how patterns are written). Which patterns there are, and what is said of
//! each, stands in the crate above. Of the code it is proved that it is safe and ends; what it
//! finds is fixed by worked rows (crates/rows).
//!
//! ```text
//! let like = Likeness::of(&standing, "^ ld @ {function} ~(", "")?;
//! ```
#![tactic(auto)]

mod around;
mod bytes;
mod conditions;
mod kinds;
mod likeness;
mod slots;
mod spans;
mod standing;

pub use bytes::{count_of_digits, digits_len, is_digits, place_of_any, place_of_pair};
pub use likeness::Likeness;
pub use standing::{Extent, Standing};
