//! Wrong bodies that the contracts of what works at real lines rule out: a building, and the
//! installer's tools. Each function here calls the real one at an input where a wrong body answers
//! otherwise, and is proved from that one's contract alone. So it stays proved only while the
//! contract refuses the wrong body, which its comment names.
//!
//! What crosses the boundary: nothing that a program calls. The functions are the statements, and
//! each can be read by itself: the first to read is [`bus_without_a_line_is_refused`].
//!
//! ```text
//! bus_without_a_line_is_refused(alloc, &site, setup, &lines, &options) // never Ok
//! ```
//!
//! [`bus_without_a_line_is_refused`]: openings::bus_without_a_line_is_refused
#![tactic(auto)]

pub mod installing;
pub mod machines;
pub mod openings;
