//! Wrong bodies that the contracts of the crates that explain rule out. Each function here calls
//! the real one at an input where a wrong body answers otherwise, and is proved from that one's
//! contract alone. So it stays proved only while the contract refuses the wrong body, which its
//! comment names.
//!
//! What crosses the boundary: nothing that a program calls. The functions are the statements, and
//! each can be read by itself: the first to read is [`shown_change_was_tried`].
//!
//! ```text
//! shown_change_was_tried(alloc, &asked, &stop) // with the change no fault is left up to its lines
//! ```
//!
//! [`shown_change_was_tried`]: explanations::shown_change_was_tried
#![tactic(auto)]

pub mod changes;
pub mod explanations;
pub mod lines;
pub mod names;
pub mod notes;
