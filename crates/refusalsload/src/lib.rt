//! Wrong bodies that the contracts of the crates above the plant rule out. Each function here calls
//! the real one at an input where a wrong body answers otherwise, and is proved from that one's
//! contract alone. So it stays proved only while the contract refuses the wrong body, which its
//! comment names.
//!
//! What crosses the boundary: nothing that a program calls. The functions are the statements, and
//! each can be read by itself: the first to read is [`letter_case_of_a_name_does_not_matter`].
//!
//! ```text
//! letter_case_of_a_name_does_not_matter(&plan) // true: LAMP is lamp
//! ```
//!
//! [`letter_case_of_a_name_does_not_matter`]: names::letter_case_of_a_name_does_not_matter
#![tactic(auto)]

pub mod answering;
pub mod controllers;
pub mod ended;
pub mod lines;
pub mod lists;
pub mod names;
pub mod statuses;
pub mod steps;
pub mod texts;
pub mod words;
