//! Wrong bodies that the contracts of the language's crates rule out. Each function here calls the
//! real one at an input where a wrong body answers otherwise, and is proved from that one's
//! contract alone. So it stays proved only while the contract refuses the wrong body, which its
//! comment names.
//!
//! What crosses the boundary: nothing that a program calls. The functions are the statements, and
//! each can be read by itself: the first to read is [`letter_case_does_not_matter`].
//!
//! ```text
//! letter_case_does_not_matter() // true: a and A are one name
//! ```
//!
//! [`letter_case_does_not_matter`]: sources::letter_case_does_not_matter
#![tactic(auto)]

pub mod blocks;
pub mod declared;
pub mod kept;
pub mod lines;
pub mod names;
pub mod plans;
pub mod roles;
pub mod sources;
pub mod tokens;
pub mod types;
pub mod uses;
