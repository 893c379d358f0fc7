//! Wrong bodies that the contracts of the bus crates rule out. Each function here calls the real
//! one at an input where a wrong body answers otherwise, and is proved from that one's contract
//! alone. So it stays proved only while the contract refuses the wrong body, which its comment
//! names.
//!
//! What crosses the boundary: nothing that a program calls. The functions are the statements, and
//! each can be read by itself: the first to read is [`one_return_ends_a_line`].
//!
//! ```text
//! one_return_ends_a_line() // 2: the first line of x CR CR LF has two bytes
//! ```
#![tactic(auto)]

pub mod bindings;
pub mod clocks;
pub mod events;
pub mod frames;
pub mod lines;
pub mod mending;
pub mod performing;
pub mod scenarios;
pub mod simulated;
pub mod traces;
pub mod transactions;
pub mod words;
pub mod writing;
