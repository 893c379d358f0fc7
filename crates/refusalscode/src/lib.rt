//! Wrong bodies that the contracts of the crates of codes rule out. Each function here calls the
//! real one at an input where a wrong body answers otherwise, and is proved from that one's
//! contract alone. So it stays proved only while the contract refuses the wrong body, which its
//! comment names.
//!
//! What crosses the boundary: nothing that a program calls. The functions are the statements, and
//! each can be read by itself: the first to read is [`ways_that_meet_are_joined`]. Codes that
//! several take stand in specs/Codes.antt, a word a line.
//!
//! ```text
//! ways_that_meet_are_joined(alloc, meeting) // false: the code goes wrong on the second way
//! ```
//!
//! [`ways_that_meet_are_joined`]: verdicts::ways_that_meet_are_joined
#![tactic(auto)]

pub mod bounds;
pub mod compiled;
pub mod files;
pub mod images;
pub mod known;
pub mod machines;
pub mod packing;
pub mod places;
pub mod ready;
pub mod rows;
pub mod verdicts;
