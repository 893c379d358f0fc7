//! Wrong bodies that the contracts of the plant's crates rule out. Each function here calls the
//! real one at an input where a wrong body answers otherwise, and is proved from that one's
//! contract alone. So it stays proved only while the contract refuses the wrong body, which its
//! comment names.
//!
//! What crosses the boundary: nothing that a program calls. The functions are the statements, and
//! each can be read by itself: the first to read is [`bus_that_is_up_does_not_come_up`]. The plants
//! and histories are any of which the `requires` are so.
//!
//! ```text
//! bus_that_is_up_does_not_come_up(&mut plant) // Err(NothingReady): it has nothing to come up from
//! ```
//!
//! [`bus_that_is_up_does_not_come_up`]: coming_up::bus_that_is_up_does_not_come_up
#![tactic(auto)]

pub mod bus_turns;
pub mod buses;
pub mod coming_up;
pub mod links;
pub mod locks;
pub mod plants;
pub mod plays;
pub mod runs;
pub mod shares;
pub mod tasks;
pub mod told;
