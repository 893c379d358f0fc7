//! Nine ledgers side by side: a group of the 81 seats.
//!
//! What crosses the boundary: [`GroupLockTallies`] have a total for each place of a group. A
//! [`GroupThreadTally`] is the whole share of one of the group's ledgers, so its amount is the
//! total at its place: the two change together or not at all. [`NewGroupTallies`] make them, for
//! the ledgers whose names [`LedgerNames`] has. What contracts see of a thread's tally stands in
//! specs/Groups.antt, to be read first.
//!
//! ```text
//! let (mut tallies, mut thread_tallies) = NewGroupTallies::new().open::<N, 0>();
//! tallies.add(&mut thread_tallies.t3, 1);
//! ```
#![tactic(auto)]

mod group;
mod names;
mod opening;

pub use group::{GroupLockTallies, GroupThreadTally};
pub use names::LedgerNames;
pub use opening::{GroupThreadTallies, NewGroupTallies};
