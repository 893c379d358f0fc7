//! Numbers that two sides agree upon, one for each seat of a plant.
//!
//! What crosses the boundary: [`LockTallies`] stand under a lock and have a number for each seat.
//! The [`ThreadTally`] of a seat stands in a thread, and its amount is that number: the two change
//! together or not at all, so whoever has both at hand knows that they agree. [`NewTallies`] make
//! them.
//!
//! Callers take any `K: Tallies<T>` with `T: Tally` (src/tallies.rt, to be read first), and name
//! all ledgers in one call alone. These stand in nine groups (`tallygroups`).
//!
//! ```text
//! let (mut tallies, mut thread_tallies) = NewTallies::new().open::<N>(alloc)?;
//! tallies.add(&mut thread_tallies[3], 1);
//! ```
#![tactic(auto)]

mod all_groups;
mod opening;
mod tallies;

pub use all_groups::{LockTallies, ThreadTally};
pub use opening::NewTallies;
pub use tallies::{Tallies, Tally};
pub use tallygroups::LedgerNames;
