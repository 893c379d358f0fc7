//! A plant that is run for as long as a building wants it: one run after another, over the same
//! buses and the same clock.
//!
//! What crosses the boundary: a setup, buses, a clock and the events of one run go in. [`live`]
//! runs the plant, and goes on by as many events whenever a run's history is full. A [`Lived`] is
//! what is left, and why it ended. [`period_of`] is how often a text wants the time. The
//! definitions to read first are `HasLived` (specs/Lives.antt), which speaks of all frames since
//! before the first run, and `IsPeriod` (specs/Periods.antt).
//!
//! ```text
//! let lived = live(rt, alloc, Opening { setup, limit }, buses, clock, workers, &OpenGate)?;
//! let plant = lived.left.plant(); // its history is that of all runs
//! ```
#![tactic(auto)]

mod living;
mod period;

pub use living::{Lived, live};
pub use period::period_of;
pub use workers::{Ended, Gate, Happened, Opening};
