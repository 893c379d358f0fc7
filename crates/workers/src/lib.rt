//! A run: scan workers, a worker for each bus, and the clock, over the plant under its lock.
//!
//! What crosses the boundary: [`run`] opens a plant on buses and a clock, lets a thread work for
//! each scan worker and each bus until the end is told, and opens the lock for good. A [`Closed`]
//! is what it leaves: the plant with its history, in which nothing is open, the buses, the clock,
//! and why the run ended. [`run_again`] goes on from it, and [`go_on`] by the given number of
//! events more, as often as a building wants it. The definitions to read first are `HasRun` and
//! `GoesOn` (specs/Runs.antt), and `IsClosed` (specs/Closings.antt).
//!
//! ```text
//! let left = run(rt, alloc, Opening { setup, limit }, buses, clock, 2, &OpenGate)?;
//! let more = go_on(rt, alloc, left, events, &OpenGate)?; // its history goes on
//! ```
#![tactic(auto)]

mod again;
mod beginning;
mod bell;
mod bus_threads;
mod closed;
mod closed_plant;
mod closing;
mod ended;
mod going_on;
mod leaving;
mod linked_shares;
mod pairing;
mod pause;
mod rest;
mod running;
mod scan_threads;
mod serving;
mod worker_threads;
mod working;

pub use again::{go_on, run_again};
pub use closed::{Closed, ClosedParts, NotGoneOn, NotStarted};
pub use closed_plant::ClosedPlant;
pub use ended::Ended;
pub use plant::StartFault;
pub use plantturns::{Gate, Happened, OpenGate};
pub use rest::Rest;
pub use running::{Opening, run};
