//! What is written beside a running building: a log of its events in words, a record that plays
//! again, its status, and the values that it keeps.
//!
//! What crosses the boundary: a [`BuildingObserver`] is a `plantturns::Gate`, so each worker tells
//! it what it did, with its place in the history, once the plant is unlocked. What was told waits
//! until all before it was told too. At each tick the clock's worker takes what is in order: it
//! repeats it on a plant of its own, whose variables, queues and counts the lines show, and writes.
//! So no scan and no frame waits for a file. [`Storage`] is where files go. Nothing that an
//! observer does reaches the plant or a bus; a file that cannot be written is told once and tried
//! again each time that it is due, and the building goes on. The definition to read first is
//! `IsServed` (specs/Trying.antt), when a file is tried.
//!
//! ```text
//! let observer = BuildingObserver::open(rt, alloc, &storage, &beside, setup, kept, workers)?;
//! // the building runs, with the observer as its gate
//! observer.finish();
//! ```
#![tactic(auto)]

mod counts;
mod files;
mod follower;
mod history;
mod keep;
mod levels;
mod log;
mod log_lines;
mod observer;
mod opening;
mod page;
mod pages;
mod record;
mod seen;
mod status;
mod storage;
mod told;
mod unsorted;

pub use observer::BuildingObserver;
pub use plantturns::{Gate, OpenGate};
pub use storage::{Care, Storage};
