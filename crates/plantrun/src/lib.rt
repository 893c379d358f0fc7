//! A plant that is run in threads, on the simulated buses and the clock of a scenario.
//!
//! What crosses the boundary: the setup of a text, a scenario, a limit of events and a number of
//! scan workers go in. [`run`] has `workers` run the plant and hands out what is left, and
//! [`write_run`] writes the lines of it. Threads are the runtime's. The definitions to read first
//! are `IsRun` (specs/Runs.antt), what a run leaves, and `FollowsScenario` (specs/Scenes.antt),
//! what its history says of the scenario.
//!
//! ```text
//! let left = run(rt, alloc, setup, &scenario, limit, workers)?;
//! write_run(&mut out, left.ending(), left.plant())?;
//! ```
#![tactic(auto)]

mod report;
mod running;
mod staging;

pub use plantplay::write_globals;
pub use report::{ended_name, write_run, write_tasks};
pub use running::run;
pub use workers::Closed;
