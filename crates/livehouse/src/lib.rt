//! A building: its lines are opened, and the plant of a text runs over them for as long as it is
//! to.
//!
//! What crosses the boundary: the setup of a text, the words of `--line` and a [`Site`] go in,
//! which opens the lines and makes the clock. [`open`] judges the words, opens and greets each line
//! in the order of the buses, and hands out a [`Building`]; nothing was sent then. A [`Departure`]
//! shows what is about to run. [`Building::go`] runs it and hands out what is left. [`HostSite`] is
//! the machine's devices and its clock, and a [`DownWatch`] ends that clock where a bus goes down.
//! The definitions to read first are `AreLinesOf` (specs/Lineups.antt), which words name the line
//! of each bus, and `IsOpened` (specs/Buildings.antt), what a building is before it runs.
//!
//! ```text
//! let building = open(alloc, &site, setup, &lines, &options, 0)?;
//! let lived = building.go(rt, alloc)?;
//! ```
#![tactic(auto)]

mod buildings;
mod departure;
mod host;
mod host_files;
mod host_lines;
mod host_storage;
mod lineup;
mod reasons;
mod site;
mod stops;
mod watch;

pub use buildings::{Building, open};
pub use departure::Departure;
pub use host::{HostLine, HostSite};
pub use host_files::{Exclusive, FileId};
pub use host_lines::{Devices, HostDevices, HostOpener, HostTeller, hold_standard_files};
pub use host_storage::HostStorage;
pub use lineup::LineupFault;
pub use livejournal::{BuildingObserver, Care, Gate, OpenGate, Storage};
pub use liveline::LineStarter;
pub use plantlive::{Ended, Lived};
pub use reasons::DownReasons;
pub use site::{Site, SiteFault};
pub use stops::LiveStop;
pub use watch::{DownWatch, End, StopAt, WatchedGate};
