//! A scenario, played on one thread: what happens, what is watched, and what it is to come to.
//!
//! What crosses the boundary: [`open`] makes an [`Installation`], a plant on the simulated buses of
//! a scenario. [`play`] plays the scenario on it and writes each event as a line; [`play_on`] tells
//! the events to an observer of the caller's. A [`Watch`] gives the values of variables that are
//! new behind a scan; [`are_met`] says whether global variables have the values that are expected.
//! Read `Happens` (specs/Stage.antt) first, then `IsPlayedTo`, `IsWatchable` (specs/Watched.antt)
//! and `IsMet` (specs/Expected.antt).
//!
//! ```text
//! let mut installation = open(alloc, setup, &scenario, limit)?;
//! let ending = play(alloc, &mut out, FrameStyle::Digits, &mut installation, &scenario)?;
//! ```
#![tactic(auto)]

mod ending;
mod installation;
mod laws;
mod lines;
mod meeting;
mod meetings_reported;
mod naming;
mod opening;
mod playing;
mod reporting;
mod watch;

pub use commandoptions::ExpectedWord;
pub use ending::{Ending, write_counts, write_globals};
pub use installation::Installation;
pub use laws::plays_are_by_scenario;
pub use lines::FrameStyle;
pub use meeting::{are_known, are_met};
pub use meetings_reported::{report_unknown, report_unmet};
pub use naming::{are_watchable, is_named};
pub use opening::{bus_of, open};
pub use playing::{play, play_on, play_watched};
pub use reporting::report_unwatchable;
pub use watch::{Watch, WatchedVariable};
