//! Scenarios: their files are read, and they are played on simulated buses, run there in threads,
//! or drawn.
//!
//! What crosses the boundary: the paths of a scenario's files and what is asked of it go in; lines
//! on a writer and an exit status come out. [`serve_play`] plays, [`serve_run`] runs and gives a
//! [`RunEnd`], of which [`status_of_run`] says how the program ends, and [`serve_look`] plays and
//! draws a picture. The definitions to read first are `IsPlayed` (specs/Plays.antt), what a play
//! comes to by what the disk gave, and `IsRunServed` (specs/Runs.antt); what is printed is by rows
//! alone.
//!
//! ```text
//! let (out, status) = serve_play(alloc, &disk, out, &mut complaints, files, limit, &shows)?;
//! ```
#![tactic(auto)]

mod brief;
mod looking;
mod pages;
mod playing;
mod running;
mod unknown;

pub use looking::serve_look;
pub use playing::serve_play;
pub use running::{RunEnd, serve_run, status_of_run};
