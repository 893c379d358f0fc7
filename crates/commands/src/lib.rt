//! The command line: reads its words, does what they ask for over a runtime, prints what it came
//! to, and says how the program ends.
//!
//! What crosses the boundary: [`run`] takes a runtime, with the words of a command line, files and
//! a terminal, the runtime whose threads are taken, and the site of a building's lines; an
//! [`ExitStatus`] comes out. `commandline` reads the words, `commandpaths` looks where a command
//! writes, and one of `commandfiles`, `commandtexts`, `commandcodes`, `commandplays` and
//! `commandlives` serves it; what each of these promises, its definitions say (read first
//! `IsServed` of `commandfiles` and `IsPlayed` of `commandplays`), and their public functions stand
//! here too. What is printed, on which of the two outputs, is by rows alone.
//!
//! ```text
//! let status = commands::run(&rt, &rt, &site); // words, files and terminal; threads; lines
//! ```
#![tactic(auto)]

mod shell;
mod shell_tools;

pub use commandcodes::{serve_check_code, serve_code};
pub use commandlives::{Grounds, Halted, LiveEnd, LiveLeft, Notice, serve_live, status_of_live};
pub use commandplays::{RunEnd, serve_look, serve_play, serve_run, status_of_run};
pub use commandtexts::{
    Beginning, Disk, DiskFault, ExitStatus, HostDisk, KeptNote, Unserved, serve, serve_question,
};
pub use shell::run;
