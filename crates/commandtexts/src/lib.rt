//! What people ask of a text: notes on it, its words, and what stands against it.
//!
//! What crosses the boundary: [`serve_question`] reads the files that a [`commandline::Question`]
//! is about and prints what is asked, as lines or as one JSON object. What is printed is by rows
//! alone, so there is no definition here; the files are read by `commandfiles::bytes_at`, whose
//! contract says what the disk gave.
//!
//! ```text
//! let (out, status) = serve_question(alloc, &disk, out, &mut complaints, files, question)?;
//! ```
#![tactic(auto)]

mod objects;
mod telling;

pub use commandfiles::{
    Beginning, Disk, DiskFault, ExitStatus, HostDisk, KeptNote, Unserved, serve,
};
pub use telling::serve_question;
