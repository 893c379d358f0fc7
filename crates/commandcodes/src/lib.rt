//! Codes on a command line: code files are written and judged, and frames, events and requests are
//! said in words.
//!
//! What crosses the boundary: [`serve_code`] writes the code file of a task of a text to a disk,
//! and [`serve_check_code`] prints whether a file is one whose code is accepted. [`serve_frames`]
//! prints what frames say, [`serve_event`] the line of a scenario for an event of a source, and
//! [`request_in`] gives the request that the name of a block or of a command asks for. The
//! definitions to read first are `IsCodeServed` and `IsCodeJudged` (specs/CodeFiles.antt); what is
//! printed of frames, events and requests is by rows alone.
//!
//! ```text
//! let (out, status) = serve_code(alloc, &disk, out, &mut complaints, files, task, to)?;
//! ```
#![tactic(auto)]

mod code_files;
mod decoding;
mod naming;
mod wording;

pub use code_files::{serve_check_code, serve_code};
pub use naming::{NamedRequest, RequestRefusal, request_in};
pub use wording::{serve_event, serve_frames};
