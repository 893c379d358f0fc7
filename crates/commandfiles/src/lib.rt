//! The files of a command: they are read, what they hold is answered, and what a building begins
//! with.
//!
//! What crosses the boundary: paths go in, and the bytes that a [`Disk`] gives for them come out,
//! or an [`Unserved`], the first file that is not read or written. [`HostDisk`] is the machine's.
//! [`serve`] reads the files of an inquiry, has `textanswers` answer what they hold, and prints the
//! answer by [`print_answer`]; [`tell_hint`] says behind a fault which of the [`ReadFiles`] it is
//! in, of the bytes that were read. [`setup_of`] gives the setup of a text under a binding, and
//! [`beginning_of`] the [`Beginning`] with the values of a file of kept ones, with a [`KeptNote`]
//! on what became of that. The definitions to read first are `IsServed` (specs/Served.antt), with
//! the lines of an answer (specs/Reports.antt), and `HasBegun` (specs/Beginnings.antt). No contract
//! can say which bytes the machine's disk gives, or what becomes of those that it takes.
//!
//! ```text
//! let (out, status) = serve(alloc, &disk, out, &mut complaints, inquiry)?;
//! ```
#![tactic(auto)]

mod beginning;
mod hints;
mod reading;
mod report;
mod serving;
mod texts;

pub use beginning::{Beginning, KeptNote, beginning_of, kept_at, setup_of};
pub use exitstatus::{ExitStatus, PlayStop};
pub use hints::{FileRole, Hint, ReadFile, ReadFiles, hint_of, misplaced_text, tell_hint};
pub use reading::{Disk, DiskFault, HostDisk, reason};
pub use report::print_answer;
pub use serving::{Unserved, bytes_at, named_at, serve, write_at};
pub use textanswers::{Stop, UnknownTask, binding_of, check, task_line};
pub use texts::add_texts;
