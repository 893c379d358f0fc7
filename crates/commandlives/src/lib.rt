//! A building on a command line: its files are read, its lines opened, and what it came to is
//! printed; and what the commands at one line work with.
//!
//! What crosses the boundary: the paths of the files, the words of the lines and the [`Grounds`] go
//! in, a site and a [`Notice`] that is told; a [`LiveEnd`] comes out of [`serve_live`], what the
//! building left ([`LiveLeft`]) or what stands against it ([`Halted`]), and [`status_of_live`] says
//! how the program ends. For a command at one line [`opened`] opens a [`ToolLine`], and
//! [`setup_at`] and [`binding_at`] read its files. The definition to read first is `IsLiveServed`
//! (specs/Buildings.antt); what is printed is by rows alone.
//!
//! ```text
//! let (out, end) = serve_live(rt, alloc, &disk, &grounds, out, files, &lines, &options)?;
//! ```
#![tactic(auto)]

mod live_status;
mod lived;
mod living;
mod tools;

pub use live_status::status_of_live_stop;
pub use lived::LiveLeft;
pub use livehouse::{Care, Departure, LiveStop, Site, Storage};
pub use living::{Grounds, Halted, LiveEnd, Notice, serve_live, status_of_live};
pub use tools::{ToolEnd, ToolLine, ToolStop, UnopenedLine, binding_at, opened, setup_at};
