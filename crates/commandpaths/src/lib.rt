//! Where a command writes: to no path that it reads, and to each path one thing.
//!
//! What crosses the boundary: an [`commandline::Invocation`] goes in, and [`check_invocation`] says
//! whether it may write where it is to, or the [`PathFault`] of the first path that it may not. The
//! definition to read first is `AreOne` (specs/Paths.antt): when two paths lead to one file.
//!
//! ```text
//! check_invocation(rt, alloc, &invocation)?; // error: 'house.il' is read, so ..
//! ```
#![tactic(auto)]

mod misuse;
mod paths;
mod replaced;

pub use misuse::check_invocation;
pub use paths::{Misplaced, PathFault};
