//! The compiler: from a plan to the code of each of its tasks, and the setup that a plant runs.
//!
//! What crosses the boundary: [`compile`], which takes an [`ilplan::Plan`] and the number of one of
//! its tasks to that task's [`ilcode::Code`]. The code is laid out in one way, `laid_out`
//! (specs/Layout.antt), and its runs are the scans of the task, both ways: `IsMeant`
//! (specs/Meant.antt) is the definition to read first. The only error is that the
//! allocator is out of memory.
//!
//! A [`Setup`] is a plan with the verified code of each of its tasks: it keeps by its type that
//! each code is the one that is laid out for its task, does what the task means, has a certificate,
//! and has its greatest path as its bound (`IsCodeOf`, specs/Loaded.antt).
//!
//! ```text
//! let code = compile(alloc, &plan, task)?;
//! let bound = setup.code(0).bound();
//! ```
#![tactic(auto)]

mod bodies;
mod compiler;
mod computed_rows;
mod lines;
mod numbers;
mod setup;
mod targets;
mod words;

pub use compiler::compile;
pub use setup::Setup;
