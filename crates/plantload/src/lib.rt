//! Loading a text: from its bytes to the plan and the verified code of each of its tasks, or to the
//! one thing that is wrong.
//!
//! What crosses the boundary: [`load`], which answers an `ilcompile::Setup` or a [`LoadFault`]; and
//! its two steps, [`plan_of`] and [`setup_of`], for a caller that has a question to the plan
//! between them; [`load_with_source`] for one that asks the source program too, be the text loaded
//! or not. What a text's setup is, and which fault stands against it, is `IsLoaded`
//! (specs/Loading.antt), the definition to read first: a text has at most one such answer.
//!
//! Two laws say what a setup does, by its source program: [`runs_are_as_meant`] of the runs of its
//! codes, and [`scans_are_as_meant`] of the scans of every plant of it.
//!
//! [`load_kept`] loads a text whose variables begin with values that were kept (`IsKeptSetup`,
//! specs/KeptLoading.antt), and [`begin_kept`] lets a setup begin so; the laws are
//! [`kept_runs_are_as_meant`] and [`kept_scans_are_as_meant`].
//!
//! ```text
//! let setup = load(alloc, text, &binding)?;
//! ```
#![tactic(auto)]

mod fault;
mod kept;
mod laws;
mod loading;

pub use fault::{LoadFault, NotLoaded, RefusedTask};
pub use kept::{begin_kept, load_kept};
pub use laws::{
    kept_runs_are_as_meant, kept_scans_are_as_meant, runs_are_as_meant, scans_are_as_meant,
};
pub use loading::{load, load_with_source, plan_of, setup_of};
