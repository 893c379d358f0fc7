//! Plans: what the tasks of a source program do, over places in a store instead of names.
//!
//! What crosses the boundary: [`Plan`] with its [`Task`]s, their [`ProgramInstance`]s, [`Slot`]s
//! and [`FunctionBlock`]s, and the [`UserFunction`]s that they call, which the resolving of names
//! makes and the compiler lays out. The lines of an instance are those of `ilsource`, over
//! [`Place`]s. What holds of each task is `KeepsLimits` (specs/Plans.antt), and what a scan of it
//! means is `plan_scan` (specs/PlanMeaning.antt), to be read first.
//!
//! ```text
//! let task = plan.task(0);
//! for slot in task.slots() { /* its type and its initial value */ }
//! ```
#![tactic(auto)]

mod activation;
mod computed_rows;
mod constants;
mod declared_name;
mod function;
mod global;
mod instance;
mod place;
mod plan;
mod slot;
mod state;
mod stored;
mod task;
mod usage;

pub use activation::Activation;
pub use constants::{Constants, each_value_stands_once};
pub use declared_name::{DeclaredName, SlotName};
pub use function::{FunctionInput, FunctionVariable, UserFunction};
pub use global::{Global, Location};
pub use instance::{FunctionBlock, ProgramInstance};
pub use place::Place;
pub use plan::Plan;
pub use slot::{Slot, SlotOwner};
pub use state::TaskState;
pub use task::Task;
