//! Files of the values that a running building keeps, and plans whose variables begin with them.
//!
//! What crosses the boundary: [`Kept`], which is read of a file's bytes ([`Kept::parse`], or a
//! [`KeptFault`]) and has a [`KeptValue`] for each name, and [`KeptAt`], when that was;
//! [`kept_values`] and [`kept_file`], which make such a file; [`first_values_of`], which says with
//! which values the variables of an [`ilplan::Plan`] begin; and [`left_out_of`], which says with
//! which of those that were kept none does. The definitions to read first are `IsKeptFile`
//! (specs/KeptFiles.antt) and `begun_plan` (specs/KeptPlans.antt), the plan that begins so. What is
//! written is what is read: [`a_written_file_is_one`].
//!
//! ```text
//! let kept = Kept::parse(alloc, &bytes)?; // or it is empty, or torn
//! let begun = first_values_of(alloc, &plan, &kept)?;
//! plan.begin_with(&begun.globals, &begun.tasks);
//! ```
#![tactic(auto)]

mod blocks;
mod computed_rows;
mod fault;
mod first_values;
mod keep;
mod kept;
mod kept_at;
mod laws;
mod left_out;
mod lines;
mod page;
mod reading;
mod stage;
mod sum;
mod value;

pub use fault::KeptFault;
pub use first_values::{FirstValues, first_values_of};
pub use keep::kept_values;
pub use kept::Kept;
pub use kept_at::KeptAt;
pub use laws::{
    a_changed_byte_breaks_the_seal, a_changed_byte_changes_the_sum, a_written_file_is_one,
    entries_come_back,
};
pub use left_out::{LeftOut, left_out_of};
pub use page::kept_file;
pub use value::KeptValue;
