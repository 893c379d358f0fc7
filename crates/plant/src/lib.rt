//! The plant: what a controller decides, on one thread and without a line to any bus.
//!
//! What crosses the boundary: [`Plant`], opened from the setup of a text, with its scan workers and
//! a limit of events. Each of its calls is one event, which is noted in the plant's history, or is
//! refused and changes nothing. `tick` and `note_frame` let in what the clock and the buses gave.
//! `take` hands a worker the task that goes first, with its snapshot, and `commit` notes what its
//! scan came to. `hand` gives a bus the next legal transaction, and `note_report` or `down` notes
//! what became of it. The definitions to read first are `Allowed` of `plantevents`
//! (specs/Legal.antt), which event may follow a history, and `Shown` (specs/Shown.antt), what
//! contracts see of a plant.
//!
//! ```text
//! let order = plant.take(alloc, worker)?;
//! let done = plant.commit(worker, scan_into(order.work)); // the scan again where it is not open
//! ```
#![tactic(auto)]

mod answers;
mod first_counts;
mod index;
mod inputs;
mod laws;
mod messages;
mod open_fault;
mod opening;
mod overrides;
mod place;
mod plant;
mod refusal;
mod setups;
mod shown_rows;
mod start_fault;
mod writes;

pub use laws::fullness_never_stops;
pub use open_fault::OpenFault;
pub use plant::{Handed, LEAST_LIMIT, MOST_LIMIT, MOST_WORKERS, Order, Plant};
pub use refusal::{CallError, CallRefusal};
pub use start_fault::StartFault;
